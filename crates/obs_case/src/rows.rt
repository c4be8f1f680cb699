// The rows of the five tables. Rows are compared and hashed by their names alone, so that a table
// finds a row by its name.

use crate::name::Name;
use std::hash::Hash;

/// What a meter measures: the flow on a branch, the injection at a node, nothing, where a node is
/// known to inject nothing, or the voltage angle of a node against a common time reference.
#[derive(Clone, Copy, Debug, PartialEq, Eq)]
pub enum Kind {
    Flow,
    Injection,
    Zero,
    Angle,
}

/// A node; `source` says that it is fed from outside, and `absolute` that what it is connected to
/// is to be estimated against the common time reference.
#[derive(Drop)]
#[derive_where(PartialEq, Eq, Hash)]
pub struct Node {
    pub name: Name,
    #[derive_where(skip(EqHashOrd))]
    pub source: bool,
    #[derive_where(skip(EqHashOrd))]
    pub absolute: bool,
}

/// A switch between two nodes, given by their positions.
#[derive(Drop)]
#[derive_where(PartialEq, Eq, Hash)]
pub struct Switch {
    pub name: Name,
    #[derive_where(skip(EqHashOrd))]
    pub from: u32,
    #[derive_where(skip(EqHashOrd))]
    pub to: u32,
    #[derive_where(skip(EqHashOrd))]
    pub closed: bool,
}

/// A branch between two nodes, given by their positions.
#[derive(Drop)]
#[derive_where(PartialEq, Eq, Hash)]
pub struct Branch {
    pub name: Name,
    #[derive_where(skip(EqHashOrd))]
    pub from: u32,
    #[derive_where(skip(EqHashOrd))]
    pub to: u32,
    #[derive_where(skip(EqHashOrd))]
    pub inservice: bool,
}

/// A meter at a branch, given by its position, where it measures a flow, and else at a node.
#[derive(Drop)]
#[derive_where(PartialEq, Eq, Hash)]
pub struct Meter {
    pub name: Name,
    #[derive_where(skip(EqHashOrd))]
    pub kind: Kind,
    #[derive_where(skip(EqHashOrd))]
    pub at: u32,
    #[derive_where(skip(EqHashOrd))]
    pub inservice: bool,
}

/// A meter that could be bought, and its price.
#[derive(Drop)]
#[derive_where(PartialEq, Eq, Hash)]
pub struct Candidate {
    pub name: Name,
    #[derive_where(skip(EqHashOrd))]
    pub kind: Kind,
    #[derive_where(skip(EqHashOrd))]
    pub at: u32,
    #[derive_where(skip(EqHashOrd))]
    pub price: u64,
}
