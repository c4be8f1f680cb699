// One table of rows, found by their names.
ghost use Rattle.std.specs.Prelude.{◌≡◌, ◌≢◌, ◌≤◌, ◌&&◌, ◌∷◌, ◌++◌, [], List, ℕ, None, Some, length, map, true, IsTrue, IfOk, IfErr, IfSome, OnOk, OnErr, if◌then◌else◌};
ghost use Rattle.std.specs.List.{list_all};
ghost use Rattle.std.specs.Set.{swap_key};
ghost use Rattle.std.specs.Str.{bytes_eq};
ghost use Rattle.obs_text.specs.Names.{is_name};
ghost use Rattle.obs_case.specs.inner.Adds.{Refuses, add_fault_code, first_fault, name_fault};
ghost use Rattle.obs_case.specs.Tables.{has_name, most_rows, place_of, position_of};

use crate::name::{LONGEST, Name};
use crate::rows::{Branch, Candidate, Kind, Meter, Node, Switch};
use indexmap::IndexSet;
use std::hash::Hash;

/// Why a row isn't added, numbered from 1 in this order.
#[derive(Clone, Copy, Debug, PartialEq, Eq)]
pub enum AddFault {
    /// The table has a row of that name.
    NameTwice = 1,
    /// An end names no node.
    UnknownNode = 2,
    /// The place names no branch for a flow, or no node for another kind.
    UnknownPlace = 3,
    /// The table has as many rows as the case's limit.
    TooMany = 4,
    /// There was no memory for the row.
    NoMemory = 5,
}

impl AddFault {
    /// The refusal's number.
    pub fn code(self) -> u32
        ensures code { result ≡ add_fault_code self }
    {
        self as u32
    }
}

// A row that is found by its name.
pub(crate) trait Row: Eq + Hash + Drop {
    ghost own_name: { Self → List ℕ };

    // A row of this name, to look others up by.
    fn named(name: Name) -> Self
        ensures name { own_name result ≡ name };

    // Rows are compared by their names alone.
    ghost by_name: { (x y : Self) → Self.eq x y ≡ bytes_eq (own_name x) (own_name y) };
}

impl Row for Node {
    ghost use Rattle.std.specs.Prelude.{refl};

    ghost own_name = { λ row. row.name };

    ghost by_name = { λ x y. refl };

    fn named(name: Name) -> Node {
        Node {
            name,
            source: false,
            absolute: false,
        }
    }
}

impl Row for Switch {
    ghost use Rattle.std.specs.Prelude.{refl};

    ghost own_name = { λ row. row.name };

    ghost by_name = { λ x y. refl };

    fn named(name: Name) -> Switch {
        Switch {
            name,
            from: 0,
            to: 0,
            closed: false,
        }
    }
}

impl Row for Branch {
    ghost use Rattle.std.specs.Prelude.{refl};

    ghost own_name = { λ row. row.name };

    ghost by_name = { λ x y. refl };

    fn named(name: Name) -> Branch {
        Branch {
            name,
            from: 0,
            to: 0,
            inservice: false,
        }
    }
}

impl Row for Meter {
    ghost use Rattle.std.specs.Prelude.{refl};

    ghost own_name = { λ row. row.name };

    ghost by_name = { λ x y. refl };

    fn named(name: Name) -> Meter {
        Meter {
            name,
            kind: Kind::Zero,
            at: 0,
            inservice: false,
        }
    }
}

impl Row for Candidate {
    ghost use Rattle.std.specs.Prelude.{refl};

    ghost own_name = { λ row. row.name };

    ghost by_name = { λ x y. refl };

    fn named(name: Name) -> Candidate {
        Candidate {
            name,
            kind: Kind::Zero,
            at: 0,
            price: 0,
        }
    }
}

// The position of the row of that name.
pub(crate) fn find<R: Row>(rows: &IndexSet<R>, name: &[u8]) -> Option<u32>
    requires named { IsTrue (list_all is_name (map R.own_name rows.now.keys)) }
    requires few { length rows.now.keys ≤ most_rows }
    ensures position { result ≡ position_of (map R.own_name rows.now.keys) name.now }
{
    if name.len() > LONGEST {
        return None;
    }
    let wanted = R::named(Name::new(name));
    match rows.get_index_of(&wanted) {
        Some(at) => Some(at as u32),
        None => None,
    }
}

// The position of the row of that name, and the number of rows where none has it.
fn place_of<R: Row>(rows: &IndexSet<R>, name: &[u8]) -> u32
    requires named { IsTrue (list_all is_name (map R.own_name rows.now.keys)) }
    requires few { length rows.now.keys ≤ most_rows }
    ensures place { result ≡ place_of (map R.own_name rows.now.keys) name.now }
{
    match find(rows, name) {
        Some(at) => at,
        None => rows.len() as u32,
    }
}

// Where a meter stands, and the fault where it can't stand there.
#[derive(Clone, Copy)]
pub(crate) struct FoundPlace {
    pub(crate) at: u32,
    pub(crate) fault: Option<AddFault>,
}

// What a meter stands at that stands at the row of this name.
pub(crate) fn find_place<R: Row>(rows: &IndexSet<R>, name: &[u8]) -> FoundPlace
    requires named { IsTrue (list_all is_name (map R.own_name rows.now.keys)) }
    requires few { length rows.now.keys ≤ most_rows }
    ensures at { result.at ≡ place_of (map R.own_name rows.now.keys) name.now }
    ensures fault { result.fault
        ≡ (if has_name (map R.own_name rows.now.keys) name.now then None else Some AddFault.UnknownPlace) }
{
    let at = place_of(rows, name);
    let fault = if (at as usize) < rows.len() {
        None
    } else {
        Some(AddFault::UnknownPlace)
    };
    FoundPlace { at, fault }
}

// The ends of a row between two nodes, and the fault where one of them is none.
#[derive(Clone, Copy)]
pub(crate) struct FoundEnds {
    pub(crate) from: u32,
    pub(crate) to: u32,
    pub(crate) fault: Option<AddFault>,
}

// The ends of a row between the nodes of these names.
pub(crate) fn find_ends(nodes: &IndexSet<Node>, from: &[u8], to: &[u8]) -> FoundEnds
    requires named { IsTrue (list_all is_name (map (λ row. row.name) nodes.now.keys)) }
    requires few { length nodes.now.keys ≤ most_rows }
    ensures from { result.from ≡ place_of (map (λ row. row.name) nodes.now.keys) from.now }
    ensures to { result.to ≡ place_of (map (λ row. row.name) nodes.now.keys) to.now }
    ensures fault { let names = map (λ row. row.name) nodes.now.keys in
        result.fault ≡ (if has_name names from.now && has_name names to.now then None else Some AddFault.UnknownNode) }
{
    let count = nodes.len() as u32;
    let from = place_of(nodes, from);
    let to = place_of(nodes, to);
    let fault = if from < count && to < count {
        None
    } else {
        Some(AddFault::UnknownNode)
    };
    FoundEnds { from, to, fault }
}

// Why a row isn't added, as far as that is told before it is tried: the table is full, or there is another fault, and a name
// that the table has stands before that one.
fn refusal<R: Row>(
    rows: &IndexSet<R>,
    most: u32,
    row: &R,
    other: Option<AddFault>,
) -> Option<AddFault>
    ensures fault { IfSome result (λ fault.
        first_fault (name_fault most (map R.own_name rows.now.keys) (R.own_name row.now)) other ≡ Some fault) }
    ensures none { result ≡ None → (other ≡ None) × (length rows.now.keys ≢ most) }
{
    if rows.len() == most as usize {
        return Some(AddFault::TooMany);
    }
    if other.is_some() && rows.contains(row) {
        return Some(AddFault::NameTwice);
    }
    other
}

// Adds a row at the end, where it has no fault, and answers its position. What is wrong with the row but for its name is
// given.
pub(crate) fn add<R: Row>(
    rows: &mut IndexSet<R>,
    most: u32,
    row: R,
    other: Option<AddFault>,
) -> Result<u32, AddFault>
    requires few { length rows.old.keys ≤ most_rows }
    ensures accepted { OnOk result
        (first_fault (name_fault most (map R.own_name rows.old.keys) (R.own_name row)) other ≡ None) }
    ensures refused { IfErr result
        (Refuses (first_fault (name_fault most (map R.own_name rows.old.keys) (R.own_name row)) other)) }
    ensures position { IfOk result (λ at. at ≡ length rows.old.keys) }
    ensures added { OnOk result (rows.new.keys ≡ rows.old.keys ++ row ∷ []) }
    ensures unchanged { OnErr result (rows.new.keys ≡ rows.old.keys) }
{
    if let Some(fault) = refusal(rows, most, &row, other) {
        return Err(fault);
    }
    let Ok((at, new)) = rows.insert_full(row) else {
        return Err(AddFault::NoMemory);
    };
    if new {
        Ok(at as u32)
    } else {
        Err(AddFault::NameTwice)
    }
}

// Puts a row in the place of the one of its name.
pub(crate) fn put<R: Row>(rows: &mut IndexSet<R>, row: R)
    requires there { has_name (map R.own_name rows.old.keys) (R.own_name row) ≡ true }
    ensures put { rows.new.keys ≡ swap_key (R.eq row) rows.old.keys row }
{
    let _ = rows.replace(row);
}

// Lets a table go: one proof for the tables of all rows.
pub(crate) fn let_go<R: Row>(_rows: IndexSet<R>) {}
