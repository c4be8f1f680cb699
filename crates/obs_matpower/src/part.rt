// The parts of a file.
use crate::fault::MatFault;

/// The tables that are read.
#[derive(Clone, Copy, PartialEq, Eq)]
pub enum MatTable {
    Bus,
    Branch,
}

/// Where a file has a table.
#[derive(Clone, Copy)]
pub struct MatPart<'a> {
    /// What stands after the table's `[`, up to its `]`. Nothing where there is no table; all that
    /// follows where the table isn't ended.
    pub text: &'a [u8],
    /// The number of the line with the `[`, from 1; 0 where there is no table.
    pub line: u32,
    /// That the table isn't there, or isn't ended.
    pub end: Option<MatFault>,
}
