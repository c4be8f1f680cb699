// The parts of a file.
use crate::fault::CdfFault;

/// Where a file has its bus lines and its branch lines.
#[derive(Clone, Copy)]
pub struct Sections<'a> {
    /// The bus lines. Nothing where there is no bus section; all that follows its heading where the
    /// section isn't ended.
    pub buses: &'a [u8],
    /// The number of the line after the heading of the buses, from 1; 0 where there is no heading.
    pub buses_from: u32,
    /// The branch lines, in the same way.
    pub branches: &'a [u8],
    /// The number of the line after the heading of the branches, from 1; 0 where there is no heading.
    pub branches_from: u32,
    /// The first section that isn't there or isn't ended.
    pub end: Option<CdfFault>,
}
