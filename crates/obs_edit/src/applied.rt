//! What is answered to an edit, and what a line was.

use obs_script::Ask;

/// What an edit left: the rank and the needed number of the present case, and how many searches it took.
#[derive(Clone, Copy)]
pub struct Applied {
    pub rank: u32,
    pub needed: u32,
    pub searches: u32,
}

/// What a line was: an edit, which is done, or an ask, which isn't answered yet.
#[derive(Clone, Copy)]
pub enum Done {
    Edited(Applied),
    Asked(Ask),
}
