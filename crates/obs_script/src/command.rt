// What a line says.

/// What can be asked of a session.
#[derive(Clone, Copy, PartialEq, Eq)]
pub enum Ask {
    Status,
    Tree,
    Bound,
    Islands,
    Critical,
    Report,
    Place,
    Cert,
}

/// What a line says. A name is a part of the line, and may be one that no table has.
#[derive(Clone, Copy, PartialEq, Eq)]
pub enum Command<'a> {
    OpenSwitch(&'a [u8]),
    CloseSwitch(&'a [u8]),
    /// Takes a branch out of service.
    TripBranch(&'a [u8]),
    /// Puts a branch in service.
    RestoreBranch(&'a [u8]),
    /// Takes a meter out of service.
    LoseMeter(&'a [u8]),
    /// Puts a meter in service.
    RegainMeter(&'a [u8]),
    Asked(Ask),
}
