// Lines of a session: an edit of a row of the present case, an ask, or a refusal.
ghost use Rattle.std.specs.Prelude.{◌≡◌};
ghost use Rattle.obs_case.specs.Tables.{branch_names, meter_names, position_of, switch_names};
ghost use Rattle.obs_repair.specs.Lines.{edit_at, is_place, meant_of};

use crate::edit::{Edit, Meant, Refusal};
use obs_case::Case;
use obs_script::{Ask, Command, read_line};

// Opens or closes the switch of that name.
fn edit_switch(case: &Case, name: &[u8], closed: bool) -> Result<Meant, Refusal>
    ensures meant { result ≡ edit_at (position_of (switch_names case.now) name.now)
        (λ at. Edit.Switch at closed) Refusal.UnknownSwitch }
{
    match case.find_switch(name) {
        Some(at) => Ok(Meant::Edits(Edit::Switch { at, closed })),
        None => Err(Refusal::UnknownSwitch),
    }
}

// Puts the branch of that name in service, or takes it out.
fn edit_branch(case: &Case, name: &[u8], inservice: bool) -> Result<Meant, Refusal>
    ensures meant { result ≡ edit_at (position_of (branch_names case.now) name.now)
        (λ at. Edit.Branch at inservice) Refusal.UnknownBranch }
{
    match case.find_branch(name) {
        Some(at) => Ok(Meant::Edits(Edit::Branch { at, inservice })),
        None => Err(Refusal::UnknownBranch),
    }
}

// Puts the meter of that name in service, or takes it out.
fn edit_meter(case: &Case, name: &[u8], inservice: bool) -> Result<Meant, Refusal>
    ensures meant { result ≡ edit_at (position_of (meter_names case.now) name.now)
        (λ at. Edit.Meter at inservice) Refusal.UnknownMeter }
{
    match case.find_meter(name) {
        Some(at) => Ok(Meant::Edits(Edit::Meter { at, inservice })),
        None => Err(Refusal::UnknownMeter),
    }
}

// Whether an ask is for a placement.
fn is_place(ask: Ask) -> bool
    ensures place { result ≡ is_place ask }
{
    match ask {
        Ask::Place => true,
        Ask::Status => false,
        Ask::Tree => false,
        Ask::Bound => false,
        Ask::Islands => false,
        Ask::Critical => false,
        Ask::Report => false,
        Ask::Cert => false,
    }
}

/// What a line means for a case, with candidates or without.
pub fn meant(case: &Case, offered: bool, line: &[u8]) -> Result<Meant, Refusal>
    ensures meant { result ≡ meant_of case.now offered line.now }
{
    match read_line(line) {
        Err(fault) => Err(Refusal::from(fault)),
        Ok(Command::OpenSwitch(name)) => edit_switch(case, name, false),
        Ok(Command::CloseSwitch(name)) => edit_switch(case, name, true),
        Ok(Command::TripBranch(name)) => edit_branch(case, name, false),
        Ok(Command::RestoreBranch(name)) => edit_branch(case, name, true),
        Ok(Command::LoseMeter(name)) => edit_meter(case, name, false),
        Ok(Command::RegainMeter(name)) => edit_meter(case, name, true),
        Ok(Command::Asked(ask)) => {
            if is_place(ask) && !offered {
                Err(Refusal::NoCandidates)
            } else {
                Ok(Meant::Asks(ask))
            }
        }
    }
}
