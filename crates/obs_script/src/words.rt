// The words of a line.
ghost use Rattle.std.specs.Prelude.{◌≡◌};
ghost use Rattle.std.specs.Option.{option_map};
ghost use Rattle.obs_script.specs.Commands.{ask_of, command_word, edit_of, name_in};
ghost use Rattle.obs_script.specs.inner.Commands.{said_of};

use crate::command::{Ask, Command};

const BLANK: u8 = b' ';

// The ask that a line is.
pub(crate) fn ask(line: &[u8]) -> Option<Ask>
    ensures ask { result ≡ ask_of line.now }
{
    if line == b"status".as_slice() {
        Some(Ask::Status)
    } else if line == b"tree".as_slice() {
        Some(Ask::Tree)
    } else if line == b"bound".as_slice() {
        Some(Ask::Bound)
    } else if line == b"islands".as_slice() {
        Some(Ask::Islands)
    } else if line == b"critical".as_slice() {
        Some(Ask::Critical)
    } else if line == b"report".as_slice() {
        Some(Ask::Report)
    } else if line == b"place".as_slice() {
        Some(Ask::Place)
    } else if line == b"cert".as_slice() {
        Some(Ask::Cert)
    } else {
        None
    }
}

// The edit that a command word is, of the row of this name.
pub(crate) fn edit<'a>(word: &[u8], name: &'a [u8]) -> Option<Command<'a>>
    ensures edit { option_map said_of result ≡ edit_of word.now name.now }
{
    if word == b"open".as_slice() {
        Some(Command::OpenSwitch(name))
    } else if word == b"close".as_slice() {
        Some(Command::CloseSwitch(name))
    } else if word == b"trip".as_slice() {
        Some(Command::TripBranch(name))
    } else if word == b"restore".as_slice() {
        Some(Command::RestoreBranch(name))
    } else if word == b"lose".as_slice() {
        Some(Command::LoseMeter(name))
    } else if word == b"regain".as_slice() {
        Some(Command::RegainMeter(name))
    } else {
        None
    }
}

// The command word, and what follows the blank after it.
pub(crate) fn split_word(line: &[u8]) -> (&[u8], &[u8])
    ensures word { result.0.now ≡ command_word line.now }
    ensures name { result.1.now ≡ name_in line.now }
{
    match line.iter().position(|byte| *byte == BLANK) {
        Some(end) => (&line[..end], &line[end + 1..]),
        None => (line, &[]),
    }
}
