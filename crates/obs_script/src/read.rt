// A line's command.
ghost use Rattle.std.specs.Prelude.{◌≡◌, Ok, Err, IfErr, IfOk};
ghost use Rattle.obs_script.specs.Commands.{command_of};
ghost use Rattle.obs_script.specs.inner.Commands.{said_of};

use crate::command::Command;
use crate::fault::LineFault;
use crate::words::{ask, edit, split_word};
use obs_text::name_of;

/// The most bytes of a line.
const LONGEST: usize = 256;

/// The command that a line says. The line has no line end. An edit's name is all that follows the
/// first blank, further blanks included.
pub fn read_line(line: &[u8]) -> Result<Command<'_>, LineFault>
    ensures command { IfOk result (λ command. command_of line.now ≡ Ok (said_of command)) }
    ensures refused { IfErr result (λ fault. command_of line.now ≡ Err fault) }
{
    if line.len() > LONGEST {
        return Err(LineFault::LineTooLong);
    }
    if let Some(ask) = ask(line) {
        return Ok(Command::Asked(ask));
    }
    let (word, name) = split_word(line);
    let Some(command) = edit(word, name) else {
        return Err(LineFault::UnknownCommand);
    };
    if word.len() == line.len() {
        return Err(LineFault::WordMissing);
    }
    match name_of(name) {
        Some(_) => Ok(command),
        None => Err(LineFault::BadName),
    }
}
