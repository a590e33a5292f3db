// What the program's arguments ask.
ghost use Rattle.std.specs.Prelude.{◌≡◌};
ghost use Rattle.text.specs.Number.{number_of};
ghost use Rattle.lines.specs.Record.{most};
ghost use Rattle.report.specs.Command.{range_of, command_of};
ghost use Rattle.report.specs.inside.Asking.{map_or_usage, or_usage};

use lines::record::MOST;
use text::find::is;
use text::number::number;

// What the program is asked.
#[derive(Clone, Copy)]
pub enum Command {
    // The report
    Report,
    // What lies at an offset, for at most a length
    Map(u64, u64),
    // The pieces from an offset on, for at most a length, at most so many
    Walk(u64, u64, usize),
    // Nothing that it knows; a case of `Command` and not a `None`, since `answer_of` says what is answered to it, and `read_command` promises it
    Usage,
}

// OFFSET LENGTH: numbers up to 2^64-1.
#[tactic(auto, unfolding(crate::specs::Command::range_of))]
fn range(a: &[u8], b: &[u8]) -> Option<(u64, u64)>
    ensures { map_or_usage result ≡ range_of a.now b.now }
{
    Some((number(a, u64::MAX)?, number(b, u64::MAX)?))
}

// PLACES: 0 to as many as a walk can write. `MOST` is cast, since there is no `From` for a `usize`.
fn places(c: &[u8]) -> Option<usize>
    ensures { result ≡ number_of most c.now }
{
    usize::try_from(number(c, MOST as u64)?).ok()
}

// What n arguments ask, the first of which is the mode, if it is anything that is known. The texts, here and in `range`, stay beside each other, as the public
// signature of `read_command` has them.
#[tactic(auto, unfolding(crate::specs::Command::command_of, crate::specs::Command::places_of))]
fn known(n: usize, mode: &[u8], a: &[u8], b: &[u8], c: &[u8]) -> Option<Command>
    ensures { or_usage result ≡ command_of n mode.now a.now b.now c.now }
{
    match n {
        0 => Some(Command::Report),
        1 if is(mode, b"report") => Some(Command::Report),
        3 if is(mode, b"map") => {
            let (offset, length) = range(a, b)?;
            Some(Command::Map(offset, length))
        }
        4 if is(mode, b"walk") => {
            let (offset, length) = range(a, b)?;
            Some(Command::Walk(offset, length, places(c)?))
        }
        _ => None,
    }
}

// What n arguments ask, the first of which is the mode.
pub fn read_command(n: usize, mode: &[u8], a: &[u8], b: &[u8], c: &[u8]) -> Command
    ensures { result ≡ command_of n mode.now a.now b.now c.now }
{
    known(n, mode, a, b, c).unwrap_or(Command::Usage)
}
