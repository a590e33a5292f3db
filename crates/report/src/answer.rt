// The program's answer. It is written into a buffer that the caller lends, and cut where the buffer ends; what comes back is the length of
// the whole answer, within 2^64-1.
ghost use Rattle.std.specs.Prelude.{◌≡◌, ◌+◌, length, replicate};
ghost use Rattle.puts.specs.Put.{pasted, after, Put};
ghost use Rattle.lines.specs.Record.{refusal_at};
ghost use Rattle.lines.specs.declared.record.Fault.TheVariants.{InputTooLong};
ghost use Rattle.phrases.specs.Line.{refused_line};
ghost use Rattle.report.specs.Command.{most_input, answer_of};
ghost use Rattle.report.specs.Room.{room};

use crate::command::Command;
use disk_lines::whole::put_report;
use lines::record::Fault;
use map_lines::map::put_map;
use phrases::line::Answer;
use walk_lines::walk::put_walk;

// Room for the input, and for one byte more, by which an input that is too long is told.
pub type InputSpace = [u8; 65537];

// Room for any answer: that no answer is longer is a theorem (`answer_fits`).
pub type AnswerSpace = [u8; 172032];

// Room for the input, blank. `input_space` and `answer_space` stay two: their promises name `most_input` and `room`.
pub fn input_space() -> InputSpace
    ensures value { result ≡ replicate (most_input + 1) 0 }
    ensures most_input_value { most_input + 1 ≡ length result }
{
    [0; 65537]
}

// Room for any answer, blank.
pub fn answer_space() -> AnswerSpace
    ensures value { result ≡ replicate room 0 }
    ensures room_value { room ≡ length result }
{
    [0; 172032]
}

// Puts the refusal of an input that is too long.
fn put_too_long(out: &mut [u8]) -> usize
    ensures { Put out.old 0 (refused_line (refusal_at InputTooLong 0)) result out.new }
{
    let mut answer = Answer { out, at: 0 };
    answer.refused_line(Fault::InputTooLong.at(0));
    answer.at
}

// Puts what the program answers to some input.
#[tactic(auto, using(puts::proofs::Puts::put_none), unfolding(crate::specs::Command::answer_of))]
fn put_answer(d: &[u8], asked: Command, out: &mut [u8]) -> usize
    ensures { Put out.old 0 (answer_of d.now asked) result out.new }
{
    if 65536 < d.len() {
        return put_too_long(out);
    }
    match asked {
        Command::Report => put_report(d, out),
        Command::Map(offset, length) => put_map(d, offset, length, out),
        Command::Walk(offset, length, places) => put_walk(d, offset, length, places, out),
        Command::Usage => 0,
    }
}

// What the program answers to some input.
pub fn answer(d: &[u8], asked: Command, out: &mut [u8]) -> usize
    ensures value { result ≡ after 0 (answer_of d.now asked) }
    ensures out_after { out.new ≡ pasted out.old 0 (answer_of d.now asked) }
{
    put_answer(d, asked, out)
}
