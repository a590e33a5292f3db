// vmdkmap: reads a VMDK descriptor on standard input, and writes what its disk is made of, or what lies at an offset of it.
//
// All answers are `report`'s, which are proved. Here bytes are read and written.
#![tactic(auto)]

ghost use Rattle.std.specs.Prelude.{◌≤◌, length, IfSome};
ghost use Rattle.std.specs.Io.{ReadsAtMost};

use input::read_full;
use report::answer::{answer, answer_space, input_space};
use report::command::{Command, read_command};
use std::env::{Env, FillError};
use std::io;
use std::io::{ErrorKind, Read};
use std::process::ExitCode;

// The most bytes of an argument that is looked at.
const LONGEST: usize = 4096;

// Each mode, with an example.
const USAGE: &str = "\
usage: vmdkmap [report] < DESCRIPTOR
       vmdkmap map OFFSET LENGTH < DESCRIPTOR
       vmdkmap walk OFFSET LENGTH PLACES < DESCRIPTOR    (PLACES is 0 to 1024)
as in: vmdkmap < reel.vmdk
       vmdkmap map 2047 100 < reel.vmdk
       vmdkmap walk 0 4096 1024 < reel.vmdk
";

// How many arguments there are, without the program's own name. An empty buffer tells one that is there from one that is missing.
fn arguments(rt: &impl Env) -> usize {
    (1..usize::MAX)
        .take_while(|i| !matches!(rt.arg(*i, &mut []), Err(FillError::NotPresent)))
        .count()
}

// Argument i, by way of a buffer: empty where it is missing, or none where the buffer is too short for it.
fn argument<'a>(rt: &impl Env, i: usize, buf: &'a mut [u8]) -> Option<&'a [u8]>
    ensures { IfSome result (λ part. length part.now ≤ length buf.old) }
{
    match rt.arg(i, buf) {
        Ok(n) => Some(&buf[..n]),
        Err(FillError::NotPresent) => Some(&[]),
        Err(FillError::TooLong) => None,
    }
}

// What the arguments ask, or none where one of them has more than 4,096 bytes. (Four arrays: the check does not follow the parts of an array of four.)
fn command(rt: &impl Env) -> Option<Command> {
    let mut mode = [0; LONGEST];
    let mut a = [0; LONGEST];
    let mut b = [0; LONGEST];
    let mut c = [0; LONGEST];
    Some(read_command(
        arguments(rt),
        argument(rt, 1, &mut mode)?,
        argument(rt, 2, &mut a)?,
        argument(rt, 3, &mut b)?,
        argument(rt, 4, &mut c)?,
    ))
}

// Writes each mode, with an example, on standard error.
fn usage(rt: &impl Eprint) {
    let _ = rt.eprint(USAGE);
}

// The system's words for an error, without the number that std adds.
fn words(error: &str) -> &str {
    match error.split_once(" (os error ") {
        Some((words, _)) => words,
        None => error,
    }
}

// Tells on standard error what failed, and why.
fn fail(rt: &(impl Eprint + Alloc), what: &str, error: io::Error) -> ExitCode {
    let _ = match format!(in rt.alloc(); "{error}") {
        Ok(text) => eprintln!(rt; "{what}: {}", words(text.as_str())),
        Err(_) => eprintln!(rt; "{what}: {error}"),
    };
    ExitCode::FAILURE
}

// Whether the input ends after n bytes. One of more than 65,536 is answered without its end.
fn is_whole(from: &mut impl Read, n: usize) -> io::Result<bool> {
    if 65536 < n {
        return Ok(true);
    }
    let mut next = [0; 1];
    Ok(from.read(&mut next)? == 0)
}

// Reads the input; how many bytes it has, or 65,537 where it has more than 65,536.
fn read_input(from: &mut impl Read, input: &mut [u8]) -> io::Result<usize>
    ensures { ReadsAtMost result input.new }
{
    let n = read_full(from, input)?;
    if !is_whole(from, n)? {
        // As at a terminal: the input ended, and went on.
        return Err(io::Error::new(ErrorKind::InvalidInput, "Invalid argument"));
    }
    Ok(n)
}

// Writes the answer to an input, by way of a buffer. (A function of its own: `vmdkmap_cases` tells on standard output that an answer is too long, as its vectors have it.)
fn respond(rt: &(impl Print + Eprint), d: &[u8], asked: Command, out: &mut [u8]) -> io::Result<()> {
    let n = answer(d, asked, out);
    match out.get(..n) {
        Some(text) => rt.write_all(text),
        None => {
            let _ = rt.eprintln("vmdkmap: the answer is too long");
            Ok(())
        }
    }
}

// Reads the input and writes the answer. (Fixed memory, no heap: an array and how much of it is the input.)
fn run(rt: &(impl Input + Print + Eprint + Alloc), asked: Command) -> ExitCode {
    let mut input = input_space();
    let n = match read_input(&mut rt.reader(), &mut input) {
        Ok(n) => n,
        Err(e) => return fail(rt, "vmdkmap: standard input", e),
    };
    let mut out = answer_space();
    match respond(rt, &input[..n], asked, &mut out) {
        Ok(()) => ExitCode::SUCCESS,
        Err(e) => fail(rt, "vmdkmap: standard output", e),
    }
}

// Tells the usage, or reads and answers.
fn main(rt: HostRuntime) -> ExitCode {
    let asked = command(&rt).unwrap_or(Command::Usage);
    match asked {
        Command::Usage => {
            usage(&rt);
            ExitCode::SUCCESS
        }
        Command::Report | Command::Map(_, _) | Command::Walk(_, _, _) => run(&rt, asked),
    }
}
