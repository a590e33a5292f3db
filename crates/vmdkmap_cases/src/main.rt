// Runs vmdkmap's answers on a list of cases from standard input: writes each case and its answer, and then how many cases there were.
//
// A case is a line: a file of data/, and the program's arguments. The output that goes with the list is made by compare/texts.py,
// which takes the answers from compare/paper.py.
#![tactic(auto)]

ghost use Rattle.std.specs.Prelude.{◌<◌, ◌≤◌, length, IfSome};
ghost use Rattle.std.specs.Iterator.{at_most};

use input::read_full;
use report::answer::{answer, answer_space, input_space};
use report::command::{Command, read_command};
use std::io::Read;
use std::rt::Files;
use std::{fs, io};

// The words of a line, or of what is left of it: nothing past the last one, so that blanks at the end are not passed over again. (`Cases` goes likewise, but for the cut: see there.)
#[derive(Clone, Copy)]
struct Words<'a>(&'a [u8]);

impl<'a> Iterator for Words<'a> {
    type Item = &'a [u8];

    #[tactic(auto, using(text::proofs::Bounds::cuts))]
    fn next(&mut self) -> Option<&'a [u8]> {
        let line = self.0;
        self.0 = &[];
        let (a, e) = text::words::next_word(line, 0)?;
        self.0 = &line[e..];
        Some(&line[a..e])
    }
}

// What words ask, as the program's arguments: a fifth is one too many.
fn asked(mut words: Words) -> Command {
    let mode = words.next();
    let a = words.next();
    let b = words.next();
    let c = words.next();
    let n = [mode, a, b, c, words.next()].iter().flatten().count();
    read_command(
        n,
        mode.unwrap_or(&[]),
        a.unwrap_or(&[]),
        b.unwrap_or(&[]),
        c.unwrap_or(&[]),
    )
}

// Writes the answer to an input, by way of a buffer. (A function of its own: `vmdkmap` tells on standard error, and in other words, that an answer is too long.)
fn respond(rt: &impl Print, d: &[u8], asked: Command, out: &mut [u8]) -> io::Result<()> {
    let n = answer(d, asked, out);
    match out.get(..n) {
        Some(text) => rt.write_all(text),
        None => rt.println("too long"),
    }
}

// Reads a file; how many bytes it has. One that can't be read, as a folder, is as an empty one.
fn read_file(file: &mut impl Read, input: &mut [u8]) -> usize
    ensures { result ≤ length input.new }
{
    read_full(file, input).unwrap_or(0)
}

// Writes the answer to a file. (Fixed memory, no heap: an array and how much of it is the input, here and in `main`.)
fn run(rt: &impl Print, file: &mut impl Read, asked: Command) -> io::Result<()> {
    let mut input = input_space();
    let n = read_file(file, &mut input);
    let mut out = answer_space();
    respond(rt, &input[..n], asked, &mut out)
}

// Opens the file of a name, if there is one.
fn open<R: Files>(rt: &R, name: &[u8]) -> Option<R::File> {
    let name = str::from_utf8(name).ok()?;
    fs::open(rt, name).ok()
}

// Writes a case and its answer; a file that is not there, and a usage, are told.
fn run_case(rt: &(impl Files + Print), l: &[u8]) -> io::Result<()> {
    rt.write_all(b"> ")?;
    rt.write_all(l)?;
    rt.write_all(b"\n")?;
    let mut words = Words(l);
    let name = words.next().unwrap_or(&[]);
    let asked = asked(words);
    let Some(mut file) = open(rt, name) else {
        return rt.println("no such file");
    };
    match asked {
        Command::Usage => rt.println("usage"),
        Command::Report | Command::Map(_, _) | Command::Walk(_, _, _) => run(rt, &mut file, asked),
    }
}

// The first case of a list and the lines after its own; none where that is empty or has no end.
fn first_case(list: &[u8]) -> Option<(&[u8], &[u8])>
    ensures { IfSome result (λ parts. length parts.1.now < length list.now) }
{
    let (line, rest) = list.split_at_checked(text::find::line_end(list, 0))?;
    let (_, rest) = rest.split_first()?;
    if line.is_empty() {
        return None;
    }
    Some((line, rest))
}

// The cases of a list, or of what is left of it. (As `Words`, but for the cut: generic, the cut would be a closure, and that it leaves less a premise of both.)
#[derive(Clone, Copy)]
struct Cases<'a>(&'a [u8]);

impl<'a> Iterator for Cases<'a> {
    type Item = &'a [u8];

    ghost remaining = { λ s. at_most (length s.0.now) };

    fn next(&mut self) -> Option<&'a [u8]> {
        let (line, rest) = first_case(self.0)?;
        self.0 = rest;
        Some(line)
    }
}

// Runs case after case; how many there were.
fn run_all(rt: &(impl Files + Print), list: &[u8]) -> io::Result<usize> {
    let mut count: usize = 0;
    for line in Cases(list) {
        run_case(rt, line)?;
        count += 1;
    }
    Ok(count)
}

// Reads the list, runs its cases and counts them.
fn main(rt: HostRuntime) -> io::Result<()> {
    let mut space = [0; 65536];
    let n = read_full(&mut rt.reader(), &mut space)?;
    let count = run_all(&rt, &space[..n])?;
    println!(rt; "cases {count}")
}
