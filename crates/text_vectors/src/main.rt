// Runs the text layer, and the keys, on vectors from standard input: writes each answer, then how many vectors were run and how many failed.
//
// A vector is a line `KIND LENGTH TAG A B`, then LENGTH bytes of text and a byte 0A. TAG, A and B are the answer that is expected;
// the input, and the output that goes with it, are made by compare/vectors.py, which takes the answers from Python's own Unicode.
#![tactic(auto)]

mod answers;

ghost use Rattle.std.specs.Prelude.{◌<◌, ◌≤◌, length, IfSome};
ghost use Rattle.std.specs.Iterator.{at_most};

use answers::Answer;
use input::read_full;
use std::io;

// A vector: its kind, a letter as the input has it, its text and the answer that is expected.
#[derive(Drop)]
struct Vector<'a> {
    kind: u8,
    text: &'a [u8],
    expected: Answer,
}

// The number that is the next word, or 0, and what stands after it. (0 and no Option: a line that lacks a number is run as a vector, and what the program does on an input stays.)
#[tactic(auto, using(text::proofs::Bounds::cuts))]
fn read_number(d: &[u8]) -> (u64, &[u8])
    ensures { length result.1.now ≤ length d.now }
{
    match text::words::next_word(d, 0) {
        Some((a, e)) => (
            text::number::number(&d[a..e], u64::MAX).unwrap_or(0),
            &d[e..],
        ),
        None => (0, d),
    }
}

// The first vector and what stands after it, if there is a whole one.
fn first_vector(d: &[u8]) -> Option<(Vector<'_>, &[u8])>
    ensures { IfSome result (λ parts. length parts.1.now < length d.now) }
{
    let (kind, d) = d.split_first()?;
    let (length, d) = read_number(d);
    let (tag, d) = read_number(d);
    let (a, d) = read_number(d);
    let (b, d) = read_number(d);
    let (_, d) = d.split_first()?;
    let (text, d) = d.split_at_checked(usize::try_from(length).ok()?)?;
    let (_, d) = d.split_first()?;
    let expected = Answer { tag, a, b };
    Some((
        Vector {
            kind: *kind,
            text,
            expected,
        },
        d,
    ))
}

// Writes a space and a number.
fn print_field(rt: &impl Print, n: u64) -> io::Result<()> {
    print!(rt; " {n}")
}

// Writes a vector's kind and the answer that was given.
fn print_answer(rt: &impl Print, kind: u8, got: Answer) -> io::Result<()> {
    rt.write_all(&[kind])?;
    print_field(rt, got.tag)?;
    print_field(rt, got.a)?;
    print_field(rt, got.b)?;
    println!(rt)
}

// Answers a vector's text, writes the answer, and says whether it is not the one expected.
fn fails(rt: &impl Print, v: Vector<'_>) -> io::Result<bool> {
    let got = answers::ask(v.kind, v.text);
    print_answer(rt, v.kind, got)?;
    Ok(got != v.expected)
}

// The vectors of an input, or of what is left of it. (`Words` and `Cases` of vmdkmap_cases go likewise, but for the cut: generic, the cut would be a closure, and that it leaves less a premise. `next` is the trait's.)
#[derive(Clone, Copy)]
struct Vectors<'a>(&'a [u8]);

impl<'a> Iterator for Vectors<'a> {
    type Item = Vector<'a>;

    ghost remaining = { λ s. at_most (length s.0.now) };

    fn next(&mut self) -> Option<Vector<'a>> {
        let (vector, rest) = first_vector(self.0)?;
        self.0 = rest;
        Some(vector)
    }
}

// Runs vector after vector.
fn run_all(rt: &impl Print, d: &[u8]) -> io::Result<()> {
    let mut count: usize = 0;
    let mut failed: usize = 0;
    for vector in Vectors(d) {
        count += 1;
        failed += usize::from(fails(rt, vector)?);
    }
    println!(rt; "run {count}")?;
    println!(rt; "failed {failed}")
}

// Reads the vectors and runs them. (Fixed memory, no heap: an array and how much of it is the input.)
fn main(rt: HostRuntime) -> io::Result<()> {
    let mut space = [0; 65536];
    let n = read_full(&mut rt.reader(), &mut space)?;
    run_all(&rt, &space[..n])
}
