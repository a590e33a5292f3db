// Writing a line of an answer. (What is written to and the case's bytes stay two parameters, as in case.rt; a struct of them would be no plainer than two names.)
use crate::line::Line;
use lines::record::Text;
use puts::put::{put_byte, put_decimal};
use std::io;

// The first n bytes, or as many as there are.
pub(crate) fn front(b: &[u8], n: usize) -> &[u8] {
    b.get(..n).unwrap_or(b)
}

// Where the next word of a line goes: at a place, or at the start once what stands before it, 480 bytes or more, was written out.
fn place(rt: &impl Print, b: &[u8], at: usize) -> io::Result<usize> {
    if at < 480 {
        return Ok(at);
    }
    rt.write_all(front(b, at))?;
    Ok(0)
}

// A space and a number. (Buffer and place stand side by side, as `put_byte` and `put_decimal` take them.)
fn number(rt: &impl Print, b: &mut [u8], at: usize, n: u64) -> io::Result<usize> {
    let p = place(rt, b, at)?;
    let q = put_byte(b, p, 0x20);
    Ok(put_decimal(b, q, n))
}

// The bytes of a text.
fn bytes(c: &[u8], t: Text) -> &[u8] {
    c.get(t.place..).map_or(&[], |rest| front(rest, t.length))
}

// A line in a buffer: its letter, its five numbers and the bytes of its text; what does not fit is written out.
fn fill(rt: &impl Print, b: &mut [u8], c: &[u8], l: Line) -> io::Result<usize> {
    let mut at = put_byte(b, 0, l.letter);
    let text = bytes(c, l.text).iter().map(|x| u64::from(*x));
    for n in l.numbers.into_iter().chain(text) {
        at = number(rt, b, at, n)?;
    }
    Ok(put_byte(b, at, 0x0a))
}

// Writes a line of an answer; its text is one of the case's descriptor. (By way of an array, with the place in it: std's `BufWriter` takes heap.)
pub(crate) fn line(rt: &impl Print, c: &[u8], l: Line) -> io::Result<()> {
    let mut b = [0; 1024];
    let n = fill(rt, &mut b, c, l)?;
    rt.write_all(front(&b, n))
}
