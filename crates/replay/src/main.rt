// Replays a case file from standard input through the library, and writes the answers: compare/FORMAT.md has both formats.
#![tactic(auto)]

mod case;
mod line;
mod out;

ghost use Rattle.std.specs.Prelude.{◌≡◌, length};

use input::read_full;
use std::io;
use std::io::Read;

// Room for a case: a descriptor of two bytes more than the longest that is read, and 255 queries of 19 bytes. (`report` has such arrays of other lengths: a function for all of them would be `[0; N]` by another name.)
fn space() -> [u8; 2102000]
    ensures { 2102000 ≡ length result }
{
    [0; 2102000]
}

// Fills a part of the room; false where there is no such part, or the input ends before it is full.
fn fill(from: &mut impl Read, part: Option<&mut [u8]>) -> io::Result<bool> {
    let Some(part) = part else {
        return Ok(false);
    };
    let n = part.len();
    Ok(read_full(from, part)? == n)
}

// Reads the next case and answers how many bytes its descriptor has, or none where there is no whole case. A part is read whether or not the one before was whole: a terminal's input can end and go on, and what is answered there stays. (`as`: a u32 has no `From` to usize.)
fn read_case(from: &mut impl Read, c: &mut [u8]) -> io::Result<Option<usize>> {
    fill(from, c.get_mut(..4))?;
    let n = c.first_chunk().map_or(0, |b| u32::from_le_bytes(*b)) as usize;
    let told = fill(from, c.get_mut(..=n))?;
    let asked = c.get(n).map_or(0, |q| usize::from(*q) * case::QUERY);
    let after = n + 1;
    let whole = told & fill(from, c.get_mut(after..after + asked))?;
    Ok(whole.then_some(n))
}

// Case after case, up to a number that no file reaches.
fn run(rt: &impl Print, from: &mut impl Read, c: &mut [u8]) -> io::Result<()> {
    for k in 0..u64::from(u32::MAX) {
        let Some(n) = read_case(from, c)? else {
            break;
        };
        case::answer(rt, k, c, n)?;
    }
    Ok(())
}

// Replays the cases of standard input.
fn main(rt: HostRuntime) -> io::Result<()> {
    let mut c = space();
    run(&rt, &mut rt.reader(), &mut c)
}
