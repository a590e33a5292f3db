// The walk's loop, and the pieces that it writes.
ghost use Rattle.std.specs.Prelude.{◌≡◌, ◌≤◌, min, length as len};
ghost use Rattle.lines.specs.Record.{most};
ghost use Rattle.maps.specs.Walk.{no_piece, no_pieces, zero_piece, raw_piece, walk_from, walk_of, walked, listed};

use crate::mapping;
use lines::record::{Fault, MOST};
use tables::table::{Piece, PieceSource, ShallowMapping, Stop, Table, Walked};

// A zero piece: its file offset is 0, and it is not writable. (It stands beside `raw_piece`, as in specs/: one function of both would take a source that its other arguments already say. A row and a run stay two, there too: a struct of two numbers would be no plainer.)
fn zero_piece(start: u64, run: u64, row: usize) -> Piece
    ensures { result ≡ zero_piece start run row }
{
    Piece {
        start,
        run,
        source: PieceSource::Zero,
        row,
        file_offset: 0,
        writable: false,
    }
}

// A piece of nothing.
pub fn no_piece() -> Piece
    ensures { result ≡ no_piece }
{
    zero_piece(0, 0, 0)
}

// No piece in any place: what a caller makes once, to lend. It has as many places as a walk may write. (Its twins are descriptor's `no_extents` and tables' `no_rows`: one function for the three would be `[x; MOST]` by another name.)
#[tactic(auto, unfolding(crate::specs::Walk::no_pieces))]
pub fn no_pieces() -> [Piece; MOST]
    ensures { result ≡ no_pieces }
{
    [no_piece(); MOST]
}

// A piece of a file.
fn raw_piece(start: u64, run: u64, row: usize, file_offset: u64, writable: bool) -> Piece
    ensures { result ≡ raw_piece start run row file_offset writable }
{
    Piece {
        start,
        run,
        source: PieceSource::Raw,
        row,
        file_offset,
        writable,
    }
}

// What a walk answers where it ends.
fn ended(stop: Result<Stop, Fault>, count: usize, position: u64, looked: usize) -> Walked
    ensures { result ≡ record { count = count; stop = stop; position = position; looked = looked } }
{
    Walked {
        count,
        stop,
        position,
        looked,
    }
}

// The walk from a position on, with room for so many pieces, over a table with no more rows than it has places for. Before each step, in order: nothing left, or the position at or past the size, Done; no room, More. A step is as long as its run, so the loop goes by the position.
fn walk_from(t: &Table, list: &mut [Piece], room: usize, mut pos: u64, mut left: u64) -> Walked
    requires { (t.now.count ≤ most) × ((room ≤ most) × (room ≤ len list.old)) }
    ensures { (result ≡ walked (walk_from room t.now pos left)) × (list.new ≡ listed (walk_from room t.now pos left) list.old) }
{
    let size = t.size.offset();
    let mut count = 0;
    let mut looked = 0;
    let stop = loop {
        if left == 0 || size <= pos {
            break Ok(Stop::Done);
        }
        if room <= count {
            break Ok(Stop::More);
        }
        let m = mapping::find(t, pos, left);
        looked += m.looked;
        let found = match m.mapping {
            Ok(found) => found,
            Err(fault) => break Err(fault),
        };
        // Each arm stores its piece: with one store after the `match` a walk of one piece takes 7 to 10 % longer.
        match found {
            ShallowMapping::Eof => break Ok(Stop::Done),
            ShallowMapping::Zero(row) => list[count] = zero_piece(pos, m.run, row),
            ShallowMapping::Raw(row, file_offset, writable) => {
                list[count] = raw_piece(pos, m.run, row, file_offset, writable);
            }
        }
        count += 1;
        pos += m.run;
        left -= m.run;
    };
    ended(stop, count, pos, looked)
}

// The walk, with at most so many of the list's places, and at most `MOST`. (Table and list stay two parameters, here and above, as the public `walk` has them.) A table that says more rows is refused first.
pub fn walk_in(t: &Table, list: &mut [Piece], places: usize, at: u64, length: u64) -> Walked
    ensures { (result ≡ walked (walk_of t.now (min places (len list.old)) at length)) × (list.new ≡ listed (walk_of t.now (min places (len list.old)) at length) list.old) }
{
    if MOST < t.count {
        return ended(Err(Fault::CountTooLarge), 0, at, 0);
    }
    let room = places.min(list.len()).min(MOST);
    walk_from(t, list, room, at, length)
}
