// The walk over the disk, into a list of pieces that the caller lends. (Table and list stay two parameters: one is read, the other written.)
ghost use Rattle.std.specs.Prelude.{◌≡◌, length as len};
ghost use Rattle.lines.specs.Record.{most};
ghost use Rattle.maps.specs.Walk.{walk_of, walked, listed};

use crate::stepping;
use lines::record::MOST;
use tables::table::{Piece, Table, Walked};

// Fills the list from its start with the pieces of the disk from a position on, for at most a length.
pub fn walk(t: &Table, list: &mut [Piece], at: u64, length: u64) -> Walked
    ensures { (result ≡ walked (walk_of t.now (len list.old) at length)) × (list.new ≡ listed (walk_of t.now (len list.old) at length) list.old) }
{
    stepping::walk_in(t, list, MOST, at, length)
}
