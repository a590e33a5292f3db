// Mapping an offset of the disk.
ghost use Rattle.std.specs.Prelude.{◌≡◌, ◌≤◌, ◌<◌};
ghost use Rattle.lines.specs.Record.{most};
ghost use Rattle.maps.specs.Map.{ended, refused, writable, sourced, map_of};

use crate::halving;
use lines::record::{Fault, MOST, VmdkAccessType};
use tables::table::{Mapping, ShallowMapping, Source, Table};

// A refusal: run 0.
fn refuse(fault: Fault, looked: usize) -> Mapping
    ensures { result ≡ refused fault looked }
{
    Mapping {
        mapping: Err(fault),
        run: 0,
        looked,
    }
}

// The disk's end, or no row: run 0.
fn end_of_file(looked: usize) -> Mapping
    ensures { result ≡ ended looked }
{
    Mapping {
        mapping: Ok(ShallowMapping::Eof),
        run: 0,
        looked,
    }
}

// Whether an extent may be written: exactly for RW.
fn may_write(access: VmdkAccessType) -> bool
    ensures { result ≡ writable access }
{
    matches!(access, VmdkAccessType::RW)
}

// What the row's source has, at a place within the row. (The parameters are those of `sourced`, which the promise names.)
fn by_source(source: Source, row: usize, within: u64, run: u64, looked: usize) -> Mapping
    ensures { result ≡ sourced source row within run looked }
{
    match source {
        Source::NoAccess => refuse(Fault::Inaccessible, looked),
        Source::Zero(_) => Mapping {
            mapping: Ok(ShallowMapping::Zero(row)),
            run,
            looked,
        },
        Source::Flat(access, base, _) => match base.offset().checked_add(within) {
            None => refuse(Fault::OffsetTooLarge, looked),
            Some(file_offset) => Mapping {
                mapping: Ok(ShallowMapping::Raw(row, file_offset, may_write(access))),
                run,
                looked,
            },
        },
    }
}

// What lies at an offset before the disk's end, in a table with no more rows than it has places for: what mapping and the walk share, each of which has asked for both.
pub(crate) fn find(t: &Table, offset: u64, max_length: u64) -> Mapping
    requires { (t.now.count ≤ most) × (offset < t.now.size.0) }
    ensures { result ≡ map_of t.now offset max_length }
{
    let size = t.size.offset();
    let found = halving::search(t, offset);
    let Some((i, row)) = found.row else {
        return end_of_file(found.looked);
    };
    let within = offset - row.start.offset();
    let left = (size - offset).min(row.end.offset() - offset);
    let run = max_length.min(left);
    by_source(row.source, i, within, run, found.looked)
}

// What lies at an offset of the disk, for at most the length asked.
pub fn get_mapping(t: &Table, offset: u64, max_length: u64) -> Mapping
    ensures { result ≡ map_of t.now offset max_length }
{
    if MOST < t.count {
        return refuse(Fault::CountTooLarge, 0);
    }
    if t.size.offset() <= offset {
        return end_of_file(0);
    }
    find(t, offset, max_length)
}
