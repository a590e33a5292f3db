// Building the extent table: rows follow each other from 0, one for each extent. The record and the table are lent. (Line, start and end stay three parameters, as in `row_of`, which `build_of` rests on.)
ghost use Rattle.std.specs.Prelude.{◌≡◌, [], length, IfOk};
ghost use Rattle.lines.specs.Record.{filled, read_in};
ghost use Rattle.tables.specs.Build.{row_of, no_row, no_table, build_of};
ghost use Rattle.tables.specs.Into.{stored_rows, build_into};
ghost use Rattle.tables.specs.inside.Opening.{open_file, open_source, opened_of};
ghost use Rattle.tables.specs.inside.Storing.{size_of, with_rows};

use crate::table::{Row, Source, Table};
use lines::record::{
    Fault, MOST, Record, Refusal, Text, Verdict, VmdkAccessType, VmdkParsedExtent,
    VmdkParsedStorage,
};
use text::sector::{Bytes, Sectors};

// A line's row from its start up to its end.
fn row(line: usize, start: u64, end: u64, source: Source) -> Row
    ensures { result ≡ row_of line start end source }
{
    Row {
        start: Bytes::upto(start),
        end: Bytes::upto(end),
        source,
        line,
    }
}

// No access and zeros, of no line: what stands in a place that holds no row.
pub fn no_row() -> Row
    ensures { result ≡ no_row }
{
    row(0, 0, 0, Source::NoAccess)
}

// No row in any place. (Likewise `no_extents` of descriptor and `no_pieces` of maps; one function for the three would be `[x; MOST]` by another name.)
fn no_rows() -> [Row; MOST]
    ensures { result ≡ filled no_row [] }
{
    let none = no_row();
    [none; MOST]
}

// The empty table: what a caller makes once, to lend.
pub fn no_table() -> Table
    ensures { result ≡ no_table }
{
    let size = Bytes::upto(0);
    let rows = no_rows();
    Table {
        size,
        count: 0,
        rows,
    }
}

// The row of a flat extent, whose file start is turned into bytes. (20)
fn open_file(
    access: VmdkAccessType,
    name: Text,
    offset: Sectors,
    line: usize,
    start: u64,
    end: u64,
) -> Result<Row, Refusal>
    ensures { result ≡ open_file access name offset line start end }
{
    let base = offset.bytes().ok_or(Fault::FileStartTooLarge.at(line))?;
    Ok(row(line, start, end, Source::Flat(access, base, name)))
}

// The row of an extent from its start up to its end, by its data source.
fn open_source(
    storage: VmdkParsedStorage,
    line: usize,
    start: u64,
    end: u64,
) -> Result<Row, Refusal>
    ensures { result ≡ open_source storage line start end }
{
    match storage {
        VmdkParsedStorage::NoAccess => Ok(row(line, start, end, Source::NoAccess)),
        VmdkParsedStorage::Zero(access) => Ok(row(line, start, end, Source::Zero(access))),
        VmdkParsedStorage::Flat(access, name, offset) => open_file(
            access, name, offset, line, start, end,
        ),
    }
}

// The row of line's extent, which starts at an offset of the disk: its size, its end, then its source. (18, 19, 20)
fn open_implicit_extent(
    extent: VmdkParsedExtent,
    line: usize,
    in_disk_offset: u64,
) -> Result<Row, Refusal>
    ensures { result ≡ opened_of extent line in_disk_offset }
{
    let size = extent.sectors.bytes().ok_or(Fault::SizeTooLarge.at(line))?;
    let end = in_disk_offset
        .checked_add(size.offset())
        .ok_or(Fault::SumTooLarge.at(line))?;
    open_source(extent.storage, line, in_disk_offset, end)
}

// Stores a row for each extent, up to the first that is refused, and answers the disk's size. (23 first)
fn put_rows(record: &Record, into: &mut Table) -> Result<Bytes, Refusal>
    ensures size { result ≡ size_of «record».now }
    ensures rows { into.new ≡ with_rows (stored_rows «record».now) into.old }
    ensures counted { IfOk result (λ _. length (read_in «record».now) ≡ «record».now.count) }
{
    let count = record.count;
    if MOST < count {
        return Err(Fault::CountTooLarge.at(0));
    }
    let mut size = Bytes::upto(0);
    for (i, read) in record.extents[..count].iter().enumerate() {
        let row = open_implicit_extent(read.extent, read.line, size.offset())?;
        into.rows[i] = row;
        size = row.end;
    }
    Ok(size)
}

// The extent table of a record, also of a hand-made one, in a table that is lent: the verdict is answered.
pub fn build(record: &Record, into: &mut Table) -> Verdict
    ensures { (result ≡ (build_of «record».now).verdict) × (into.new ≡ build_into «record».now into.old) }
{
    match put_rows(record, into) {
        Ok(size) => {
            into.size = size;
            into.count = record.count;
            Ok(())
        }
        Err(r) => {
            into.size = Bytes::upto(0);
            into.count = 0;
            Err(r)
        }
    }
}
