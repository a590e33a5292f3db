// The empty record: start values, and no extent in any place.
ghost use Rattle.std.specs.Prelude.{◌≡◌, []};
ghost use Rattle.lines.specs.Record.{no_desc, no_extent, no_read, filled, no_record};

use lines::record::{
    MOST, ReadExtent, Record, Text, VmdkDesc, VmdkParsedExtent, VmdkParsedStorage,
};
use text::sector::Sectors;

// The start values.
pub(crate) fn no_desc() -> VmdkDesc
    ensures { result ≡ no_desc }
{
    let none = Text {
        place: 0,
        length: 0,
    };
    VmdkDesc {
        version: 0,
        cid: none,
        parent_cid: none,
        create_type: none,
        sectors: 0,
        heads: 0,
        cylinders: 0,
    }
}

// No access and zeros.
fn no_extent() -> VmdkParsedExtent
    ensures { result ≡ no_extent }
{
    VmdkParsedExtent {
        sectors: Sectors::new(0),
        storage: VmdkParsedStorage::NoAccess,
    }
}

// No access and zeros, of no line.
pub(crate) fn no_read() -> ReadExtent
    ensures { result ≡ no_read }
{
    ReadExtent {
        line: 0,
        extent: no_extent(),
    }
}

// No extent in any place. (Likewise `no_pieces` of maps and `no_rows` of tables; one function for the three would be `[x; MOST]` by another name.)
fn no_extents() -> [ReadExtent; MOST]
    ensures { result ≡ filled no_read [] }
{
    [no_read(); MOST]
}

// The empty record, to lend.
pub fn no_record() -> Record
    ensures { result ≡ no_record }
{
    let extents = no_extents();
    Record {
        desc: no_desc(),
        count: 0,
        extents,
    }
}
