// What reading a descriptor gives: its values and its extents, in sectors.
ghost use Rattle.std.specs.Prelude.{◌≡◌};
ghost use Rattle.lines.specs.Fault.{refusal_number};
ghost use Rattle.lines.specs.Record.{refusal_at};

use text::sector::Sectors;

// A text of the descriptor: its place and its length in bytes. An empty text is place 0, length 0. (No `&[u8]`: `kept_of` and the theorems speak of its place.)
#[derive(Clone, Copy)]
pub struct Text {
    pub place: usize,
    pub length: usize,
}

impl Text {
    // The empty text.
    pub const NONE: Text = Text {
        place: 0,
        length: 0,
    };
}

// Access type for VMDK extents. (No access is a storage of its own.)
#[derive(Clone, Copy)]
pub enum VmdkAccessType {
    // Read-only access
    RdOnly,
    // Read-write access
    RW,
}

// VMDK extent information after parsing, before opening. (`Source` of tables is its twin: it holds bytes. The theorems name both types with their variants.)
#[derive(Clone, Copy)]
pub enum VmdkParsedStorage {
    // No access
    NoAccess,
    // A zero-filled extent
    Zero(VmdkAccessType),
    // A FLAT extent with a RAW file: its access, the file's name, and where its data begins in the file, in sectors
    Flat(VmdkAccessType, Text, Sectors),
}

// VMDK extent descriptor information after parsing, before opening
#[derive(Clone, Copy)]
pub struct VmdkParsedExtent {
    // Number of sectors.
    pub sectors: Sectors,
    // Data source
    pub storage: VmdkParsedStorage,
}

// An extent that was read: the line of the descriptor that said it, counted from 1, and what it said. In a hand-made record the line is whatever its maker wrote.
#[derive(Clone, Copy)]
pub struct ReadExtent {
    pub line: usize,
    pub extent: VmdkParsedExtent,
}

// VMDK descriptor information.
#[derive(Clone, Copy)]
pub struct VmdkDesc {
    // Version number of the VMDK descriptor
    pub version: u32,
    // Content ID
    pub cid: Text,
    // Content ID of the parent link
    pub parent_cid: Text,
    // Type of virtual disk
    pub create_type: Text,
    // The disk geometry value (sectors)
    pub sectors: u64,
    // The disk geometry value (heads)
    pub heads: u64,
    // The disk geometry value (cylinders)
    pub cylinders: u64,
}

// How many extents a record has room for, and rows a table: `most` of specs/.
pub const MOST: usize = 1024;

// The most bytes of a descriptor: `most_bytes` of specs/.
pub const MOST_BYTES: usize = 2097152;

// A descriptor that was read: its values, the number of its extents, and the extents. Places past the count are no access and zeros, of line 0, in a record that was empty before it was read into. (A count and an array: the memory is fixed, and nothing is put on a heap.)
#[derive(Clone, Copy)]
pub struct Record {
    pub desc: VmdkDesc,
    pub count: usize,
    pub extents: [ReadExtent; MOST],
}

// Why an input is refused, in the order of document 01's numbers.
#[derive(Clone, Copy, Debug, PartialEq, Eq)]
pub enum Fault {
    // The length, and a sparse file
    TooShort = 1,
    TooLong,
    Sparse,
    // A line
    NotUtf8,
    SectorCount,
    NoType,
    OtherType,
    NoQuote,
    OneQuote,
    NotThreeWords,
    FileStart,
    VersionNumber,
    ParentHint,
    GeometryNumber,
    OtherKey,
    TooManyExtents,
    // After the lines
    OtherVersion,
    SizeTooLarge,
    SumTooLarge,
    FileStartTooLarge,
    // A mapping
    Inaccessible,
    OffsetTooLarge,
    // A record or a table whose count is above its room
    CountTooLarge,
    // The program's input
    InputTooLong,
}

impl Fault {
    // Document 01's number. (`as`: a variant's own number has no `From`.)
    pub fn number(self) -> u8
        ensures { result ≡ refusal_number self }
    {
        self as u8
    }

    // The refusal for it, with document 01's second number.
    pub fn at(self, second: usize) -> Refusal
        ensures { result ≡ refusal_at self second }
    {
        Refusal {
            fault: self,
            second,
        }
    }
}

// Why an input is refused: the fault, and document 01's second number.
#[derive(Clone, Copy, Debug, PartialEq, Eq)]
pub struct Refusal {
    pub fault: Fault,
    pub second: usize,
}

// Whether an input is sound, or why it is refused.
pub type Verdict = Result<(), Refusal>;
