// The extent table: the disk's size and a row for each extent.
use lines::record::{Fault, MOST, Text, VmdkAccessType};
use text::sector::Bytes;

// Where a row's bytes come from. (`VmdkParsedStorage` is its twin: it holds sectors as they were read, this one bytes as they were built. The theorems name both types with their variants.)
#[derive(Clone, Copy)]
pub enum Source {
    // No access
    NoAccess,
    // A zero-filled extent
    Zero(VmdkAccessType),
    // A FLAT extent: its access, where its data begins in the file, in bytes, and the file's name
    Flat(VmdkAccessType, Bytes, Text),
}

// VMDK extent: the part of the virtual disk that it covers, from its start up to its end, its source, and the line of the descriptor that said it, counted from 1 (of a hand-made extent, whatever its maker wrote).
#[derive(Clone, Copy)]
pub struct Row {
    pub start: Bytes,
    pub end: Bytes,
    pub source: Source,
    pub line: usize,
}

// The disk's size and the rows. Places past the count are no access and zeros, of line 0, in a table that was empty before it was built. (A count and an array: the memory is fixed, and nothing is put on a heap.)
#[derive(Clone, Copy)]
pub struct Table {
    pub size: Bytes,
    pub count: usize,
    pub rows: [Row; MOST],
}

// What lies at an offset of the disk.
#[derive(Clone, Copy)]
pub enum ShallowMapping {
    // The disk's end, or no row
    Eof,
    // Zeros, by the row with this number
    Zero(usize),
    // The row's number, the offset in its file, and whether it may be written
    Raw(usize, u64, bool),
}

// A mapping: what lies there, or why it is refused (the second number is 0); for how many bytes, and how many rows were looked at.
#[derive(Clone, Copy)]
pub struct Mapping {
    pub mapping: Result<ShallowMapping, Fault>,
    pub run: u64,
    pub looked: usize,
}

// Where a piece's bytes come from.
#[derive(Clone, Copy)]
pub enum PieceSource {
    Zero,
    Raw,
}

// A part of the disk that lies in one row. (The two bytes stand last, beside each other: so a piece has 40 bytes.)
#[derive(Clone, Copy)]
pub struct Piece {
    // Where it starts on the disk
    pub start: u64,
    // How many bytes it has
    pub run: u64,
    // The row's number
    pub row: usize,
    // Where it starts in the row's file; 0 for zeros
    pub file_offset: u64,
    pub source: PieceSource,
    // Whether it may be written; never for zeros
    pub writable: bool,
}

// Why a walk stopped that was not refused.
#[derive(Clone, Copy)]
pub enum Stop {
    // Nothing is left, or the disk has ended
    Done,
    // The list is full, or 1,024 pieces are written
    More,
}

// What a walk did: how many pieces it wrote, why it stopped (of a refusal the second number is 0), the position reached, and the sum of rows looked at.
#[derive(Clone, Copy)]
pub struct Walked {
    pub count: usize,
    pub stop: Result<Stop, Fault>,
    pub position: u64,
    pub looked: usize,
}
