// An extent line. Its refusals, 5 to 11, are tested in rising order. (A line and the end of its first word stay two parameters, as in `second_of` and the other definitions, which the promises name; a struct of them would be taken apart in each function.)
ghost use Rattle.std.specs.Prelude.{◌≡◌, ◌+◌, ◌≤◌, length};
ghost use Rattle.lines.specs.Extent.{second_of, third_of, three_words, file_name_of, file_start_of, flat_line, no_access_line, extent_line};

use crate::line::{Said, keep};
use crate::placed::Placed;
use crate::record::{Fault, Text, VmdkAccessType, VmdkParsedExtent, VmdkParsedStorage};
use text::find::{find_byte, is};
use text::sector::Sectors;
use text::words::next_word;

// The extent's type, its third word.
#[derive(Clone, Copy, Debug, PartialEq, Eq)]
pub enum Third {
    Zero,
    Flat,
}

// The sector count after a first word that ends at a place, and where its word ends.
#[tactic(auto, using(text::proofs::Bounds::cuts), unfolding(crate::specs::Extent::second_of))]
fn second_word(t: &[u8], end: usize) -> Option<(Sectors, usize)>
    ensures { result ≡ second_of t.now end }
{
    let (a, e) = next_word(t, end)?;
    let count = Sectors::of(&t[a..e])?;
    Some((count, e))
}

// The extent's type after a second word that ends at a place.
#[tactic(auto, using(text::proofs::Bounds::cuts), unfolding(crate::specs::Extent::third_of))]
fn third_word(t: &[u8], end: usize) -> Result<Third, Fault>
    ensures { result ≡ third_of t.now end }
{
    let (a, e) = next_word(t, end).ok_or(Fault::NoType)?;
    let kind = &t[a..e];
    if is(kind, b"ZERO") {
        return Ok(Third::Zero);
    }
    if is(kind, b"FLAT") {
        return Ok(Third::Flat);
    }
    Err(Fault::OtherType)
}

// Whether a text is three words.
#[tactic(auto, unfolding(crate::specs::Extent::three_words))]
fn three_words(t: &[u8]) -> bool
    ensures { result ≡ three_words t.now }
{
    let Some((_, first)) = next_word(t, 0) else {
        return false;
    };
    let Some((_, second)) = next_word(t, first) else {
        return false;
    };
    let Some((_, third)) = next_word(t, second) else {
        return false;
    };
    next_word(t, third).is_none()
}

// The whole line is cut at its first two `"`: what stands before must be three words, the middle, trimmed, is the file name.
#[tactic(auto, using(crate::proofs::Founds::founds), unfolding(crate::specs::Extent::file_name_of))]
fn file_name(t: Placed) -> Result<(Text, usize), Fault>
    ensures { result ≡ file_name_of t.entry.place t.entry.bytes.now }
{
    let i = find_byte(t.bytes, 0, b'"').ok_or(Fault::NoQuote)?;
    let j = find_byte(t.bytes, i + 1, b'"').ok_or(Fault::OneQuote)?;
    if !three_words(&t.bytes[..i]) {
        return Err(Fault::NotThreeWords);
    }
    Ok((keep(t.part(i + 1, j)), j + 1))
}

// The file's start: the first word from a place on, 0 if there is none.
#[tactic(auto, using(text::proofs::Bounds::cuts), unfolding(crate::specs::Extent::file_start_of))]
fn file_start(t: &[u8], from: usize) -> Option<Sectors>
    ensures { result ≡ file_start_of t.now from }
{
    match next_word(t, from) {
        Some((a, e)) => Sectors::of(&t[a..e]),
        None => Some(Sectors::new(0)),
    }
}

// A FLAT extent of so many sectors.
#[tactic(auto, unfolding(crate::specs::Extent::flat_line))]
fn flat_line(access: VmdkAccessType, sectors: Sectors, t: Placed) -> Result<Said, Fault>
    ensures { result ≡ flat_line access sectors t.entry.place t.entry.bytes.now }
{
    let (name, after) = file_name(t)?;
    let offset = file_start(t.bytes, after).ok_or(Fault::FileStart)?;
    Ok(Said::Extent(VmdkParsedExtent {
        sectors,
        storage: VmdkParsedStorage::Flat(access, name, offset),
    }))
}

// Parse an extent descriptor line whose first word is NOACCESS: the rest after its sector count is ignored.
#[tactic(auto, unfolding(crate::specs::Extent::no_access_line))]
pub(crate) fn no_access_from_descriptor_line(t: &[u8], end: usize) -> Result<Said, Fault>
    ensures { result ≡ no_access_line t.now end }
{
    let (sectors, _) = second_word(t, end).ok_or(Fault::SectorCount)?;
    Ok(Said::Extent(VmdkParsedExtent {
        sectors,
        storage: VmdkParsedStorage::NoAccess,
    }))
}

// Parse an extent descriptor line whose first word is RW or RDONLY and ends at a place of it.
#[tactic(auto, unfolding(crate::specs::Extent::extent_line))]
pub(crate) fn try_from_descriptor_line(
    access: VmdkAccessType,
    t: Placed,
    end: usize,
) -> Result<Said, Fault>
    ensures { result ≡ extent_line access t.entry.place t.entry.bytes.now end }
{
    let (sectors, e) = second_word(t.bytes, end).ok_or(Fault::SectorCount)?;
    match third_word(t.bytes, e)? {
        Third::Zero => Ok(Said::Extent(VmdkParsedExtent {
            sectors,
            storage: VmdkParsedStorage::Zero(access),
        })),
        Third::Flat => flat_line(access, sectors, t),
    }
}
