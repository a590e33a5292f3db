// Trimming a text at both ends, and its words: the runs between blanks. (A text and a place in it stay two parameters, as the public functions and `word_of` have them. What stands between two places is answered as the places: `trim_of` and `word_of`, which the promises name, are pairs, and `lines` keeps the places.)
ghost use Rattle.std.specs.Prelude.{◌≡◌, ◌-◌, ◌≤◌, ◌<◌, true, length};
ghost use Rattle.text.specs.inside.Blocks.{back_to, blank_in};
ghost use Rattle.text.specs.Utf8.{char_at};
ghost use Rattle.text.specs.Text.{alike, text_at, sound, last_end, trim_of, trimmed, run_of, word_of};

use crate::blank::is_blank;
use crate::utf8::{Char, next_char, trails};
use crate::valid::valid;

// Where the character that ends at a place starts: before the bytes 80 to BF that stand there. (By `rposition` the proof did not close.)
#[tactic(auto, using(crate::proofs::Ends::backs))]
fn start_of(t: &[u8], end: usize) -> usize
    requires { (0 < end) × (end ≤ length t.now) }
    ensures { result ≡ back_to t.now (end - 1) }
{
    let mut at = end - 1;
    while 0 < at && trails(t[at]) {
        at -= 1;
    }
    at
}

// Whether a blank stands at a place, which is within the text (a clause, as in valid.rt).
#[tactic(auto, using(crate::proofs::Ends::blanks))]
fn blank_at(t: &[u8], at: usize) -> bool
    requires { at < length t.now }
    ensures { result ≡ blank_in (char_at t.now at) }
{
    let b = t[at];
    if b < 0x80 {
        return is_blank(u32::from(b));
    }
    match next_char(&t[at..], 0) {
        Char::Scalar(code, _) => is_blank(code),
        Char::Bad | Char::End => false,
    }
}

// Where the last character that is not blank ends, or 0 where there is none, as in `last_end` of specs/. A step back is as wide as its character, so the loop goes by the place.
#[tactic(auto, using(crate::proofs::Ends::lasts))]
fn last_end(t: &[u8]) -> usize
    requires { sound (text_at t.now 0) ≡ true }
    ensures { result ≡ last_end 0 (text_at t.now 0) }
{
    let mut end = t.len();
    while 0 < end {
        let at = start_of(t, end);
        if !blank_at(t, at) {
            return end;
        }
        end = at;
    }
    end
}

// Where a text without the blanks at both ends starts and where it ends, if the text is UTF-8.
#[tactic(auto, using(crate::proofs::Trims::trims))]
pub fn trim(t: &[u8]) -> Option<(usize, usize)>
    ensures { result ≡ trim_of t.now }
{
    if !valid(t) {
        return None;
    }
    let a = run_end(t, 0, true);
    if t.len() <= a {
        return Some((0, 0));
    }
    Some((a, last_end(t)))
}

// A text without the blanks at both ends, as a part of it; empty where the text is no UTF-8.
#[tactic(auto, using(crate::proofs::Bounds::inners))]
pub fn inner(t: &[u8]) -> &[u8]
    ensures { result.now ≡ trimmed t.now }
{
    match trim(t) {
        Some((a, e)) => &t[a..e],
        None => &[],
    }
}

// Past the spaces that start at a place, where blanks are wanted: most blanks are spaces, and `is_blank` tests the controls before them. (By the place, as in `run_end`, whose flag it has.)
#[tactic(auto, using(crate::proofs::Runs::runs))]
fn past_spaces(t: &[u8], from: usize, wanted: bool) -> usize
    ensures { run_of wanted t.now from ≡ run_of wanted t.now result }
{
    let mut at = from;
    while wanted && at < t.len() && t[at] == b' ' {
        at += 1;
    }
    at
}

// Where the blanks that start at a place end, or, if they are not wanted, the characters that are not blank. A step is as wide as its character, so the loop goes by the place. (The flag is that of `run_of`, which the contract names.)
#[tactic(auto, using(crate::proofs::Runs::runs))]
pub fn run_end(t: &[u8], from: usize, wanted: bool) -> usize
    ensures { result ≡ run_of wanted t.now from }
{
    let mut at = past_spaces(t, from, wanted);
    while at < t.len() {
        let b = t[at];
        if b < 0x80 {
            if is_blank(u32::from(b)) == wanted {
                at += 1;
                continue;
            }
            return at;
        }
        match next_char(&t[at..], 0) {
            Char::Scalar(code, width) => {
                if is_blank(code) == wanted {
                    at += width;
                    continue;
                }
                return at;
            }
            Char::Bad => return at,
            Char::End => return at,
        }
    }
    at
}

// Where the next word at or after a place starts and where it ends, if there is one.
#[tactic(auto, unfolding(crate::specs::Text::word_of))]
pub fn next_word(t: &[u8], from: usize) -> Option<(usize, usize)>
    ensures { result ≡ word_of t.now from }
{
    let a = run_end(t, from, true);
    let e = run_end(t, a, false);
    if a == e {
        return None;
    }
    Some((a, e))
}
