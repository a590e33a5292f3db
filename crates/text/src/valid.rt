// Whether a text is UTF-8, with runs of bytes below 80 passed over in blocks. (`t` and `at` stay two, and a place within the text a clause, here and in words.rt: the promises speak of `char_at t at`, and a struct of them would be no plainer.)
ghost use Rattle.std.specs.Prelude.{◌≡◌, ◌<◌, Some, true, length};
ghost use Rattle.text.specs.inside.Blocks.{width_in};
ghost use Rattle.text.specs.Utf8.{char_at};
ghost use Rattle.text.specs.Text.{sound, text_at};

use crate::blocks::past_run;
use crate::utf8::{Char, next_char, trails};

// Whether a character of two bytes stands at a place. (The place is within the text, so that the subtraction fits, here and below. By a pattern, `[0xC2..=0xDF, 0x80..=0xBF, ..]`, the proof did not close.)
#[tactic(auto, using(crate::proofs::Passes::multis))]
fn pair_at(t: &[u8], at: usize) -> bool
    requires { at < length t.now }
    ensures { result ≡ true → width_in (char_at t.now at) ≡ Some 2 }
{
    if t.len() - at < 2 {
        return false;
    }
    matches!(t[at], 0xC2..=0xDF) & trails(t[at + 1])
}

// Whether a character of three bytes stands at a place: two bytes 80 to BF, of which the first is A0 or above after E0, and 9F or below after ED.
#[tactic(auto, using(crate::proofs::Passes::multis))]
fn triple_at(t: &[u8], at: usize) -> bool
    requires { at < length t.now }
    ensures { result ≡ true → width_in (char_at t.now at) ≡ Some 3 }
{
    if t.len() - at < 3 {
        return false;
    }
    let b = t[at];
    let x = t[at + 1];
    let least = (b != 0xE0) | (0xA0 <= x);
    let most = (b != 0xED) | (x <= 0x9F);
    matches!(b, 0xE0..=0xEF) & trails(x) & trails(t[at + 2]) & least & most
}

// How many bytes the character at a place has, if there is one.
#[tactic(auto, using(crate::proofs::Passes::widths))]
fn width_at(t: &[u8], at: usize) -> Option<usize>
    requires { at < length t.now }
    ensures { result ≡ width_in (char_at t.now at) }
{
    if t[at] < 0xE0 {
        if pair_at(t, at) {
            return Some(2);
        }
    } else if triple_at(t, at) {
        return Some(3);
    }
    match next_char(&t[at..], 0) {
        Char::Scalar(_, width) => Some(width),
        Char::Bad | Char::End => None,
    }
}

// Whether a text is UTF-8. A step is a run of blocks or a character, so the loop goes by the place.
#[tactic(auto, using(crate::proofs::Passes::valids))]
pub(crate) fn valid(t: &[u8]) -> bool
    ensures { result ≡ sound (text_at t.now 0) }
{
    let mut at = 0;
    while at < t.len() {
        if t[at] < 0x80 {
            at += 1 + past_run(&t[at + 1..], |x| x < 0x80);
            continue;
        }
        let Some(width) = width_at(t, at) else {
            return false;
        };
        at += width;
    }
    true
}
