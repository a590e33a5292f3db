// Numbers in decimal digits.
ghost use Rattle.std.specs.Prelude.{◌≡◌, ◌+◌, ◌-◌, ◌*◌, None};
ghost use Rattle.text.specs.Ranges.{pick};
ghost use Rattle.text.specs.Number.{digit, up_to, digits_of, number_of};

// The number with a digit more, if the byte is one and the number is at most limit. (By hand: std's `parse` takes no limit, and no bytes that may not be UTF-8.)
fn with_digit(v: u64, b: u8, limit: u64) -> Option<u64>
    ensures { result ≡ pick (digit b) (up_to limit (v * 10 + (b - 0x30))) None }
{
    let d = match b {
        b'0'..=b'9' => u64::from(b - b'0'),
        _ => return None,
    };
    if limit.checked_sub(d)? / 10 < v {
        return None;
    }
    Some(v * 10 + d)
}

// The number that digits are, if it is at most limit.
#[tactic(auto, using(crate::proofs::Numbers::digits))]
fn digits(t: &[u8], limit: u64) -> Option<u64>
    ensures { result ≡ digits_of limit t.now }
{
    if t.is_empty() {
        return None;
    }
    let mut v = 0;
    for b in t {
        v = with_digit(v, *b, limit)?;
    }
    Some(v)
}

// The number that a text is, past its sign if it has one, if it is at most limit.
#[tactic(auto, using(crate::proofs::Numbers::number_by))]
pub fn number(t: &[u8], limit: u64) -> Option<u64>
    ensures { result ≡ number_of limit t.now }
{
    match t {
        [b'+', unsigned @ ..] => digits(unsigned, limit),
        _ => digits(t, limit),
    }
}
