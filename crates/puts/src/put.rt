// Writing into a lent buffer. What does not fit is left out, and counted all the same. `out` and `at` stay two parameters: the public
// functions' signatures have both.
ghost use Rattle.std.specs.Prelude.{[], ◌∷◌};
ghost use Rattle.puts.specs.Put.{Put};
ghost use Rattle.puts.specs.Decimal.{decimal_of};

// Puts a byte at a place, if there is room; the place after it.
#[tactic(auto, using(crate::proofs::Puts::bytes_put))]
pub fn put_byte(out: &mut [u8], at: usize, b: u8) -> usize
    ensures { Put out.old at (b ∷ []) result out.new }
{
    if at < out.len() {
        out[at] = b;
        return at + 1;
    }
    at.saturating_add(1)
}

// Puts bytes at a place, as far as there is room; the place after them.
#[tactic(auto, using(crate::proofs::Puts::joins, std::proofs::lemmas::Grind::take_at_read))]
pub fn put(out: &mut [u8], at: usize, s: &[u8]) -> usize
    ensures { Put out.old at s.now result out.new }
{
    let mut next = at;
    for b in s {
        next = put_byte(out, next, *b);
    }
    next
}

// Puts a number in decimal digits at a place; the place after it. Not by `write!`, which promises its bytes only where it answers `Ok`, and
// not when it does.
#[tactic(auto, using(crate::proofs::Puts::joins, crate::proofs::Decimals::decimals))]
pub fn put_decimal(out: &mut [u8], at: usize, n: u64) -> usize
    ensures { Put out.old at (decimal_of n) result out.new }
{
    // A digit fits a byte: `u8::try_from` would bring an error that no number has.
    let digit = 0x30 + (n % 10) as u8;
    if n < 10 {
        return put_byte(out, at, digit);
    }
    let next = put_decimal(out, at, n / 10);
    put_byte(out, next, digit)
}
