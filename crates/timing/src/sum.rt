// A sum over answers: nothing is left out, and their order counts.
ghost use Rattle.std.specs.Prelude.{◌≡◌};
ghost use Rattle.timing.specs.Sum.{fold_of};

// The sum with one more value in it.
pub(crate) fn fold(sum: u64, value: u64) -> u64
    ensures { result ≡ fold_of sum value }
{
    sum.wrapping_mul(3).wrapping_add(value)
}
