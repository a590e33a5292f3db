// Passing over the bytes at the start of a text that all pass a test, in blocks of 16, and in blocks of 8 where a text is shorter.
ghost use Rattle.std.specs.Prelude.{◌≡◌, ◌≤◌, true, length};
ghost use Rattle.text.specs.inside.Blocks.{Passing};

// Whether each byte of a block passes. The loop has no way out before the end, so that the bytes are tested side by side.
fn all_pass<F: Fn(u8) -> bool, const N: usize>(block: &[u8; N], passes: &F) -> bool
    requires { F.IsAlwaysCallable passes.now }
    ensures { result ≡ true → Passing (F.post passes.now) N block.now }
{
    let mut all = true;
    for b in block {
        all &= passes(*b);
    }
    all
}

// How many bytes pass, one after the other.
fn passing<F: Fn(u8) -> bool>(t: &[u8], passes: &F) -> usize
    requires { F.IsAlwaysCallable passes.now }
    ensures inside { result ≤ length t.now }
    ensures passed { Passing (F.post passes.now) result t.now }
{
    for (i, b) in t.iter().enumerate() {
        if !passes(*b) {
            return i;
        }
    }
    t.len()
}

// Up to where the bytes of a text of at most 16 pass: all of it, by two blocks of 8 that may overlap, or byte by byte.
fn past_short<F: Fn(u8) -> bool>(t: &[u8], passes: &F) -> usize
    requires callable { F.IsAlwaysCallable passes.now }
    requires short { length t.now ≤ 16 }
    ensures inside { result ≤ length t.now }
    ensures passed { Passing (F.post passes.now) result t.now }
{
    let Some(first) = t.first_chunk::<8>() else {
        return passing(t, passes);
    };
    // There is one of these where there is one of those.
    let Some(last) = t.last_chunk::<8>() else {
        return 0;
    };
    if all_pass(first, passes) & all_pass(last, passes) {
        return t.len();
    }
    passing(t, passes)
}

// Up to where the bytes are known to pass: past blocks that do, the last of which may overlap the one before it.
pub(crate) fn past_blocks<F: Fn(u8) -> bool>(t: &[u8], passes: F) -> usize
    requires { F.IsAlwaysCallable passes }
    ensures inside { result ≤ length t.now }
    ensures passed { Passing (F.post passes) result t.now }
{
    let (blocks, _) = t.as_chunks::<16>();
    for (i, block) in blocks.iter().enumerate() {
        if !all_pass(block, &passes) {
            return i * 16;
        }
    }
    match t.last_chunk::<16>() {
        Some(block) if all_pass(block, &passes) => t.len(),
        _ => blocks.len() * 16,
    }
}

// The same, and of a text that is shorter than a block as far as its bytes pass.
pub(crate) fn past_run<F: Fn(u8) -> bool>(t: &[u8], passes: F) -> usize
    requires { F.IsAlwaysCallable passes }
    ensures inside { result ≤ length t.now }
    ensures passed { Passing (F.post passes) result t.now }
{
    if t.len() < 16 {
        return past_short(t, &passes);
    }
    past_blocks(t, passes)
}
