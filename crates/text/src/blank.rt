// The blanks: the code points with the White_Space property.
ghost use Rattle.std.specs.Prelude.{◌≡◌};
ghost use Rattle.text.specs.Blank.{blank};

// Whether a code point is a blank.
pub fn is_blank(code: u32) -> bool
    ensures { result ≡ blank code }
{
    matches!(
        code,
        0x20 | 0x09..=0x0D | 0x85 | 0xA0 | 0x1680
            | 0x2000..=0x200A | 0x2028..=0x2029 | 0x202F | 0x205F | 0x3000
    )
}
