// The class of a byte.
ghost use Rattle.std.specs.Prelude.{◌≡◌, get_or};
ghost use Rattle.lexis.specs.Byte.{class_of};

#[derive(Clone, Copy, Debug, PartialEq, Eq, Hash)]
pub enum Class {
    Letter,
    Digit,
    Underscore,
    // A blank that ends no comment.
    Space,
    // LF, VT, FF or CR: a blank that ends a comment.
    LineEnd,
    // A byte of a mark or of `--`.
    Mark,
    Other,
    // 128 or more: refused everywhere.
    High,
}

pub fn class_of(byte: u8) -> Class
    ensures { result ≡ class_of byte }
{
    match byte {
        b'A'..=b'Z' | b'a'..=b'z' => Class::Letter,
        b'0'..=b'9' => Class::Digit,
        b'_' => Class::Underscore,
        10..=13 => Class::LineEnd,
        b'\t' | b' ' => Class::Space,
        b'('..=b')' | b','..=b'-' | b':'..=b'=' => Class::Mark,
        128..=255 => Class::High,
        _ => Class::Other,
    }
}

// The byte at i, or 0 past the end.
// Kept: no Option, since docs/PROMISES.md promises the byte or 0, and 0 is of no mark and no word.
pub fn byte_at(text: &[u8], i: usize) -> u8
    ensures { result ≡ get_or text.now i 0 }
{
    text.get(i).copied().unwrap_or(0)
}
