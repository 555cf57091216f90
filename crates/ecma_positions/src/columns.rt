//! What columns count.
ghost use Rattle.std.specs.Prelude.{◌≡◌, List, length, flat_map, ℕ};
ghost use Rattle.std.specs.Char.{encode_utf8};
ghost use Rattle.std.specs.Char.Escape.{encode_utf16};
ghost use Rattle.ecma_positions.specs.Units as units;

/// What the columns of a line count.
#[derive(Clone, Copy, Debug, PartialEq, Eq)]
pub enum Columns {
    Bytes,
    /// Units of UTF-16, of which a character beyond U+FFFF has two.
    Utf16,
}

/// How many units the character has that begins with this byte of a text in UTF-8, and none where the byte goes on with one that
/// began before.
fn utf16_byte(byte: u8) -> usize
    ensures { result ≡ units.utf16_byte byte }
{
    match byte {
        0..=127 => 1,
        128..=191 => 0,
        192..=239 => 1,
        _ => 2,
    }
}

/// How many units of UTF-16 a text with these bytes has.
pub fn utf16_length(bytes: &[u8]) -> usize
    ensures { result ≡ units.utf16_length bytes.now }
{
    let mut units = 0;
    for byte in bytes {
        units += utf16_byte(*byte);
    }
    units
}

/// As many units are counted as std writes for the characters.
pub fn units_are_of_utf16()
    ensures { (text : List ℕ) → units.utf16_length (flat_map encode_utf8 text) ≡ length (flat_map encode_utf16 text) }
{}
