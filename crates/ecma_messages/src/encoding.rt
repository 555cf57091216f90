//! What is wrong with bytes that are no text.
ghost use Rattle.std.specs.Prelude.{◌≡◌, IfSome, None};
ghost use Rattle.std.specs.Str.{IsUtf8, IsValidUpTo};
ghost use Rattle.ecma_messages.specs.Encoding as encodings;

/// Why bytes are no UTF-8.
#[derive(Clone, Copy, Debug, PartialEq, Eq)]
pub struct NotText {
    /// The place of the first byte that is in no character.
    pub place: usize,
    /// Whether a byte order mark of UTF-16 comes first.
    pub is_utf16: bool,
}

impl NotText {
    /// What is said of them, before the place.
    pub fn message(self) -> &'static str
        ensures { result.now ≡ encodings.message self }
    {
        if self.is_utf16 {
            "is UTF-16, not UTF-8, at the place"
        } else {
            "is not UTF-8 at the place"
        }
    }
}

/// Whether bytes begin with a byte order mark of UTF-16 (The Unicode Standard, 23.8).
fn begins_as_utf16(bytes: &[u8]) -> bool
    ensures { result ≡ encodings.begins_as_utf16 bytes.now }
{
    bytes.starts_with(b"\xff\xfe") || bytes.starts_with(b"\xfe\xff")
}

/// Why bytes are no UTF-8, and nothing where they are.
pub fn not_text(bytes: &[u8]) -> Option<NotText>
    ensures place { IfSome result (λ why. IsValidUpTo bytes.now why.place) }
    ensures utf16 { IfSome result (λ why. why.is_utf16 ≡ encodings.begins_as_utf16 bytes.now) }
    ensures text { result ≡ None → IsUtf8 bytes.now }
{
    match str::from_utf8(bytes) {
        Ok(_) => None,
        Err(error) => Some(NotText {
            place: error.valid_up_to(),
            is_utf16: begins_as_utf16(bytes),
        }),
    }
}
