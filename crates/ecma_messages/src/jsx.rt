//! Texts that look like JSX.
ghost use Rattle.std.specs.Prelude.{◌≡◌};
ghost use Rattle.ecma_messages.specs.Jsx as jsx;

/// Whether these bytes begin as what closes an element of JSX: `</`, and a letter or `>`.
fn closes_element(bytes: &[u8]) -> bool
    ensures { result ≡ jsx.closes_element bytes.now }
{
    match bytes {
        [b'<', b'/', next, ..] => *next == b'>' || next.is_ascii_alphabetic(),
        _ => false,
    }
}

/// Whether what closes an element of JSX stands in a text, by its bytes alone. A script may have that too, as in
/// `a </b/.c`, where it has no fault.
pub fn looks_like_jsx(text: &[u8]) -> bool
    ensures { result ≡ jsx.looks_like_jsx text.now }
{
    for place in 0..text.len() {
        if closes_element(&text[place..]) {
            return true;
        }
    }
    false
}
