//! Shebangs.
ghost use Rattle.std.specs.Prelude.{◌≡◌, None, Some, length, drop, option_map, encode_utf8_all, if◌then◌else◌, IfOk, IsOk, OnOk};
ghost use Rattle.ecma_place.specs.Atom.{borrowed_atom};
ghost use Rattle.ecma_place.specs.Cursor.{rest, place, passed};
ghost use Rattle.ecma_token.specs.View.{token_view};
ghost use Rattle.ecma_grammar.specs.Found.{found_view, found_at, token_behind};
ghost use Rattle.ecma_grammar.specs.Fronts.{line};
ghost use Rattle.ecma_grammar.specs.Shebangs as shebangs;

use crate::punctuator::eat_two;
use ecma_grammar::found::Found;
use ecma_grammar::line::read_line;
use ecma_place::{Atom, Span, StringInput};
use ecma_token::Token;
use std::alloc::{AllocError, Global};

/// Moves behind the shebang at the cursor, if there is one.
fn shebang<'a>(input: &mut StringInput<'a>) -> Option<Token<'a>>
    ensures token { result ≡ (if shebangs.opens_shebang (rest input.old)
        then Some (Token.Shebang (borrowed_atom (encode_utf8_all (line (drop 2 (rest input.old)))))) else None) }
    ensures moved { input.new ≡ passed (length (shebangs.shebang (rest input.old)).spelling) input.old }
{
    if eat_two(input, b'#', b'!') {
        Some(Token::Shebang(Atom::from(read_line(input))))
    } else {
        None
    }
}

/// Reads the shebang at the cursor (ECMA-262 Hashbang Comment, 12.5), or nothing: `#!` and what follows it in its line.
///
/// Whether the cursor is at the start of the text is for the caller to ask. The text is what follows `#!`;
/// it borrows from the source, and nothing allocates.
pub fn scan_shebang<'a>(
    alloc: Global,
    input: &mut StringInput<'a>,
) -> Result<Found<'a, Option<Token<'a>>>, AllocError>
    ensures found { IfOk result (λ f. found_view (option_map token_view) f ≡
        found_at (λ n. option_map (token_behind n)) (place input.old) (shebangs.shebang (rest input.old))) }
    ensures moved { OnOk result
        (input.new ≡ passed (length (shebangs.shebang (rest input.old)).spelling) input.old) }
    ensures free { IsOk result }
{
    let start = input.cur_pos();
    let token = shebang(input);
    Ok(Found {
        value: Ok(token),
        faults: Vec::new(alloc),
        extent: Span::new(start, input.cur_pos()),
        line_break: false,
    })
}
