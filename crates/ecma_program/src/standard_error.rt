//! What the program says of itself beside what it writes.
ghost use Rattle.std.specs.Prelude.{◌≡◌};
ghost use Rattle.ecma_program.specs.Explanation as explanations;

/// The line for standard error behind an exit status of [`run`](crate::run): that a read or a write failed behind 1, which
/// words there are behind 2, and nothing behind another. Our own.
pub fn explanation(status: u8) -> &'static [u8]
    ensures { result.now ≡ explanations.explanation status }
{
    match status {
        1 => b"ecma_lex: a read or a write failed\n",
        2 =>
            b"ecma_lex: the words are tokens, errors, comments, canon or classes, then any of ts, module, strict, standard and reread N, where the Nth token is a slash\n",
        _ => b"",
    }
}
