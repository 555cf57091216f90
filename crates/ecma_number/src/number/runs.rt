//! Runs of digits and separators.
ghost use Rattle.std.specs.Prelude.{◌≡◌, ◌≤◌, length};
ghost use Rattle.std.specs.List.{list_any};
ghost use Rattle.ecma_place.specs.Cursor.{rest, passed};
ghost use Rattle.ecma_grammar.specs.Numbers as numbers;

use ecma_place::StringInput;
use ecma_token::Radix;

/// How many digits the radix has.
pub(super) fn base(radix: Radix) -> u32
    ensures value { result ≡ numbers.base radix }
    ensures low { 2 ≤ result }
    ensures high { result ≤ 16 }
{
    match radix {
        Radix::Binary => 2,
        Radix::Octal => 8,
        Radix::Decimal => 10,
        Radix::Hex => 16,
    }
}

/// Whether the character is a digit of the radix.
pub(super) fn is_digit(c: char, radix: Radix) -> bool
    ensures { result ≡ numbers.digit radix c }
{
    c.is_digit(base(radix))
}

/// Whether the character is one of a run: a digit of the radix or a separator.
fn is_in_run(c: char, radix: Radix) -> bool
    ensures { result ≡ numbers.in_run radix c }
{
    is_digit(c, radix) || c == '_'
}

/// Moves behind the run at the cursor, as many characters as there are, and returns its text.
#[tactic(auto, using(ecma_place::proofs::RunLemmas::runs, ecma_grammar::proofs::RunReading::run_reading))]
pub(super) fn read_run<'a>(input: &mut StringInput<'a>, radix: Radix) -> &'a str
    ensures text { result.now ≡ numbers.run_of radix (rest input.old) }
    ensures moved { input.new ≡ passed (length (numbers.run_of radix (rest input.old))) input.old }
{
    let start = input.cur_pos();
    'chars: while let Some(c) = input.cur() {
        if !is_in_run(c, radix) {
            break;
        }
        input.bump();
    }
    input.slice(start, input.cur_pos())
}

/// Whether a digit of the radix is in the run.
pub(super) fn has_digit(run: &str, radix: Radix) -> bool
    ensures { result ≡ list_any (numbers.digit radix) run.now }
{
    let mut has = false;
    'bytes: for b in run.as_bytes() {
        has |= is_digit(*b as char, radix);
    }
    has
}
