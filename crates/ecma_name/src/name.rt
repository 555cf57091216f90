//! Names: the text of a word, with its escapes.
ghost use Rattle.std.specs.Prelude.{◌≡◌, ◌++◌, true, length, map, option_map, encode_utf8_all, string_bytes, Ok, IfOk, IsOk, OnOk};
ghost use Rattle.std.specs.List.{prefix_len, take_while};
ghost use Rattle.ecma_place.specs.Atom.{AtomView};
ghost use Rattle.ecma_place.specs.Character.{is_ident_part, is_ident_start};
ghost use Rattle.ecma_place.specs.Cursor.{rest, place, passed};
ghost use Rattle.ecma_place.specs.Run.{is_in_class};
ghost use Rattle.ecma_place.specs.declared.run.ByteClass.TheVariants.{Part};
ghost use Rattle.ecma_token.specs.View.{error_view};
ghost use Rattle.ecma_grammar.specs.Found.{found_view, found_at, placeless, fault_view, fault_behind, error_behind, value_view};
ghost use Rattle.ecma_grammar.specs.Escapes.{InWord, escape, escape_spelling, escape_value, escape_refusal};
ghost use Rattle.ecma_escape.specs.EscapeMeanings.{opens_escape};
ghost use Rattle.ecma_escape.specs.PieceParts.{faults_from};
ghost use Rattle.ecma_name.specs.NameParts.{faults_in, is_named, named_faults, text_from, name_from, behind_pieces, cow_atom};
ghost use Rattle.ecma_grammar.specs.Words as words;

use ecma_escape::escape::{Meaning, Use, at_escape, error_of_refusal, push_value, read_escape};
use ecma_grammar::found::{Blame, Found, push_fault};
use ecma_place::{ByteClass, CharExt, Span, StringInput};
use ecma_token::{Error, SyntaxError};
use std::alloc::{AllocError, Global};
use std::borrow::CowStr;

/// Moves behind the ASCII part characters at the cursor, 32 bytes at a time.
#[inline(always)]
fn run_onward(input: &mut StringInput)
    ensures { input.new ≡ passed (prefix_len (is_in_class Part) (rest input.old)) input.old }
{
    if input.cur_as_ascii().is_some() {
        let run = input.run_bytes(ByteClass::Part);
        input.bump_bytes(run as usize);
    }
}

/// Moves behind the part characters at the cursor: those past ASCII one by one, and the runs between them at once.
#[tactic(auto, using(ecma_place::proofs::RunLemmas::runs))]
#[inline(never)]
fn pass_part_characters(input: &mut StringInput)
    ensures { input.new ≡ passed (prefix_len is_ident_part (rest input.old)) input.old }
{
    'chars: while let Some(c) = input.cur() {
        if !c.is_ident_part() {
            break;
        }
        input.bump();
        run_onward(input);
    }
}

/// Moves behind the part characters at the cursor, and returns their text.
#[tactic(auto, using(ecma_place::proofs::ClassLemmas::word_runs))]
#[inline(always)]
pub(crate) fn part_characters<'a>(input: &mut StringInput<'a>) -> &'a str
    ensures text { result.now ≡ encode_utf8_all (take_while is_ident_part (rest input.old)) }
    ensures moved { input.new ≡ passed (prefix_len is_ident_part (rest input.old)) input.old }
{
    let start = input.cur_pos();
    input.bump_bytes(input.run_bytes(ByteClass::Part) as usize);
    // Where an ASCII character ends the run, it is no part character.
    if input.cur_as_ascii().is_none() {
        pass_part_characters(input);
    }
    input.slice(start, input.cur_pos())
}

/// Whether what an escape means is a character that may be named here: a start character as the first of a word,
/// a part character later.
fn is_named(is_first: bool, answer: Meaning) -> bool
    ensures { result ≡ is_named is_first answer }
{
    match answer {
        Meaning::Character(c) => {
            if is_first {
                c.is_ident_start()
            } else {
                c.is_ident_part()
            }
        }
        _ => false,
    }
}

/// Adds the fault of an escape that lies there, if it names no character that may be named.
fn push_name_fault<'a>(
    alloc: Global,
    faults: &mut Vec<(Blame, Error<'a>)>,
    may_stand: bool,
    span: Span,
) -> Result<(), AllocError>
    ensures { OnOk result (map fault_view faults.new.items ≡ map fault_view faults.old.items
        ++ named_faults may_stand span.lo.0 span.hi.0) }
{
    if may_stand {
        return Ok(());
    }
    push_fault(
        alloc,
        faults,
        Blame::Always,
        span,
        SyntaxError::InvalidIdentChar,
    )
}

/// Moves behind the escape at the cursor. What it means is added to the text, and what is wrong with it to the
/// faults; it returns the error of one that is refused.
///
/// A backslash is at the cursor.
fn push_name_escape<'a>(
    alloc: Global,
    input: &mut StringInput<'a>,
    is_first: bool,
    text: &mut String,
    faults: &mut Vec<(Blame, Error<'a>)>,
) -> Result<Option<Error<'a>>, AllocError>
    requires { opens_escape (rest input.old) ≡ true }
    ensures refusal { IfOk result (λ r. option_map error_view r
        ≡ option_map (error_behind (place input.old)) (escape_refusal (escape InWord (rest input.old)))) }
    ensures text { OnOk result (string_bytes text.new ≡ string_bytes text.old ++ encode_utf8_all (escape_value (escape InWord (rest input.old)))) }
    ensures faults { OnOk result (map fault_view faults.new.items ≡ map fault_view faults.old.items
        ++ map (fault_behind (place input.old)) (faults_in (words.named_piece is_first (escape InWord (rest input.old))))) }
    ensures moved { OnOk result (input.new ≡ passed (length (escape_spelling (escape InWord (rest input.old)))) input.old) }
{
    let start = input.cur_pos();
    let answer = read_escape(input, Use::InWord);
    let end = input.cur_pos();
    if let Meaning::Refused(refusal) = answer {
        let error = error_of_refusal(alloc, refusal, Use::InWord, start, end)?;
        return Ok(Some(error));
    }
    push_value(text, answer, input.slice(start, end))?;
    push_name_fault(
        alloc,
        faults,
        is_named(is_first, answer),
        Span::new(start, end),
    )?;
    Ok(None)
}

/// Moves behind the pieces of a name at the cursor, and returns their text behind `before`, or the error of a refused
/// escape. No part character is at the cursor; `is_first` says that nothing of the name comes before it.
fn escaped_name<'a>(
    alloc: Global,
    input: &mut StringInput<'a>,
    is_first: bool,
    before: &str,
    faults: &mut Vec<(Blame, Error<'a>)>,
) -> Result<Result<String, Error<'a>>, AllocError>
    requires { prefix_len is_ident_part (rest input.old) ≡ 0 }
    ensures value { IfOk result (λ r. value_view string_bytes r ≡ text_from is_first before.now input.old) }
    ensures faults { OnOk result (map fault_view faults.new.items ≡ map fault_view faults.old.items
        ++ faults_from words.word_cutter is_first input.old) }
    ensures moved { OnOk result (input.new ≡ behind_pieces is_first input.old) }
{
    let mut text = String::from_str(alloc, before)?;
    let mut at_first = is_first;
    'pieces: while at_escape(input) {
        match push_name_escape(alloc, input, at_first, &mut text, faults)? {
            Some(error) => return Ok(Err(error)),
            None => {}
        }
        text.push_str(part_characters(input))?;
        at_first = false;
    }
    Ok(Ok(text))
}

/// Moves behind the name at the cursor, and returns its text: a slice where it holds no escape, which does not allocate.
fn name_text<'a>(
    alloc: Global,
    input: &mut StringInput<'a>,
    faults: &mut Vec<(Blame, Error<'a>)>,
) -> Result<Result<CowStr<'a>, Error<'a>>, AllocError>
    ensures value { IfOk result (λ r. value_view cow_atom r ≡ name_from input.old) }
    ensures faults { OnOk result (map fault_view faults.new.items ≡ map fault_view faults.old.items
        ++ faults_from words.word_cutter true input.old) }
    ensures moved { OnOk result (input.new ≡ behind_pieces true input.old) }
    ensures free { (text : AtomView) → name_from input.old ≡ Ok text → text.is_borrowed ≡ true → IsOk result }
{
    let plain = part_characters(input);
    if !at_escape(input) {
        return Ok(Ok(CowStr::Borrowed(plain)));
    }
    match escaped_name(alloc, input, plain.is_empty(), plain, faults)? {
        Ok(text) => Ok(Ok(CowStr::Owned(text))),
        Err(error) => Ok(Err(error)),
    }
}

/// Reads the name at the cursor (ECMA-262 IdentifierName, 12.7): part characters and escapes of code points, as many
/// as there are, which may be none.
///
/// The text is the unescaped one; it borrows from the source where the name holds no escape, which does not allocate.
pub fn read_name<'a>(
    alloc: Global,
    input: &mut StringInput<'a>,
) -> Result<Found<'a, CowStr<'a>>, AllocError>
    ensures found { IfOk result (λ f. found_view cow_atom f ≡
        found_at placeless (place input.old) (words.identifier_name (rest input.old))) }
    ensures moved { OnOk result (input.new ≡ passed (length (words.identifier_name (rest input.old)).spelling) input.old) }
    ensures free { (text : AtomView) → (words.identifier_name (rest input.old)).value ≡ Ok text → text.is_borrowed ≡ true → IsOk result }
{
    let start = input.cur_pos();
    let mut faults = Vec::new(alloc);
    let value = name_text(alloc, input, &mut faults)?;
    Ok(Found {
        value,
        faults,
        extent: Span::new(start, input.cur_pos()),
        line_break: false,
    })
}
