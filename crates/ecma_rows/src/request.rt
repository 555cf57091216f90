//! Whether a text can be read as it is asked for.
ghost use Rattle.std.specs.Prelude.{◌≡◌, ◌<◌, ◌^◌, List, None, Ok, Err, Some, [], true, length, map, IfOk, IfSome, MatchResult};
ghost use Rattle.std.specs.Str.{IsUtf8};
ghost use Rattle.ecma_state.specs.declared.step.Step.{Step};
ghost use Rattle.ecma_reader.specs.Rereads.{is_in_order, rereads, rule_of};
ghost use Rattle.ecma_reader.specs.Readers.{IsReady, Shows};
ghost use Rattle.ecma_rows.specs.Asked as requests;
ghost use Rattle.ecma_rows.specs.Asked.{asked_view, judged, place_at};
ghost use Rattle.ecma_rows.specs.Told.{are_met};

use crate::bits::{is_by_flag, is_by_role, options_of_bits};
use crate::outcome::Status;
use ecma_options::Options;
use ecma_reader::{Reader, Slashes, ascend};
use ecma_span::BytePos;
use std::alloc::{AllocError, Global};

/// The longest text whose places all have a number.
const LONGEST: usize = 4_294_967_295;

/// A text, and how it is read.
#[derive(Clone, Copy)]
pub(crate) struct Asked<'a> {
    pub(crate) options: Options,
    pub(crate) slashes: Slashes<'a>,
    pub(crate) text: &'a str,
}

impl<'a> Asked<'a> {
    /// A reader of the text as it is asked for. `comments` says whether comments are collected.
    pub(crate) fn reader(self, alloc: Global, comments: bool) -> Result<Reader<'a>, AllocError>
        requires short { length self.text.now < 2 ^ 32 }
        requires in_order { is_in_order (rule_of self.slashes) ≡ true }
        ensures shows { IfOk result (Shows (rule_of self.entry.slashes) (requests.begin comments (asked_view self.entry)) []) }
        ensures ready { IfOk result (λ reader. IsReady reader) }
    {
        let settings = self.options.settings(comments);
        let context = self.options.context();
        Reader::new(
            alloc,
            &settings,
            context,
            self.text,
            BytePos(0),
            self.slashes,
        )
    }

    /// Whether each place that was named is that of a slash, where so many slashes were read again.
    pub(crate) fn is_met(self, count: usize) -> bool
        ensures { (steps : List Step) → count ≡ rereads steps → result ≡ are_met (rule_of self.entry.slashes) steps }
    {
        match self.slashes {
            Slashes::ByFlag | Slashes::ByRole => true,
            Slashes::At(places) => count == places.len(),
            Slashes::Numbered(numbers) => count == numbers.len(),
        }
    }
}

/// These numbers as places.
pub(crate) fn places(alloc: Global, numbers: &[u32]) -> Result<Vec<BytePos>, AllocError>
    ensures { IfOk result (λ v. v.items ≡ map place_at numbers.now) }
{
    let mut places = Vec::new(alloc);
    for number in numbers {
        places.push(BytePos(*number))?;
    }
    Ok(places)
}

/// Which slashes are read again: those that the flag says, or the tokens before, where one of them is to say and no places
/// are given, or those at places that ascend.
fn slashes_asked<'a>(by_flag: bool, by_role: bool, places: &'a [BytePos]) -> Option<Slashes<'a>>
    ensures rule { IfSome result (λ slashes. requests.rule_asked by_flag by_role places.now ≡ Some (rule_of slashes)) }
    ensures none { result ≡ None → requests.rule_asked by_flag by_role places.now ≡ None }
    ensures in_order { IfSome result (λ slashes. is_in_order (rule_of slashes) ≡ true) }
{
    match (by_flag, by_role) {
        (true, true) => None,
        (true, false) if places.is_empty() => Some(Slashes::ByFlag),
        (false, true) if places.is_empty() => Some(Slashes::ByRole),
        (false, false) if ascend(places) => Some(Slashes::At(places)),
        _ => None,
    }
}

/// Judges whether the bytes are UTF-8, then their number.
#[tactic(auto, using(crate::proofs::Judging::not_utf8, crate::proofs::Judging::too_long, crate::proofs::Judging::whole_text))]
fn judge_text<'a>(
    options: Options,
    slashes: Slashes<'a>,
    text: &'a [u8],
) -> Result<Asked<'a>, Status>
    ensures judged { MatchResult result
        (λ asked. requests.judged_text options (rule_of slashes.entry) text.now ≡ Ok (asked_view asked))
        (λ status. requests.judged_text options (rule_of slashes.entry) text.now ≡ Err status) }
    ensures short { IfOk result (λ asked. length asked.text.now < 2 ^ 32) }
    ensures is_text { IfOk result (λ asked. IsUtf8 asked.text.now) }
    ensures same { IfOk result (λ asked. rule_of asked.slashes ≡ rule_of slashes.entry) }
{
    let Ok(text) = str::from_utf8(text) else {
        return Err(Status::NotUtf8);
    };
    if text.len() > LONGEST {
        return Err(Status::TooLong);
    }
    Ok(Asked {
        options,
        slashes,
        text,
    })
}

/// Judges the options and the places, then whether the bytes are UTF-8, then their number.
///
/// # Errors
///
/// `Refused`, `NotUtf8`, `TooLong`, in this order.
pub(crate) fn judge<'a>(
    text: &'a [u8],
    bits: u32,
    places: &'a [BytePos],
) -> Result<Asked<'a>, Status>
    ensures judged { MatchResult result
        (λ asked. judged bits places.now text.now ≡ Ok (asked_view asked))
        (λ status. judged bits places.now text.now ≡ Err status) }
    ensures short { IfOk result (λ asked. length asked.text.now < 2 ^ 32) }
    ensures is_text { IfOk result (λ asked. IsUtf8 asked.text.now) }
    ensures in_order { IfOk result (λ asked. is_in_order (rule_of asked.slashes) ≡ true) }
{
    let Some(options) = options_of_bits(bits) else {
        return Err(Status::Refused);
    };
    let Some(slashes) = slashes_asked(is_by_flag(bits), is_by_role(bits), places) else {
        return Err(Status::Refused);
    };
    judge_text(options, slashes, text)
}
