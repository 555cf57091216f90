//! The places among those that were named that are no slash's.
ghost use Rattle.std.specs.Prelude.{◌≡◌, ◌++◌, ◌<◌, ◌==◌, ◌^◌, ◌||◌, Bool, List, [], false, length, option_map, true, ℕ, IfOk, IsOk, OnOk};
ghost use Rattle.ecma_span.specs.declared.place.BytePos.{BytePos as Place};
ghost use Rattle.ecma_token.specs.View.{SpannedView, spanned_view};
ghost use Rattle.ecma_state.specs.Session.{Session};
ghost use Rattle.ecma_reader.specs.Rereads.{SlashRule, ascend};
ghost use Rattle.ecma_reader.specs.Readers.{IsReady, Shows, tokens_by, tokens_found};
ghost use Rattle.ecma_report.specs.FaultLines.{OfUnmet};
ghost use Rattle.ecma_report.specs.Reports.{IsStill, look_of};
ghost use Rattle.ecma_report.specs.Unmet as unmet;
ghost use Rattle.ecma_report.specs.Unmet.{AreMarked};

use crate::report::Report;
use crate::slashes::open;
use ecma_command::words::Named;
use ecma_messages::push_name;
use ecma_reader::{Reader, ascend};
use ecma_slot::Slot;
use ecma_span::BytePos;
use ecma_stdio::push_number;
use ecma_token::{Token, TokenAndSpan};
use std::alloc::{AllocError, Global};

/// Whether a slash stands at a place of a text.
fn is_slash(text: &str, place: BytePos) -> bool
    ensures { result ≡ unmet.is_slash text.now place }
{
    let at = place.0 as usize;
    at < text.len() && text.as_bytes()[at] == b'/'
}

/// Whether a token begins with a slash. One with which template text begins is part of that.
fn begins_with_slash(text: &str, token: &TokenAndSpan) -> bool
    ensures { result ≡ unmet.begins_with_slash text.now (spanned_view token.now) }
{
    is_slash(text, token.span.lo) && !matches!(token.token, Token::Template { .. })
}

/// A place that was named, and whether a token was read that begins with a slash there.
#[derive(Clone, Copy)]
struct NamedPlace {
    place: BytePos,
    has_slash: bool,
}

/// Each of the places, before a token is read.
fn unmarked(alloc: Global, places: &[BytePos]) -> Result<Vec<NamedPlace>, AllocError>
    ensures { IfOk result (λ marked. marked.items ≡ unmet.named_places (λ p. false) places.now) }
{
    let mut marked = Vec::with_capacity(alloc, places.len())?;
    for place in places {
        marked.push(NamedPlace {
            place: *place,
            has_slash: false,
        })?;
    }
    Ok(marked)
}

/// Marks the place, where it is one of these.
fn mark(places: &[BytePos], marked: &mut [NamedPlace], place: BytePos)
    requires in_order { ascend places.now ≡ true }
    requires as_many { length marked.old ≡ length places.now }
    ensures marked { (has_slash : Place → Bool) → marked.old ≡ unmet.named_places has_slash places.now
        → marked.new ≡ unmet.named_places (λ p. has_slash p || (p.0 == place.0)) places.now }
    ensures as_many { length marked.new ≡ length marked.old }
{
    if let Ok(i) = places.binary_search(&place) {
        marked[i] = NamedPlace {
            place,
            has_slash: true,
        };
    }
}

/// Marks the place of the token that was read, where it begins with a slash there.
fn mark_token(
    text: &str,
    places: &[BytePos],
    marked: &mut [NamedPlace],
    slot: &Option<TokenAndSpan>,
)
    requires in_order { ascend places.now ≡ true }
    requires as_many { length marked.old ≡ length places.now }
    ensures marked { (tokens : List SpannedView) → AreMarked text.now places.now marked.old tokens
        → AreMarked text.now places.now marked.new (tokens ++ tokens_found (option_map spanned_view slot.now)) }
    ensures as_many { length marked.new ≡ length marked.old }
{
    let Some(token) = slot else {
        return;
    };
    if begins_with_slash(text, token) {
        mark(places, marked, token.span.lo);
    }
}

/// Reads to the end, and marks each place where a token begins with a slash.
fn mark_slashes(
    text: &str,
    places: &[BytePos],
    marked: &mut [NamedPlace],
    reader: &mut Reader,
) -> Result<(), AllocError>
    requires ready { IsReady reader.old }
    requires in_order { ascend places.now ≡ true }
    requires none { marked.old ≡ unmet.named_places (λ p. false) places.now }
    ensures marked { (rule : SlashRule) (begin : Session) → Shows rule begin [] reader.old
        → OnOk result (AreMarked text.now places.now marked.new (tokens_by rule begin)) }
    ensures as_many { length marked.new ≡ length marked.old }
{
    let mut slot = Slot::new();
    'tokens: while reader.read_into(&mut slot.token)? {
        mark_token(text, places, marked, &slot.token);
    }
    Ok(())
}

/// Reads to the end, and gives each place with whether a token begins with a slash there.
fn marked_places(
    report: &Report,
    places: &[BytePos],
    reader: &mut Reader,
) -> Result<Vec<NamedPlace>, AllocError>
    requires ready { IsReady reader.old }
    requires in_order { ascend places.now ≡ true }
    ensures { (rule : SlashRule) (begin : Session) → Shows rule begin [] reader.old
        → IfOk result (λ marked. AreMarked report.now.text.now places.now marked.items (tokens_by rule begin)) }
{
    let mut marked = unmarked(report.alloc, places)?;
    mark_slashes(report.text, places, &mut marked, reader)?;
    Ok(marked)
}

/// Adds the line that tells of a place that is no slash's.
fn push_unmet(lines: &mut Vec<u8>, name: &str, place: BytePos) -> Result<(), AllocError>
    ensures { OnOk result (lines.new.items ≡ lines.old.items ++ unmet.unmet_line name.now place) }
{
    push_name(lines, name)?;
    lines.extend_from_slice(b": no slash is read at the place ")?;
    push_number(lines, place.0 as usize)?;
    lines.push(b'\n')?;
    Ok(())
}

/// Adds that line, unless a token begins with a slash there.
fn push_unless_slash(lines: &mut Vec<u8>, name: &str, marked: NamedPlace) -> Result<(), AllocError>
    ensures { OnOk result (lines.new.items ≡ lines.old.items ++ unmet.line_unless_slash name.now marked) }
{
    if marked.has_slash {
        return Ok(());
    }
    push_unmet(lines, name, marked.place)
}

/// The lines that tell of the places that are no slash's.
fn unmet_lines(report: &Report, places: &[NamedPlace]) -> Result<Vec<u8>, AllocError>
    ensures { IfOk result (λ lines. lines.items ≡ unmet.unmet_lines report.now.name.now places.now) }
{
    let mut lines = Vec::new(report.alloc);
    for place in places {
        push_unless_slash(&mut lines, report.name, *place)?;
    }
    Ok(lines)
}

/// Tells of the places that were named and are not that of a token that begins with a slash, where so many slashes were read
/// again, and nothing where the places do not ascend. The text is read once more where places were named and another number of
/// slashes was read again. The lines come before all other faults.
///
/// # Errors
///
/// `AllocError` where allocation fails in a read or for a line.
pub fn tell_unmet<'a>(
    report: &mut Report<'a>,
    named: Named<'a>,
    rereads: usize,
) -> Result<(), AllocError>
    requires { length report.old.text.now < 2 ^ 32 }
    ensures out { report.new.out ≡ report.old.out }
    ensures lines { OnOk result (OfUnmet (unmet.unmet_told named.entry (look_of report.old) report.old.name.now report.old.text.now rereads) false report.old report.new) }
    ensures none { named.entry.places.now ≡ [] → IsOk result × (report.new ≡ report.old) }
    ensures met { rereads ≡ length named.entry.places.now → IsOk result × (report.new ≡ report.old) }
    ensures unordered { ascend named.entry.places.now ≡ false → IsOk result × (report.new ≡ report.old) }
    ensures still { IsStill report.old report.new }
{
    let places = named.places;
    if places.is_empty() || rereads == places.len() || !ascend(places) {
        return Ok(());
    }
    let mut reader = open(report, named, false)?;
    let marked = marked_places(report, places, &mut reader)?;
    let mut lines = unmet_lines(report, &marked)?;
    report.is_faulty = report.is_faulty || !lines.is_empty();
    lines.extend_from_slice(&report.faults)?;
    report.faults = lines;
    Ok(())
}
