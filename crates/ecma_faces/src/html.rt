//! A text as HTML, which is written a piece at a time.
ghost use Rattle.std.specs.Prelude.{◌≡◌, ◌<◌, ◌^◌, ◌++◌, List, [], false, true, length, map, ℕ, IfOk, OnOk};
ghost use Rattle.std.specs.Str.{chars};
ghost use Rattle.ecma_classes.specs.Classes.{begin};
ghost use Rattle.ecma_looks.specs.Covered.{MayBeCovered};
ghost use Rattle.ecma_faults.specs.Faults.{view};
ghost use Rattle.ecma_html.specs.Marked.{AreInOrder};
ghost use Rattle.ecma_html.specs.Parts.{begin_of, end_of, left_html};
ghost use Rattle.ecma_faces.specs.Parts.{MovesPart};
ghost use Rattle.ecma_faces.specs.Whole as whole;
ghost use Rattle.ecma_faces.specs.Whole.{html_by, html_written};
ghost use Rattle.ecma_report.specs.Reports.{Adds, IsOf, Stays, look_of};
ghost use Rattle.ecma_report.specs.Rows.{Look, whole_part, whole_text};

use ecma_faults::Found;
use ecma_html::{Markup, push_begin, push_end};
use ecma_place::{BytePos, Spanned};
use ecma_reader::Gathered;
use ecma_report::report::{Report, Stop};
use std::alloc::{AllocError, Global};
use std::io::Write;

/// The places at which errors begin.
fn places_of(alloc: Global, found: &[Found]) -> Result<Vec<BytePos>, AllocError>
    ensures { IfOk result (λ v. v.items ≡ whole.places_of (map view found.now)) }
{
    let mut places = Vec::new(alloc);
    'found: for one in found {
        places.push(one.error.span().lo)?;
    }
    Ok(places)
}

/// Takes the next piece of the markup, adds its HTML to the report as a part of a text, and answers whether there was one.
/// `own` is room for the HTML of a piece that goes into a JSON object, and what it held before is lost.
fn push_piece(
    report: &mut Report,
    markup: &mut Markup,
    own: &mut Vec<u8>,
) -> Result<bool, AllocError>
    ensures added { AreInOrder markup.old.places → OnOk result (MovesPart (look_of report.old) report.old.out.items report.new.out.items markup.old markup.new) }
    ensures shorter { IfOk result (λ more. more ≡ true → length markup.new.pieces < length markup.old.pieces) }
    ensures ended { IfOk result (λ more. more ≡ false → left_html markup.old ≡ []) }
    ensures places { markup.new.places ≡ markup.old.places }
    ensures stays { Stays report.old report.new }
{
    if !report.asked.json {
        return markup.push_next(&mut report.out);
    }
    own.clear();
    let more = markup.push_next(own)?;
    report.push_part(own)?;
    Ok(more)
}

/// Writes the pieces that are left as parts of a text.
fn write_markup<W: Write>(report: &mut Report, markup: &mut Markup, out: &mut W) -> Result<(), Stop>
    ensures adds { AreInOrder markup.old.places
        → OnOk result (Adds (W.contents out.old) (W.contents out.new) report.old.out.items report.new.out.items (whole_part (look_of report.old) (left_html markup.old))) }
    ensures stays { OnOk result (Stays report.old report.new) }
{
    let mut own = Vec::new(report.alloc);
    'pieces: while push_piece(report, markup, &mut own)? {
        report.pass_on(out)?;
    }
    Ok(())
}

/// Adds what begins HTML, as a part of a text.
fn push_front(report: &mut Report) -> Result<(), AllocError>
    ensures added { OnOk result (report.new.out.items ≡ report.old.out.items ++ whole_part (look_of report.old) (begin_of report.old.asked.page report.old.name.now report.old.text.now)) }
    ensures stays { Stays report.old report.new }
{
    let mut front = Vec::new(report.alloc);
    push_begin(&mut front, report.asked.page, report.name, report.text)?;
    report.push_part(&front)
}

/// Adds what ends HTML, as a part of a text.
fn push_back(report: &mut Report) -> Result<(), AllocError>
    ensures added { OnOk result (report.new.out.items ≡ report.old.out.items ++ whole_part (look_of report.old) (end_of report.old.asked.page)) }
    ensures stays { Stays report.old report.new }
{
    let mut back = Vec::new(report.alloc);
    push_end(&mut back, report.asked.page)?;
    report.push_part(&back)
}

/// Writes the text as HTML, with errors at these places.
fn write_parts<W: Write>(
    report: &mut Report,
    gathered: &Gathered,
    places: &[BytePos],
    out: &mut W,
) -> Result<(), Stop>
    requires fits { length report.old.text.now < 2 ^ 32 }
    requires covered { MayBeCovered (begin 0 (chars report.old.text.now)) gathered.now.kept.items gathered.now.comments.items }
    ensures adds { (look : Look) (name text : List ℕ) → IsOf look name text report.old → AreInOrder places.now
        → OnOk result (Adds (W.contents out.old) (W.contents out.new) report.old.out.items report.new.out.items
        (whole_text look name (html_by look.asked.page name text gathered.now.kept.items gathered.now.comments.items places.now))) }
    ensures stays { OnOk result (Stays report.old report.new) }
{
    let kept = gathered.kept.as_slice();
    let comments = gathered.comments.as_slice();
    let mut markup = Markup::new(report.alloc, report.text, kept, comments, places)?;
    report.begin_whole()?;
    push_front(report)?;
    write_markup(report, &mut markup, out)?;
    push_back(report)?;
    report.end_whole()?;
    Ok(())
}

/// Writes the text as HTML, with these errors.
pub(crate) fn write_html<W: Write>(
    report: &mut Report,
    gathered: &Gathered,
    found: &[Found],
    out: &mut W,
) -> Result<(), Stop>
    requires fits { length report.old.text.now < 2 ^ 32 }
    requires covered { MayBeCovered (begin 0 (chars report.old.text.now)) gathered.now.kept.items gathered.now.comments.items }
    ensures adds { (look : Look) (name text : List ℕ) → IsOf look name text report.old → AreInOrder (whole.places_of (map view found.now))
        → OnOk result (Adds (W.contents out.old) (W.contents out.new) report.old.out.items report.new.out.items
        (html_written look name text gathered.now.kept.items gathered.now.comments.items (map view found.now))) }
    ensures stays { OnOk result (Stays report.old report.new) }
{
    let places = places_of(report.alloc, found)?;
    write_parts(report, gathered, &places, out)?;
    Ok(())
}
