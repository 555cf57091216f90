//! What is told of a text by all of its tokens: the pieces, the text as HTML, and as a terminal shows it.
ghost use Rattle.std.specs.Prelude.{◌≡◌, ◌++◌, ◌∷◌, ◌<◌, ◌^◌, [], List, false, length, map, true, ℕ, IfOk, OnOk};
ghost use Rattle.std.specs.Str.{chars};
ghost use Rattle.ecma_classes.specs.Classes.{begin, classes_of};
ghost use Rattle.ecma_looks.specs.Covered.{MayBeCovered};
ghost use Rattle.ecma_faults.specs.Faults.{view};
ghost use Rattle.ecma_html.specs.Marked.{AreInOrder};
ghost use Rattle.ecma_looks.specs.Shown.{IsShown};
ghost use Rattle.ecma_faces.specs.Pieces as rows;
ghost use Rattle.ecma_faces.specs.Pieces.{piece_rows, pieces_by};
ghost use Rattle.ecma_faces.specs.Whole as whole_specs;
ghost use Rattle.ecma_faces.specs.Whole.{OfHtml, OfLines, OfShown, errors_told, html_written, shown_head};
ghost use Rattle.ecma_report.specs.FaultLines.{OfFaults, OfUnmet, has_fault, tells_faults};
ghost use Rattle.ecma_report.specs.Runs.{read_to};
ghost use Rattle.ecma_report.specs.Reports.{Adds, IsOf, Stays, look_of};
ghost use Rattle.ecma_report.specs.Rows.{Look};
ghost use Rattle.ecma_report.specs.Unmet.{unmet_by};
ghost use Rattle.ecma_messages.specs.Visible.{name_text};
ghost use Rattle.ecma_command.specs.declared.words.Face.TheVariants as face;

use crate::html::write_html;
use ecma_classes::{Cover, Piece};
use ecma_command::words::{Face, Named};
use ecma_faults::{Found, in_order};
use ecma_looks::show_text;
use ecma_messages::push_name;
use ecma_names::piece_name;
use ecma_reader::{Gathered, ReadOut, read_out};
use ecma_report::faults::tell_found;
use ecma_report::report::{More, Report, Row, Stop};
use ecma_report::slashes::{START, slashes_at};
use ecma_report::unmet::tell_unmet;
use std::alloc::{AllocError, Global};
use std::io::Write;

/// Adds the row of a piece.
fn push_piece(report: &mut Report, piece: Piece) -> Result<(), AllocError>
    ensures added { (look : Look) (name text : List ℕ) → IsOf look name text report.old
        → OnOk result (report.new.out.items ≡ report.old.out.items ++ rows.piece_row look name text piece) }
    ensures stays { Stays report.old report.new }
{
    let text = report.at(piece.span);
    report.push_row(Row {
        kind: piece_name(piece.class),
        span: piece.span,
        more: More::Nothing,
        text,
    })
}

/// Writes the rows of pieces.
fn push_pieces<W: Write>(report: &mut Report, cover: &mut Cover, out: &mut W) -> Result<(), Stop>
    ensures adds { (look : Look) (name text : List ℕ) → IsOf look name text report.old
        → OnOk result (Adds (W.contents out.old) (W.contents out.new) report.old.out.items report.new.out.items (piece_rows look name text cover.old)) }
    ensures stays { OnOk result (Stays report.old report.new) }
{
    'pieces: while let Some(piece) = cover.next() {
        push_piece(report, piece)?;
        report.pass_on(out)?;
    }
    Ok(())
}

fn write_pieces<W: Write>(report: &mut Report, gathered: &Gathered, out: &mut W) -> Result<(), Stop>
    requires fits { length report.old.text.now < 2 ^ 32 }
    requires covered { MayBeCovered (begin 0 (chars report.old.text.now)) gathered.now.kept.items gathered.now.comments.items }
    ensures adds { (look : Look) (name text : List ℕ) → IsOf look name text report.old
        → OnOk result (Adds (W.contents out.old) (W.contents out.new) report.old.out.items report.new.out.items
        (piece_rows look name text (classes_of 0 (length text) gathered.now.kept.items gathered.now.comments.items))) }
    ensures stays { OnOk result (Stays report.old report.new) }
{
    let kept = gathered.kept.as_slice();
    let comments = gathered.comments.as_slice();
    let mut cover = Cover::new(report.alloc, report.text, START, kept, comments)?;
    push_pieces(report, &mut cover, out)?;
    Ok(())
}

/// The name of a file, as messages have it, in a line of its own.
fn name_line(alloc: Global, name: &str) -> Result<Vec<u8>, AllocError>
    ensures { IfOk result (λ line. line.items ≡ name_text name.now ++ 58 ∷ 10 ∷ []) }
{
    let mut line = Vec::new(alloc);
    push_name(&mut line, name)?;
    line.extend_from_slice(b":\n")?;
    Ok(line)
}

/// Writes the name of the file in a line of its own, where lines name their file.
fn write_shown_head<W: Write>(report: &mut Report, out: &mut W) -> Result<(), Stop>
    ensures adds { OnOk result (Adds (W.contents out.old) (W.contents out.new) report.old.out.items report.new.out.items (shown_head (look_of report.old) report.old.name.now)) }
    ensures stays { Stays report.old report.new }
{
    if report.among.names && !report.asked.json {
        let line = name_line(report.alloc, report.name)?;
        report.write_behind(&line, out)?;
    }
    Ok(())
}

/// The text as a terminal shows it, with these errors below their lines.
fn lines_shown(report: &Report, gathered: &Gathered, found: &[Found]) -> Result<Vec<u8>, AllocError>
    requires fits { length report.now.text.now < 2 ^ 32 }
    requires covered { MayBeCovered (begin 0 (chars report.now.text.now)) gathered.now.kept.items gathered.now.comments.items }
    ensures { IfOk result (λ lines. IsShown report.now.text.now gathered.now.kept.items gathered.now.comments.items (map view found.now) report.now.asked.colours lines.items) }
{
    show_text(
        report.alloc,
        report.text,
        gathered.kept.as_slice(),
        gathered.comments.as_slice(),
        found,
        report.asked.colours,
    )
}

/// Writes a text as it is shown in a terminal, with these errors below their lines, and of several files behind a line with
/// its name.
fn write_shown<W: Write>(
    report: &mut Report,
    gathered: &Gathered,
    found: &[Found],
    out: &mut W,
) -> Result<(), Stop>
    requires fits { length report.old.text.now < 2 ^ 32 }
    requires covered { MayBeCovered (begin 0 (chars report.old.text.now)) gathered.now.kept.items gathered.now.comments.items }
    ensures adds { (look : Look) (name text : List ℕ) → IsOf look name text report.old
        → OnOk result (OfLines look name text gathered.now.kept.items gathered.now.comments.items (map view found.now)
        (λ all. Adds (W.contents out.old) (W.contents out.new) report.old.out.items report.new.out.items all)) }
    ensures stays { OnOk result (Stays report.old report.new) }
{
    let lines = lines_shown(report, gathered, found)?;
    write_shown_head(report, out)?;
    report.write_whole(&lines, out)?;
    Ok(())
}

/// Writes what is asked for of a text, by what was gathered of it.
fn write_gathered<W: Write>(
    report: &mut Report,
    gathered: &Gathered,
    found: &[Found],
    out: &mut W,
) -> Result<(), Stop>
    requires fits { length report.old.text.now < 2 ^ 32 }
    requires covered { MayBeCovered (begin 0 (chars report.old.text.now)) gathered.now.kept.items gathered.now.comments.items }
    ensures classes { (look : Look) (name text : List ℕ) → IsOf look name text report.old → look.asked.face ≡ face.Classes
        → OnOk result (Adds (W.contents out.old) (W.contents out.new) report.old.out.items report.new.out.items
        (piece_rows look name text (classes_of 0 (length text) gathered.now.kept.items gathered.now.comments.items))) }
    ensures html { (look : Look) (name text : List ℕ) → IsOf look name text report.old → look.asked.face ≡ face.Html → AreInOrder (whole_specs.places_of (map view found.now))
        → OnOk result (Adds (W.contents out.old) (W.contents out.new) report.old.out.items report.new.out.items
        (html_written look name text gathered.now.kept.items gathered.now.comments.items (map view found.now))) }
    ensures shown { (look : Look) (name text : List ℕ) → IsOf look name text report.old → look.asked.face ≡ face.Show
        → OnOk result (OfLines look name text gathered.now.kept.items gathered.now.comments.items (map view found.now)
        (λ all. Adds (W.contents out.old) (W.contents out.new) report.old.out.items report.new.out.items all)) }
    ensures stays { OnOk result (Stays report.old report.new) }
{
    match report.asked.face {
        Face::Classes => write_pieces(report, gathered, out),
        Face::Html => write_html(report, gathered, found, out),
        _ => write_shown(report, gathered, found, out),
    }
}

/// Gathers the tokens and the comments of a text, tells of errors, and writes what is asked for.
pub(crate) fn tell_gathered<'a, W: Write>(
    report: &mut Report<'a>,
    named: Named<'a>,
    out: &mut W,
) -> Result<(), Stop>
    requires { length report.old.text.now < 2 ^ 32 }
    ensures classes { (look : Look) (name text : List ℕ) → IsOf look name text report.old → look.asked.face ≡ face.Classes
        → OnOk result (Adds (W.contents out.old) (W.contents out.new) report.old.out.items report.new.out.items (piece_rows look name text (pieces_by named.entry look text))) }
    ensures html { (look : Look) (name text : List ℕ) → IsOf look name text report.old → look.asked.face ≡ face.Html
        → OnOk result (OfHtml named.entry look name text
        (λ all. Adds (W.contents out.old) (W.contents out.new) report.old.out.items report.new.out.items all)) }
    ensures shown { (look : Look) (name text : List ℕ) → IsOf look name text report.old → look.asked.face ≡ face.Show
        → OnOk result (OfShown named.entry look name text
        (λ all. Adds (W.contents out.old) (W.contents out.new) report.old.out.items report.new.out.items all)) }
    ensures lines { (look : Look) (name text : List ℕ) → IsOf look name text report.old
        → OnOk result (OfFaults (unmet_by true named.entry look name text) look name text (errors_told (read_to true named.entry look text)) report.old report.new) }
    ensures unmet { (look : Look) (name text : List ℕ) → IsOf look name text report.old → tells_faults look.asked.face ≡ false
        → OnOk result (OfUnmet (unmet_by true named.entry look name text) (has_fault (errors_told (read_to true named.entry look text))) report.old report.new) }
{
    let settings = report.asked.options.settings(true);
    let context = report.asked.options.context();
    let slashes = slashes_at(named);
    let read = read_out(
        report.alloc,
        &settings,
        context,
        report.text,
        START,
        slashes,
    )?;
    let ReadOut {
        gathered,
        rereads,
        refusals,
    } = read;
    let recorded = gathered.errors.copy(report.alloc)?;
    let waiting = Vec::new(report.alloc);
    let found = in_order(report.alloc, refusals, recorded.into_vec(), waiting)?;
    tell_unmet(report, named, rereads)?;
    tell_found(report, &found, out)?;
    write_gathered(report, &gathered, &found, out)?;
    Ok(())
}
