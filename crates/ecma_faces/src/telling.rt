//! What is told of a text.
ghost use Rattle.std.specs.Prelude.{◌≡◌, ◌++◌, ◌<◌, ◌^◌, List, None, [], false, length, true, ℕ, OnOk};
ghost use Rattle.std.specs.Io.KnownBytes.{Appends};
ghost use Rattle.std.specs.Str.{chars};
ghost use Rattle.ecma_reader.specs.Readers.{tokens_by};
ghost use Rattle.ecma_modules.specs.Modules.{exports_of, imports_of};
ghost use Rattle.ecma_faces.specs.Comments.{comment_rows, comments_by};
ghost use Rattle.ecma_report.specs.Errors.{OfRowsByPlace, errors_by};
ghost use Rattle.ecma_faces.specs.Modules.{export_rows, import_rows, module_options, tokens_of};
ghost use Rattle.ecma_faces.specs.Pieces.{piece_rows, pieces_by};
ghost use Rattle.ecma_faces.specs.Whole.{OfCanon, OfHtml, OfShown, errors_told, plainly, steps_by};
ghost use Rattle.ecma_report.specs.FaultLines.{OfFaults, OfUnmet, has_fault, tells_faults};
ghost use Rattle.ecma_report.specs.Runs.{read_to};
ghost use Rattle.ecma_report.specs.Reports.{Adds, IsOf};
ghost use Rattle.ecma_report.specs.Slashes.{rule_at};
ghost use Rattle.ecma_faces.specs.Telling.{with_comments};
ghost use Rattle.ecma_faces.specs.Tokens.{begun, token_rows};
ghost use Rattle.ecma_report.specs.Rows.{Look};
ghost use Rattle.ecma_report.specs.Unmet.{unmet_by};
ghost use Rattle.ecma_command.specs.declared.words.Face.TheVariants as face;

use crate::canonical::write_canonical;
use crate::comments::write_comments;
use crate::imports::{write_exports, write_imports};
use crate::tokens::write_tokens;
use crate::whole::tell_gathered;
use ecma_command::words::{Face, Named};
use ecma_report::faults::write_errors;
use ecma_report::report::{Report, Stop};
use std::io::Write;

/// Writes what is asked for, or holds it.
fn write_face<'a, W: Write>(
    report: &mut Report<'a>,
    named: Named<'a>,
    out: &mut W,
) -> Result<(), Stop>
    requires { length report.old.text.now < 2 ^ 32 }
    ensures tokens { (look : Look) (name text : List ℕ) → IsOf look name text report.old → look.asked.face ≡ face.Tokens
        → OnOk result (Adds (W.contents out.old) (W.contents out.new) report.old.out.items report.new.out.items (token_rows look name text None (tokens_by (rule_at named.entry) (begun look.asked text)))) }
    ensures imports { (look : Look) (name text : List ℕ) → IsOf look name text report.old → look.asked.face ≡ face.Imports
        → OnOk result (Adds (W.contents out.old) (W.contents out.new) report.old.out.items report.new.out.items (import_rows look name text (imports_of (module_options look.asked) (tokens_of named.entry look text)))) }
    ensures exports { (look : Look) (name text : List ℕ) → IsOf look name text report.old → look.asked.face ≡ face.Exports
        → OnOk result (Adds (W.contents out.old) (W.contents out.new) report.old.out.items report.new.out.items (export_rows look name text (exports_of (module_options look.asked) (tokens_of named.entry look text)))) }
    ensures comments { (look : Look) (name text : List ℕ) → IsOf look name text report.old → look.asked.face ≡ face.Comments
        → OnOk result (Adds (W.contents out.old) (W.contents out.new) report.old.out.items report.new.out.items (comment_rows look name text (comments_by named.entry look text))) }
    ensures errors { (look : Look) (name text : List ℕ) → IsOf look name text report.old → look.asked.face ≡ face.Errors
        → OnOk result (OfRowsByPlace look name text (errors_by named.entry look text)
        (λ all. Adds (W.contents out.old) (W.contents out.new) report.old.out.items report.new.out.items all)) }
    ensures classes { (look : Look) (name text : List ℕ) → IsOf look name text report.old → look.asked.face ≡ face.Classes
        → OnOk result (Adds (W.contents out.old) (W.contents out.new) report.old.out.items report.new.out.items (piece_rows look name text (pieces_by named.entry look text))) }
    ensures html { (look : Look) (name text : List ℕ) → IsOf look name text report.old → look.asked.face ≡ face.Html
        → OnOk result (OfHtml named.entry look name text
        (λ all. Adds (W.contents out.old) (W.contents out.new) report.old.out.items report.new.out.items all)) }
    ensures shown { (look : Look) (name text : List ℕ) → IsOf look name text report.old → look.asked.face ≡ face.Show
        → OnOk result (OfShown named.entry look name text
        (λ all. Adds (W.contents out.old) (W.contents out.new) report.old.out.items report.new.out.items all)) }
    ensures canonical { (look : Look) (name text : List ℕ) → IsOf look name text report.old → look.asked.face ≡ face.Canonical
        → OnOk result (OfCanon look name (plainly look) (chars text) (steps_by (rule_at named.entry) look text) report.old.is_too_long report.new.is_too_long
        (λ all. Adds (W.contents out.old) (W.contents out.new) report.old.out.items report.new.out.items all)) }
    ensures lines { (look : Look) (name text : List ℕ) → IsOf look name text report.old → tells_faults look.asked.face ≡ true
        → OnOk result (OfFaults (unmet_by (with_comments look.asked.face) named.entry look name text) look name text (errors_told (read_to (with_comments look.asked.face) named.entry look text)) report.old report.new) }
    ensures unmet { (look : Look) (name text : List ℕ) → IsOf look name text report.old → tells_faults look.asked.face ≡ false
        → OnOk result (OfUnmet (unmet_by (with_comments look.asked.face) named.entry look name text) (has_fault (errors_told (read_to (with_comments look.asked.face) named.entry look text))) report.old report.new) }
{
    match report.asked.face {
        Face::Tokens => write_tokens(report, named, out),
        Face::Comments => write_comments(report, named, out),
        Face::Errors => write_errors(report, named, out),
        Face::Imports => write_imports(report, named, out),
        Face::Exports => write_exports(report, named, out),
        Face::Canonical => write_canonical(report, named, out),
        Face::Classes | Face::Html | Face::Show => tell_gathered(report, named, out),
    }
}

/// Writes what a report is asked for of its text, while the text is read, and gathers the lines that tell of faults. Which
/// slashes begin regular expressions is said by `named`, whose places ascend.
///
/// Rows of tokens are written in blocks as they are read. Errors and comments are known at the end, and are written in blocks
/// then, errors in order of place. The caller knows that the text has fewer than 2^32 bytes.
///
/// # Errors
///
/// `Closed` where a write fails: nothing is read then any more. `OutOfMemory` where
/// there is no memory; what was written before stays written.
pub fn tell<'a, W: Write>(
    report: &mut Report<'a>,
    named: Named<'a>,
    out: &mut W,
) -> Result<(), Stop>
    requires { length report.old.text.now < 2 ^ 32 }
    // Where tokens are asked for, and all was written, it is the row of each token of the text, in order.
    ensures tokens { (look : Look) (name text : List ℕ) → IsOf look name text report.old → look.asked.face ≡ face.Tokens
        → OnOk result (Appends (W.contents out.old) (W.contents out.new) (report.old.out.items ++ token_rows look name text None (tokens_by (rule_at named.entry) (begun look.asked text)))) }
    // Where imports or exports are asked for, it is the row of each, in the order in which they begin.
    ensures imports { (look : Look) (name text : List ℕ) → IsOf look name text report.old → look.asked.face ≡ face.Imports
        → OnOk result (Appends (W.contents out.old) (W.contents out.new) (report.old.out.items ++ import_rows look name text (imports_of (module_options look.asked) (tokens_of named.entry look text)))) }
    ensures exports { (look : Look) (name text : List ℕ) → IsOf look name text report.old → look.asked.face ≡ face.Exports
        → OnOk result (Appends (W.contents out.old) (W.contents out.new) (report.old.out.items ++ export_rows look name text (exports_of (module_options look.asked) (tokens_of named.entry look text)))) }
    // Where comments are asked for, it is the row of each, in the order in which they are handed over.
    ensures comments { (look : Look) (name text : List ℕ) → IsOf look name text report.old → look.asked.face ≡ face.Comments
        → OnOk result (Appends (W.contents out.old) (W.contents out.new) (report.old.out.items ++ comment_rows look name text (comments_by named.entry look text))) }
    // Where errors are asked for, it is the row of each, in order of place.
    ensures errors { (look : Look) (name text : List ℕ) → IsOf look name text report.old → look.asked.face ≡ face.Errors
        → OnOk result (OfRowsByPlace look name text (errors_by named.entry look text)
        (λ all. Appends (W.contents out.old) (W.contents out.new) (report.old.out.items ++ all))) }
    // Where pieces are asked for, it is the row of each, and they cover the text.
    ensures classes { (look : Look) (name text : List ℕ) → IsOf look name text report.old → look.asked.face ≡ face.Classes
        → OnOk result (Appends (W.contents out.old) (W.contents out.new) (report.old.out.items ++ piece_rows look name text (pieces_by named.entry look text))) }
    // Where HTML is asked for, it is that of the text, with its errors where they lie, in a page or by itself.
    ensures html { (look : Look) (name text : List ℕ) → IsOf look name text report.old → look.asked.face ≡ face.Html
        → OnOk result (OfHtml named.entry look name text
        (λ all. Appends (W.contents out.old) (W.contents out.new) (report.old.out.items ++ all))) }
    // Where a terminal is to show the text, it is the text with its errors below their lines, in order of place.
    ensures shown { (look : Look) (name text : List ℕ) → IsOf look name text report.old → look.asked.face ≡ face.Show
        → OnOk result (OfShown named.entry look name text
        (λ all. Appends (W.contents out.old) (W.contents out.new) (report.old.out.items ++ all))) }
    // Where the canonical text is asked for, it is that, and nothing where there is none.
    ensures canonical { (look : Look) (name text : List ℕ) → IsOf look name text report.old → look.asked.face ≡ face.Canonical
        → OnOk result (OfCanon look name (plainly look) (chars text) (steps_by (rule_at named.entry) look text) report.old.is_too_long report.new.is_too_long
        (λ all. Appends (W.contents out.old) (W.contents out.new) (report.old.out.items ++ all))) }
    // Errors that have no rows and are not shown in the text have lines of faults, in order of place, behind those of the places
    // that were named and are no slash's.
    ensures lines { (look : Look) (name text : List ℕ) → IsOf look name text report.old → tells_faults look.asked.face ≡ true
        → OnOk result (OfFaults (unmet_by (with_comments look.asked.face) named.entry look name text) look name text (errors_told (read_to (with_comments look.asked.face) named.entry look text)) report.old report.new) }
    ensures unmet { (look : Look) (name text : List ℕ) → IsOf look name text report.old → tells_faults look.asked.face ≡ false
        → OnOk result (OfUnmet (unmet_by (with_comments look.asked.face) named.entry look name text) (has_fault (errors_told (read_to (with_comments look.asked.face) named.entry look text))) report.old report.new) }
    // Nothing is held any more.
    ensures none { OnOk result (report.new.out.items ≡ []) }
{
    write_face(report, named, out)?;
    report.flush(out)?;
    Ok(())
}
