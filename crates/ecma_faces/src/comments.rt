//! Rows of comments.
ghost use Rattle.std.specs.Prelude.{◌≡◌, ◌++◌, ◌<◌, ◌^◌, List, false, length, true, ℕ, OnOk};
ghost use Rattle.ecma_faces.specs.Comments as rows;
ghost use Rattle.ecma_faces.specs.Comments.{comment_rows, comments_by};
ghost use Rattle.ecma_faces.specs.Whole.{errors_told};
ghost use Rattle.ecma_report.specs.FaultLines.{OfFaults};
ghost use Rattle.ecma_report.specs.Runs.{read_to};
ghost use Rattle.ecma_report.specs.Reports.{Adds, IsOf, Stays, writes_errors};
ghost use Rattle.ecma_report.specs.Rows.{Look};
ghost use Rattle.ecma_report.specs.Unmet.{unmet_by};

use crate::errors::tell_errors;
use ecma_command::words::Named;
use ecma_names::{comment_name, side_name};
use ecma_reader::Outcome;
use ecma_report::faults::pass_tokens;
use ecma_report::report::{More, Report, Row, Stop};
use ecma_report::slashes::open;
use ecma_state::BufferedComment;
use std::alloc::AllocError;
use std::io::Write;

/// Adds the row of a comment.
fn push_comment(report: &mut Report, buffered: &BufferedComment) -> Result<(), AllocError>
    ensures added { (look : Look) (name text : List ℕ) → IsOf look name text report.old
        → OnOk result (report.new.out.items ≡ report.old.out.items ++ rows.comment_row look name text buffered.now) }
    ensures stays { Stays report.old report.new }
{
    report.push_row(Row {
        kind: comment_name(buffered.comment.kind),
        span: buffered.comment.span,
        more: More::Beside {
            side: side_name(buffered.kind),
            token: buffered.pos,
        },
        text: buffered.comment.text.as_str(),
    })
}

/// Writes the rows of comments.
fn push_comments<W: Write>(
    report: &mut Report,
    comments: &[BufferedComment],
    out: &mut W,
) -> Result<(), Stop>
    ensures adds { (look : Look) (name text : List ℕ) → IsOf look name text report.old
        → OnOk result (Adds (W.contents out.old) (W.contents out.new) report.old.out.items report.new.out.items (comment_rows look name text comments.now)) }
    ensures stays { OnOk result (Stays report.old report.new) }
{
    'comments: for buffered in comments {
        push_comment(report, buffered)?;
        report.pass_on(out)?;
    }
    Ok(())
}

/// Writes a row for each comment, and tells of errors. A lexer hands its comments over at the end.
pub(crate) fn write_comments<'a, W: Write>(
    report: &mut Report<'a>,
    named: Named<'a>,
    out: &mut W,
) -> Result<(), Stop>
    requires { length report.old.text.now < 2 ^ 32 }
    ensures adds { (look : Look) (name text : List ℕ) → IsOf look name text report.old → writes_errors look.asked.face ≡ false
        → OnOk result (Adds (W.contents out.old) (W.contents out.new) report.old.out.items report.new.out.items (comment_rows look name text (comments_by named.entry look text))) }
    ensures lines { (look : Look) (name text : List ℕ) → IsOf look name text report.old
        → OnOk result (OfFaults (unmet_by true named.entry look name text) look name text (errors_told (read_to true named.entry look text)) report.old report.new) }
{
    let mut reader = open(report, named, true)?;
    let mut errors = Vec::new(report.alloc);
    pass_tokens(&mut reader, &mut errors)?;
    let Outcome {
        errors: recorded,
        waiting: _,
        comments,
        ended: _,
        rereads,
    } = reader.finish();
    tell_errors(report, named, errors, recorded.into_vec(), rereads, out)?;
    push_comments(report, &comments, out)?;
    Ok(())
}
