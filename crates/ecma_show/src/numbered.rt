//! Lines behind their numbers, and marks below them.
ghost use Rattle.std.specs.Prelude.{◌≡◌, ◌++◌, ◌≤◌, drop, length, IfOk, OnOk};
ghost use Rattle.ecma_show.specs.Shown as shows;

use crate::frame::{Frame, push_margin};
use crate::mark::Mark;
use crate::pointer::push_mark;
use memchr::memchr;
use std::alloc::AllocError;

/// Adds the lines of those of the marks behind so many others that are of the line with this number, or of one before it, and
/// answers how many marks are behind then.
fn push_marks_at(
    out: &mut Vec<u8>,
    text: &[u8],
    frame: Frame,
    number: usize,
    marks: &[Mark],
    behind: usize,
) -> Result<usize, AllocError>
    requires { behind ≤ length marks.now }
    ensures added { OnOk result (out.new.items ≡ out.old.items ++ shows.marks_at text.now frame number (drop behind marks.now)) }
    ensures left { IfOk result (λ n. drop n marks.now ≡ shows.marks_behind number (drop behind marks.now)) }
    ensures within { IfOk result (λ n. n ≤ length marks.now) }
{
    let mut done = behind;
    'marks: while done < marks.len() && marks[done].line <= number {
        push_mark(out, text, frame, &marks[done])?;
        done += 1;
    }
    Ok(done)
}

/// Adds the lines of these marks.
fn push_marks(
    out: &mut Vec<u8>,
    text: &[u8],
    frame: Frame,
    marks: &[Mark],
) -> Result<(), AllocError>
    ensures { OnOk result (out.new.items ≡ out.old.items ++ shows.all_marks text.now frame marks.now) }
{
    for mark in marks {
        push_mark(out, text, frame, mark)?;
    }
    Ok(())
}

/// Adds lines behind their numbers, from the first one on whose margin was added, and marks below them.
fn push_numbered(
    out: &mut Vec<u8>,
    text: &[u8],
    frame: Frame,
    marks: &[Mark],
    painted: &[u8],
) -> Result<(), AllocError>
    ensures { OnOk result (out.new.items ≡ out.old.items ++ shows.numbered text.now frame 1 marks.now painted.now) }
{
    let mut number = 1;
    let mut behind = 0;
    let mut left = painted;
    'lines: while let Some(end) = memchr(b'\n', left) {
        out.extend_from_slice(&left[..end])?;
        out.push(b'\n')?;
        behind = push_marks_at(out, text, frame, number, marks, behind)?;
        number += 1;
        push_margin(out, frame.width, number)?;
        left = &left[end + 1..];
    }
    out.extend_from_slice(left)?;
    out.push(b'\n')?;
    push_marks(out, text, frame, &marks[behind..])
}

/// Adds the lines of a text that was painted, behind their numbers, and marks below them.
pub(crate) fn push_lines(
    out: &mut Vec<u8>,
    text: &[u8],
    frame: Frame,
    marks: &[Mark],
    painted: &[u8],
) -> Result<(), AllocError>
    ensures { OnOk result (out.new.items ≡ out.old.items ++ (shows.margin frame.width 1 ++ shows.numbered text.now frame 1 marks.now painted.now)) }
{
    push_margin(out, frame.width, 1)?;
    push_numbered(out, text, frame, marks, painted)
}
