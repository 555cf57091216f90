//! What is written of a text: lines, or JSON objects, in blocks.
ghost use Rattle.std.specs.Prelude.{◌≡◌, ◌++◌, ◌<◌, ◌^◌, [], false, length, OnOk};
ghost use Rattle.std.specs.Io.KnownBytes.{Appends};
ghost use Rattle.ecma_token.specs.View.{kind_view};
ghost use Rattle.ecma_token.specs.MessageView.{view_message};
ghost use Rattle.ecma_positions.specs.Columns.{position_by};
ghost use Rattle.ecma_print.specs.Lines.{Counts};
ghost use Rattle.ecma_report.specs.FaultLines.{fault_line, line_at, place_in};
ghost use Rattle.ecma_report.specs.Reports.{Adds, IsOf, IsStill, Stays, look_of};
ghost use Rattle.ecma_print.specs.Rows.{head, more_view, own_text};
ghost use Rattle.ecma_report.specs.Rows.{alone, line_text, look, name_asked, part_at, place_asked, row_parts, row_text, whole_begin, whole_end, whole_part, whole_text};

use ecma_command::words::{Among, Asked};
use ecma_messages::{push_message, push_name};
use ecma_positions::Position;
use ecma_print::lines::Lines;
pub use ecma_print::row::{More, Row};
use ecma_print::written::{
    push_head, push_object, push_own_text, push_text_begin, push_text_end, push_text_part,
};
use ecma_span::{BytePos, Span};
use ecma_stdio::{FAILED, push_escaped, push_number, send};
use ecma_token::SyntaxError;
use std::alloc::{AllocError, Global};
use std::io::Write;

/// So many bytes are written at once, or more where a row is longer.
const BLOCK: usize = 65_536;

/// Why a report ends before its text does.
#[derive(Clone, Copy, Debug, PartialEq, Eq)]
pub enum Stop {
    OutOfMemory,
    /// A write failed, or took nothing.
    Closed,
}

impl From<AllocError> for Stop {
    ghost use Rattle.ecma_report.specs.declared.report.Stop.{Stop};

    ghost from_gives = { λ _ stop. stop ≡ Stop.OutOfMemory };

    fn from(_: AllocError) -> Stop {
        Stop::OutOfMemory
    }
}

/// What is written of one text.
#[derive(Drop)]
pub struct Report<'a> {
    pub alloc: Global,
    pub asked: Asked,
    /// How the file is written of beside others: as the only one, until it is set.
    pub among: Among,
    pub name: &'a str,
    pub text: &'a str,
    lines: Lines,
    /// The rows that were added and not written yet.
    pub out: Vec<u8>,
    /// The lines of faults, each with the name of the file.
    pub faults: Vec<u8>,
    /// Whether the text has an error that counts in scripts too, or a place that was named is no slash's.
    pub is_faulty: bool,
    /// Whether the canonical text was asked for and is left out for its length alone.
    pub is_too_long: bool,
}

/// Writes all of these bytes.
///
/// # Errors
///
/// `Closed` where not all of them went out.
fn write_all<W: Write>(out: &mut W, bytes: &[u8]) -> Result<(), Stop>
    ensures { OnOk result (Appends (W.contents out.old) (W.contents out.new) bytes.now) }
{
    if send(out, 0, bytes) == FAILED {
        return Err(Stop::Closed);
    }
    Ok(())
}

/// Adds the name of a file, a line and a column.
fn push_place(out: &mut Vec<u8>, name: &str, position: Position) -> Result<(), AllocError>
    ensures { OnOk result (out.new.items ≡ out.old.items ++ place_in name.now position) }
{
    push_name(out, name)?;
    out.push(b':')?;
    push_number(out, position.line)?;
    out.push(b':')?;
    push_number(out, position.column)
}

/// Adds the line of a fault: the name of the file, a line and a column, and a message in one line.
fn push_fault_line(
    out: &mut Vec<u8>,
    name: &str,
    position: Position,
    message: &str,
) -> Result<(), AllocError>
    ensures { OnOk result (out.new.items ≡ out.old.items ++ line_at name.now position message.now) }
{
    push_place(out, name, position)?;
    out.extend_from_slice(b": ")?;
    push_message(out, message)?;
    out.push(b'\n')?;
    Ok(())
}

impl<'a> Report<'a> {
    /// Of a text of which nothing is reported yet. It does not allocate.
    pub fn new(alloc: Global, asked: Asked, name: &'a str, text: &'a str) -> Report<'a>
        ensures of { IsOf (look asked alone) name.now text.now result }
        ensures none { (result.out.items ≡ []) × (result.faults.items ≡ []) × (result.is_faulty ≡ false) × (result.is_too_long ≡ false) }
    {
        Report {
            alloc,
            asked,
            among: Among {
                several: false,
                names: false,
            },
            name,
            text,
            lines: Lines::new(),
            out: Vec::new(alloc),
            faults: Vec::new(alloc),
            is_faulty: false,
            is_too_long: false,
        }
    }

    /// The text at a span, or none where that begins or ends within a character, or behind the text.
    pub fn at(&self, span: Span) -> &'a str
        ensures { result.now ≡ part_at self.now.text.now span }
    {
        let (from, to) = (span.lo.0 as usize, span.hi.0 as usize);
        if from <= to && self.text.is_char_boundary(from) && self.text.is_char_boundary(to) {
            &self.text[from..to]
        } else {
            ""
        }
    }

    /// Writes the rows that were added.
    ///
    /// # Errors
    ///
    /// `Closed` where not all of them went out.
    pub fn flush<W: Write>(&mut self, out: &mut W) -> Result<(), Stop>
        ensures written { OnOk result (Appends (W.contents out.old) (W.contents out.new) self.old.out.items) }
        ensures none { OnOk result (self.new.out.items ≡ []) }
        ensures stays { Stays self.old self.new }
    {
        write_all(out, &self.out)?;
        self.out.clear();
        Ok(())
    }

    /// Writes the rows that were added where they fill a block.
    ///
    /// # Errors
    ///
    /// `Closed` where not all of them went out.
    pub fn pass_on<W: Write>(&mut self, out: &mut W) -> Result<(), Stop>
        ensures adds { OnOk result (Adds (W.contents out.old) (W.contents out.new) self.old.out.items self.new.out.items []) }
        ensures held { OnOk result (length self.new.out.items < 2 ^ 16) }
        ensures stays { Stays self.old self.new }
    {
        if self.out.len() < BLOCK {
            return Ok(());
        }
        self.flush(out)
    }

    /// The line and the column of a place, most often one behind that of the last row.
    fn position(&mut self, place: BytePos) -> Position
        ensures position { Counts self.old.text.now self.old.lines → result ≡ position_by self.old.asked.columns self.old.text.now place }
        ensures stays { Stays self.old self.new }
        ensures out { self.new.out ≡ self.old.out }
    {
        self.lines
            .position(self.text.as_bytes(), self.asked.columns, place)
    }

    /// The line and the column of a place, where these are asked for.
    fn position_asked(&mut self, place: BytePos) -> Option<Position>
        ensures position { Counts self.old.text.now self.old.lines → result ≡ place_asked self.old.asked self.old.text.now place }
        ensures stays { Stays self.old self.new }
        ensures out { self.new.out ≡ self.old.out }
    {
        if self.asked.lines {
            Some(self.position(place))
        } else {
            None
        }
    }

    /// Adds the name of the file and a colon, where lines name it.
    fn push_name(&mut self) -> Result<(), AllocError>
        ensures added { OnOk result (self.new.out.items ≡ self.old.out.items ++ name_asked (look_of self.old) self.old.name.now) }
        ensures stays { Stays self.old self.new }
    {
        if self.among.names {
            push_escaped(&mut self.out, self.name.as_bytes())?;
            self.out.push(b':')?;
        }
        Ok(())
    }

    /// Adds what a line has behind the name of its file, but not its end.
    fn push_content(&mut self, position: Option<Position>, row: Row) -> Result<(), AllocError>
        ensures added { OnOk result (self.new.out.items ≡ self.old.out.items ++ (head position row.entry ++ own_text (more_view row.entry.more) row.entry.text.now)) }
        ensures stays { Stays self.old self.new }
    {
        push_head(&mut self.out, position, row)?;
        push_own_text(&mut self.out, row)
    }

    /// Adds a line, but not its end.
    fn push_line(&mut self, row: Row) -> Result<(), AllocError>
        ensures added { Counts self.old.text.now self.old.lines
            → OnOk result (self.new.out.items ≡ self.old.out.items ++ line_text (look_of self.old) self.old.name.now self.old.text.now row.entry.kind.now row.entry.span (more_view row.entry.more) row.entry.text.now) }
        ensures stays { Stays self.old self.new }
    {
        let position = self.position_asked(row.span.lo);
        self.push_name()?;
        self.push_content(position, row)
    }

    /// Adds a row, but not the end of its line.
    fn push_parts(&mut self, row: Row) -> Result<(), AllocError>
        ensures added { Counts self.old.text.now self.old.lines
            → OnOk result (self.new.out.items ≡ self.old.out.items ++ row_parts (look_of self.old) self.old.name.now self.old.text.now row.entry) }
        ensures stays { Stays self.old self.new }
    {
        if self.asked.json {
            let position = self.position(row.span.lo);
            return push_object(&mut self.out, self.name, position, row);
        }
        self.push_line(row)
    }

    /// Adds a row with the end of its line.
    fn push_whole(&mut self, row: Row) -> Result<(), AllocError>
        ensures added { Counts self.old.text.now self.old.lines
            → OnOk result (self.new.out.items ≡ self.old.out.items ++ row_text (look_of self.old) self.old.name.now self.old.text.now row.entry) }
        ensures stays { Stays self.old self.new }
    {
        self.push_parts(row)?;
        self.out.push(b'\n')?;
        Ok(())
    }

    /// Adds a row: a line, or a JSON object in a line.
    ///
    /// # Errors
    ///
    /// `AllocError` where there is no memory. Nothing is added then.
    pub fn push_row(&mut self, row: Row) -> Result<(), AllocError>
        ensures added { Counts self.old.text.now self.old.lines
            → OnOk result (self.new.out.items ≡ self.old.out.items ++ row_text (look_of self.old) self.old.name.now self.old.text.now row.entry) }
        ensures stays { Stays self.old self.new }
    {
        let before = self.out.len();
        let pushed = self.push_whole(row);
        if pushed.is_err() {
            self.out.truncate(before);
        }
        pushed
    }

    /// Writes these bytes behind the rows that were added.
    ///
    /// # Errors
    ///
    /// `Closed` where not all of them went out.
    pub fn write_behind<W: Write>(&mut self, bytes: &[u8], out: &mut W) -> Result<(), Stop>
        ensures adds { OnOk result (Adds (W.contents out.old) (W.contents out.new) self.old.out.items self.new.out.items bytes.now) }
        ensures stays { Stays self.old self.new }
    {
        self.flush(out)?;
        write_all(out, bytes)?;
        Ok(())
    }

    /// Writes a text as a whole: its bytes, or an object in a line. Of several files each text ends with a line feed.
    ///
    /// # Errors
    ///
    /// `Closed` where not all of it went out, `OutOfMemory` where there is no memory.
    pub fn write_whole<W: Write>(&mut self, bytes: &[u8], out: &mut W) -> Result<(), Stop>
        ensures adds { OnOk result (Adds (W.contents out.old) (W.contents out.new) self.old.out.items self.new.out.items
            (whole_text (look_of self.old) self.old.name.now bytes.now)) }
        ensures stays { Stays self.old self.new }
    {
        if self.asked.json {
            self.begin_whole()?;
            self.push_part(bytes)?;
            return Ok(self.end_whole()?);
        }
        self.write_behind(bytes, out)?;
        if self.among.several {
            self.write_behind(b"\n", out)?;
        }
        Ok(())
    }

    /// Begins a text that is written whole, in parts. Of such a text the parts are added with [`Report::push_part`], and
    /// then it is ended with [`Report::end_whole`]; it is then as [`Report::write_whole`] writes it.
    ///
    /// # Errors
    ///
    /// `AllocError` where allocation fails; a part of what was to be added may then be there.
    pub fn begin_whole(&mut self) -> Result<(), AllocError>
        ensures added { OnOk result (self.new.out.items ≡ self.old.out.items ++ whole_begin (look_of self.old) self.old.name.now) }
        ensures stays { Stays self.old self.new }
    {
        if self.asked.json {
            return push_text_begin(&mut self.out, self.name);
        }
        Ok(())
    }

    /// Adds a part of a text that is written whole.
    ///
    /// # Errors
    ///
    /// `AllocError` where allocation fails; a part of what was to be added may then be there.
    #[inline(always)]
    pub fn push_part(&mut self, bytes: &[u8]) -> Result<(), AllocError>
        ensures added { OnOk result (self.new.out.items ≡ self.old.out.items ++ whole_part (look_of self.old) bytes.now) }
        ensures stays { Stays self.old self.new }
    {
        if self.asked.json {
            return push_text_part(&mut self.out, bytes);
        }
        self.out.extend_from_slice(bytes)
    }

    /// Ends a text that is written whole, in parts.
    ///
    /// # Errors
    ///
    /// `AllocError` where allocation fails; a part of what was to be added may then be there.
    pub fn end_whole(&mut self) -> Result<(), AllocError>
        ensures added { OnOk result (self.new.out.items ≡ self.old.out.items ++ whole_end (look_of self.old)) }
        ensures stays { Stays self.old self.new }
    {
        if self.asked.json {
            push_text_end(&mut self.out)?;
        }
        if self.asked.json || self.among.several {
            self.out.push(b'\n')?;
        }
        Ok(())
    }

    /// Adds the line of an error to the faults: the name of the file, the line and the column, and the message in one line.
    ///
    /// # Errors
    ///
    /// `AllocError` where allocation fails for the line, of which a part may then be there.
    pub fn push_fault(&mut self, span: Span, kind: &SyntaxError) -> Result<(), AllocError>
        ensures line { Counts self.old.text.now self.old.lines
            → OnOk result (self.new.faults.items ≡ self.old.faults.items ++ fault_line (look_of self.old) self.old.name.now self.old.text.now span (view_message (kind_view kind.now))) }
        ensures out { self.new.out ≡ self.old.out }
        ensures faulty { self.new.is_faulty ≡ self.old.is_faulty }
        ensures still { IsStill self.old self.new }
    {
        let position = self.position(span.lo);
        let message = kind.msg(self.alloc)?;
        push_fault_line(&mut self.faults, self.name, position, message.as_str())
    }
}
