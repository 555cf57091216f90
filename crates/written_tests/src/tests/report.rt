//! Rows of a report, each held to what `serde_json` and `format!` write of it.
use ecma_command::words::{Among, Asked, Face};
use ecma_options::Options;
use ecma_positions::{Columns, LineStarts, Position};
use ecma_print::row::{Imported, Value};
use ecma_report::report::{More, Report, Row};
use ecma_span::{BytePos, Span};
use ecma_stdio::push_escaped;
use serde_json::json;
use std::alloc::{AllocError, Global};
use std::process::Abort;
use std::test::Fail;

/// The text that is reported of, and a span of it.
const SOURCE: &str = "let a\n= 1\n\n// b\n";

const SPAN: Span = Span {
    lo: BytePos(8),
    hi: BytePos(4_294_967_295),
};

/// Names of files, and what is told besides.
const CASES: &[(&str, More)] = &[
    ("bundle.js", More::Nothing),
    ("", More::LineBreak(true)),
    ("a \"b\"\\c\\.ts", More::LineBreak(false)),
    ("m.js", More::Message),
    (
        "d/\u{1}\té.js",
        More::Beside {
            side: "leading",
            token: BytePos(0),
        },
    ),
    (
        "𝒳\n",
        More::Beside {
            side: "\"\\\n\u{7f}",
            token: BytePos(4_294_967_295),
        },
    ),
];

/// As of a file that is the only one.
const ALONE: Among = Among {
    several: false,
    names: false,
};

/// Whether JSON is asked for, lines, and the name of the file in each line.
const MODES: &[(bool, bool, bool)] = &[
    (true, false, false),
    (true, true, true),
    (false, true, true),
    (false, true, false),
    (false, false, true),
    (false, false, false),
];

/// A row as a JSON object, made as a tree.
fn object(alloc: Global, file: &str, position: Position, row: Row) -> Result<String, AllocError> {
    match row.more {
        // Rows of imports, exports and values are in the table of rows.
        More::Nothing
        | More::Message
        | More::Import(_)
        | More::Export { .. }
        | More::Valued { .. } => plain_object(alloc, file, position, row),
        More::LineBreak(flag) => object_with_flag(alloc, file, position, row, flag),
        More::Beside { side, token } => {
            object_beside(alloc, file, position, row, (side, token.0))
        }
    }
}

// Each is a tree of its own, since several in one function multiply what there is to prove.

fn plain_object(
    alloc: Global,
    file: &str,
    position: Position,
    row: Row,
) -> Result<String, AllocError> {
    let Position { line, column } = position;
    let (kind, text) = (row.kind, row.text);
    let (lo, hi) = (row.span.lo.0, row.span.hi.0);
    json!(in alloc; {
        "file": file, "kind": kind, "lo": lo, "hi": hi, "line": line, "column": column, "text": text
    })?
    .to_string(alloc)
}

fn object_with_flag(
    alloc: Global,
    file: &str,
    position: Position,
    row: Row,
    flag: bool,
) -> Result<String, AllocError> {
    let Position { line, column } = position;
    let (kind, text) = (row.kind, row.text);
    let (lo, hi) = (row.span.lo.0, row.span.hi.0);
    json!(in alloc; {
        "file": file, "kind": kind, "lo": lo, "hi": hi, "line": line, "column": column, "text": text,
        "line_break_before": flag
    })?
    .to_string(alloc)
}

fn object_beside(
    alloc: Global,
    file: &str,
    position: Position,
    row: Row,
    (side, token): (&str, u32),
) -> Result<String, AllocError> {
    let Position { line, column } = position;
    let (kind, text) = (row.kind, row.text);
    let (lo, hi) = (row.span.lo.0, row.span.hi.0);
    json!(in alloc; {
        "file": file, "kind": kind, "lo": lo, "hi": hi, "line": line, "column": column, "text": text,
        "side": side, "token": token
    })?
    .to_string(alloc)
}

/// What comes before the text of a row in its line.
fn head(alloc: Global, lines: bool, position: Position, row: Row) -> Result<String, AllocError> {
    let kind = row.kind;
    let lo = row.span.lo.0;
    let hi = row.span.hi.0;
    let place = if lines {
        let Position { line, column } = position;
        format!(in alloc; " {line}:{column}")?
    } else {
        String::new(alloc)
    };
    let place = place.as_str();
    match row.more {
        More::Nothing
        | More::Message
        | More::Import(_)
        | More::Export { .. }
        | More::Valued { .. } => { format!(in alloc; "{kind}{place} {lo} {hi} ") }
        More::LineBreak(true) => format!(in alloc; "{kind}{place} {lo} {hi} lf "),
        More::LineBreak(false) => format!(in alloc; "{kind}{place} {lo} {hi} - "),
        More::Beside { side, token } => {
            let token = token.0;
            format!(in alloc; "{kind}{place} {lo} {hi} {side} {token} ")
        }
    }
}

/// Adds a text with a space for each line feed and carriage return.
fn push_spaced(bytes: &mut Vec<u8>, text: &str) -> Result<(), AllocError> {
    for part in text.split(['\n', '\r']) {
        bytes.extend_from_slice(part.as_bytes())?;
        bytes.push(b' ')?;
    }
    // One behind the last part is too many.
    bytes.pop();
    Ok(())
}

/// Adds the name of a file where lines name it.
fn push_name(bytes: &mut Vec<u8>, among: Among, file: &str) -> Result<(), AllocError> {
    if !among.names {
        return Ok(());
    }
    push_escaped(bytes, file.as_bytes())?;
    bytes.push(b':')?;
    Ok(())
}

/// Adds the text of a row as its line has it.
fn push_text(bytes: &mut Vec<u8>, row: Row) -> Result<(), AllocError> {
    match row.more {
        More::Message => push_spaced(bytes, row.text),
        _ => push_escaped(bytes, row.text.as_bytes()),
    }
}

/// Where a row begins.
fn position_of(alloc: Global, source: &str, row: Row) -> Result<Position, AllocError> {
    Ok(LineStarts::of(alloc, source.as_bytes())?.position(row.span.lo))
}

/// Adds a row of a text with the end of its line.
fn push_row_bytes(
    alloc: Global,
    bytes: &mut Vec<u8>,
    (asked, among): (Asked, Among),
    file: &str,
    position: Position,
    row: Row,
) -> Result<(), AllocError> {
    if asked.json {
        bytes.extend_from_slice(object(alloc, file, position, row)?.as_bytes())?;
    } else {
        push_name(bytes, among, file)?;
        bytes.extend_from_slice(head(alloc, asked.lines, position, row)?.as_bytes())?;
        push_text(bytes, row)?;
    }
    bytes.push(b'\n')?;
    Ok(())
}

/// A row of a text with the end of its line.
fn row_bytes(
    alloc: Global,
    asked: Asked,
    among: Among,
    file: &str,
    source: &str,
    row: Row,
) -> Result<Vec<u8>, AllocError> {
    let position = position_of(alloc, source, row)?;
    let mut bytes = Vec::new(alloc);
    push_row_bytes(alloc, &mut bytes, (asked, among), file, position, row)?;
    Ok(bytes)
}

fn asked(json: bool, lines: bool) -> Asked {
    Asked {
        face: Face::Tokens,
        options: Options {
            typescript: false,
            module: false,
            strict: false,
            standard: false,
        },
        json,
        lines,
        columns: Columns::Bytes,
        colours: false,
        commonjs: false,
        values: false,
        page: false,
    }
}

/// Whether a report of two rows is these rows.
fn is_reported(
    alloc: Global,
    asked: Asked,
    among: Among,
    file: &str,
    row: Row,
) -> Result<bool, AllocError> {
    let mut report = Report::new(alloc, asked, file, SOURCE);
    report.among = among;
    report.push_row(row)?;
    report.push_row(row)?;
    let wanted = row_bytes(alloc, asked, among, file, SOURCE, row)?;
    Ok(
        match report.out.as_slice().strip_prefix(wanted.as_slice()) {
            Some(second) => second == wanted.as_slice(),
            None => false,
        },
    )
}

/// Whether the rows of a text are reported, in all cases.
fn are_reported(alloc: Global, asked: Asked, names: bool, text: &str) -> Result<bool, AllocError> {
    let among = Among {
        several: false,
        names,
    };
    for (file, more) in CASES {
        let row = Row {
            kind: "\"name\"",
            span: SPAN,
            more: *more,
            text,
        };
        if !is_reported(alloc, asked, among, file, row)? {
            return Ok(false);
        }
    }
    Ok(true)
}

/// So many times the same part, and what begins and ends a text.
fn repeated(alloc: Global, part: &str, count: usize) -> Result<String, AllocError> {
    let mut text = String::new(alloc);
    for _ in 0..count {
        text.push_str(part)?;
    }
    Ok(text)
}

fn assert_reported(rt: &impl Abort, alloc: Global, text: &str) -> Result<(), AllocError> {
    for (json, lines, names) in MODES {
        assert!(rt;
            are_reported(alloc, asked(*json, *lines), *names, text)?,
            "{text:?} {json} {lines} {names}"
        );
    }
    Ok(())
}

/// This byte of ASCII among others.
fn text_with(alloc: Global, byte: u8) -> Result<String, AllocError> {
    let mut text = String::from_str(alloc, "a")?;
    text.push(char::from(byte))?;
    text.push_str("\u{e9}b")?;
    Ok(text)
}

#[test]
fn rows_of_each_byte_are_as_trees_write_them(rt: HostRuntime) -> Result<(), Fail> {
    for byte in 0..128_u8 {
        assert_reported(&rt, rt.alloc(), text_with(rt.alloc(), byte)?.as_str())?;
    }
    Ok(())
}

/// Parts of texts, and how often each comes.
const TEXTS: &[(&str, usize)] = &[
    ("", 0),
    ("\0", 1),
    ("\u{1f}", 3),
    ("\"", 1),
    ("\\", 2),
    ("a\\", 1),
    ("é\u{2028}𝒳\u{fffd}\u{7f}", 2),
    ("x", 5_000),
    ("\n", 5_000),
    ("0123456789abcdef\"", 300),
    ("\"\\\u{8}\u{c}\n\r\t\u{b}", 100),
];

#[test]
fn rows_of_texts_are_as_trees_write_them(rt: HostRuntime) -> Result<(), Fail> {
    for (part, count) in TEXTS {
        assert_reported(
            &rt,
            rt.alloc(),
            repeated(rt.alloc(), part, *count)?.as_str(),
        )?;
    }
    Ok(())
}

/// An import of a phase, with attributes.
const IMPORTED: Imported = Imported {
    phase: Some("defer"),
    is_type: false,
    statement: SPAN,
    attributes: Some(SPAN),
};

/// An import of types.
const IMPORTED_TYPES: Imported = Imported {
    phase: None,
    is_type: true,
    statement: SPAN,
    attributes: None,
};

/// What is told besides, whether JSON is asked for, and lines, and what is written of a row.
const ROWS: &[(More, bool, bool, &str)] = &[
    (
        More::LineBreak(true),
        true,
        false,
        "{\"column\":3,\"file\":\"a.js\",\"hi\":4294967295,\"kind\":\"number\",\"line\":2,\"line_break_before\":true,\"lo\":8,\"text\":\"1\\n\\u0000\\\"\"}\n",
    ),
    (
        More::Beside {
            side: "leading",
            token: BytePos(7),
        },
        true,
        true,
        "{\"column\":3,\"file\":\"a.js\",\"hi\":4294967295,\"kind\":\"number\",\"line\":2,\"lo\":8,\"side\":\"leading\",\"text\":\"1\\n\\u0000\\\"\",\"token\":7}\n",
    ),
    (
        More::LineBreak(false),
        false,
        true,
        "number 2:3 8 4294967295 - 1\\n\0\"\n",
    ),
    (
        More::Nothing,
        false,
        false,
        "number 8 4294967295 1\\n\0\"\n",
    ),
    (
        More::Import(IMPORTED),
        true,
        false,
        "{\"column\":3,\"file\":\"a.js\",\"hi\":4294967295,\"kind\":\"number\",\"line\":2,\"lo\":8,\"phase\":\"defer\",\"statement_hi\":4294967295,\"statement_lo\":8,\"text\":\"1\\n\\u0000\\\"\",\"type\":false,\"with_hi\":4294967295,\"with_lo\":8}\n",
    ),
    (
        More::Import(IMPORTED_TYPES),
        true,
        false,
        "{\"column\":3,\"file\":\"a.js\",\"hi\":4294967295,\"kind\":\"number\",\"line\":2,\"lo\":8,\"phase\":\"evaluation\",\"statement_hi\":4294967295,\"statement_lo\":8,\"text\":\"1\\n\\u0000\\\"\",\"type\":true}\n",
    ),
    (
        More::Import(IMPORTED),
        false,
        false,
        "number 8 4294967295 defer 1\\n\0\"\n",
    ),
    (
        More::Import(IMPORTED_TYPES),
        false,
        false,
        "number 8 4294967295 type 1\\n\0\"\n",
    ),
    (
        More::Export {
            local: Some("\\u0061"),
            is_type: false,
        },
        true,
        false,
        "{\"column\":3,\"file\":\"a.js\",\"hi\":4294967295,\"kind\":\"number\",\"line\":2,\"lo\":8,\"local\":\"\\\\u0061\",\"text\":\"1\\n\\u0000\\\"\",\"type\":false}\n",
    ),
    (
        More::Export {
            local: Some("\\u0061"),
            is_type: false,
        },
        false,
        false,
        "number 8 4294967295 \\\\u0061 1\\n\0\"\n",
    ),
    (
        More::Export {
            local: None,
            is_type: true,
        },
        false,
        false,
        "number 8 4294967295 - 1\\n\0\"\n",
    ),
    (
        More::Valued {
            line_break: true,
            value: Value::Text("\"\n"),
        },
        false,
        false,
        "number 8 4294967295 lf \"\\\"\\n\" 1\\n\0\"\n",
    ),
];

fn is_written(alloc: Global, asked: Asked, more: More, wanted: &str) -> Result<bool, AllocError> {
    let mut report = Report::new(alloc, asked, "a.js", SOURCE);
    report.push_row(Row {
        kind: "number",
        span: SPAN,
        more,
        text: "1\n\0\"",
    })?;
    Ok(report.out.as_slice() == wanted.as_bytes())
}

#[test]
fn rows_are_written(rt: HostRuntime) -> Result<(), Fail> {
    for (more, json, lines, wanted) in ROWS {
        assert!(rt;
            is_written(rt.alloc(), asked(*json, *lines), *more, wanted)?,
            "{wanted}"
        );
    }
    Ok(())
}

/// A text of seven lines, which begin at 0, 1, 4, 5, 9, 16 and 18. It ends at 19, without a line feed.
const LINES: &str = "\nab\n\ncé\n𝒳d\r\ne\nf";

/// Where rows of one report begin, in the order in which they are added.
const ORDERS: &[(&str, &[u32])] = &[
    (
        "rising",
        &[0, 1, 2, 3, 4, 5, 7, 8, 9, 13, 15, 16, 17, 18, 19],
    ),
    (
        "falling",
        &[19, 18, 17, 16, 15, 13, 9, 8, 7, 5, 4, 3, 2, 1, 0],
    ),
    ("same line", &[9, 9, 14, 13, 9, 15]),
    ("first line", &[0, 0, 5, 0, 18, 0]),
    ("last line", &[18, 19, 18, 0, 19, 4, 18]),
    ("behind the end", &[20, 5, 4_294_967_295, 16]),
    ("next line", &[3, 4, 5, 8, 9, 15, 16, 17, 18]),
    ("line before", &[18, 17, 16, 15, 9, 8, 5, 4, 3]),
    ("lines apart", &[1, 16, 4, 13, 2, 9, 5, 17, 3, 18, 7, 0, 15]),
];

/// A row that begins there.
fn row_at(place: u32) -> Row<'static> {
    let place = BytePos(place);
    Row {
        kind: "name",
        span: Span {
            lo: place,
            hi: place,
        },
        more: More::Nothing,
        text: "a",
    }
}

/// Adds the row that begins there to a report, and as it is wanted.
fn push_both(
    alloc: Global,
    report: &mut Report,
    wanted: &mut Vec<u8>,
    asked: Asked,
    place: u32,
) -> Result<(), AllocError> {
    let row = row_at(place);
    report.push_row(row)?;
    wanted.extend_from_slice(&row_bytes(alloc, asked, ALONE, "a.js", LINES, row)?)
}

/// Whether rows that begin at these places, added to one report, have the line and the column of each.
fn are_placed(alloc: Global, asked: Asked, places: &[u32]) -> Result<bool, AllocError> {
    let mut report = Report::new(alloc, asked, "a.js", LINES);
    let mut wanted = Vec::new(alloc);
    for place in places {
        push_both(alloc, &mut report, &mut wanted, asked, *place)?;
    }
    Ok(report.out.as_slice() == wanted.as_slice())
}

#[test]
fn rows_out_of_order_have_their_lines(rt: HostRuntime) -> Result<(), Fail> {
    for (order, places) in ORDERS {
        for json in [false, true] {
            assert!(rt;
                are_placed(rt.alloc(), asked(json, !json), places)?,
                "{order} {json}"
            );
        }
    }
    Ok(())
}
