//! Pages of texts.
use ecma_command::words::{Asked, Face, Named};
use ecma_faces::telling::tell;
use ecma_options::Options;
use ecma_place::{BytePos, StringInput};
use ecma_positions::Columns;
use ecma_report::report::Report;
use std::alloc::{AllocError, Global};
use std::test::Fail;

/// The name of a file, its text, what the page begins with, and what it ends with behind its stylesheet.
const ROWS: &[(&str, &str, &str, &str)] = &[
    (
        "a.js",
        "",
        "<!doctype html>\n<html lang=\"en\">\n<head>\n<meta charset=\"utf-8\">\n<meta name=\"viewport\" content=\"width=device-width, initial-scale=1\">\n<meta name=\"color-scheme\" content=\"light dark\">\n<title>a.js</title>\n<style>\n",
        "</style>\n</head>\n<body>\n<div class=\"page\" translate=\"no\">\n<pre class=\"lines\" aria-hidden=\"true\">\n<i></i>\n</pre>\n<pre class=\"ecma\">\n</pre>\n</div>\n</body>\n</html>\n",
    ),
    // Line feeds alone end lines, and what a name has of markup is none.
    (
        "</title>&\0.ts",
        "a\r\n<b\n",
        "<!doctype html>\n<html lang=\"en\">\n<head>\n<meta charset=\"utf-8\">\n<meta name=\"viewport\" content=\"width=device-width, initial-scale=1\">\n<meta name=\"color-scheme\" content=\"light dark\">\n<title>&lt;/title&gt;&amp;\u{fffd}.ts</title>\n<style>\n",
        "<pre class=\"lines\" aria-hidden=\"true\">\n<i></i>\n<i></i>\n<i></i>\n</pre>\n<pre class=\"ecma\">\n<span class=\"name\">a</span>&#13;\n&lt;<span class=\"name\">b</span>\n</pre>\n</div>\n</body>\n</html>\n",
    ),
];

/// What is written of a text as a page.
fn page(alloc: Global, name: &str, text: &str) -> Result<Vec<u8>, AllocError> {
    let mut out = Vec::new(alloc);
    if !StringInput::fits(text, BytePos(0)) {
        return Ok(out);
    }
    let asked = Asked {
        face: Face::Html,
        options: Options::default(),
        json: false,
        lines: false,
        columns: Columns::Bytes,
        colours: false,
        commonjs: false,
        values: false,
        page: true,
    };
    let mut report = Report::new(alloc, asked, name, text);
    let named = Named {
        places: &[],
        by_flag: false,
    };
    // Where the telling stops, nothing is written.
    let _ = tell(&mut report, named, &mut out);
    Ok(out)
}

/// Whether a part stands in a page.
fn has(page: &[u8], part: &[u8]) -> bool {
    page.windows(part.len().max(1)).any(|window| window == part)
}

/// Whether a page begins and ends so, and names no other file.
fn is_page(page: &[u8], front: &str, back: &str) -> bool {
    page.starts_with(front.as_bytes())
        && page.ends_with(back.as_bytes())
        && !has(page, b"http:")
        && !has(page, b"https:")
        && !has(page, b"url(")
        && !has(page, b"@import")
        && !has(page, b" src")
        && !has(page, b" href")
        && !has(page, b"<script")
}

#[test]
fn texts_have_their_pages(rt: HostRuntime) -> Result<(), Fail> {
    for (name, text, front, back) in ROWS {
        assert!(rt;
            is_page(&page(rt.alloc(), name, text)?, front, back),
            "{name}"
        );
    }
    Ok(())
}
