//! Rows of texts as HTML.
use ecma_html::html_text;
use ecma_place::{BytePos, StringInput};
use ecma_state::Settings;
use ecma_syntax::{Context, EsVersion, NumberRule, Syntax};
use std::alloc::{AllocError, Global};
use std::test::Fail;

/// A text, and what stands in the element.
const ROWS: &[(&str, &str)] = &[
    ("", ""),
    (
        "a<b&&c>d",
        "<span class=\"name\">a</span>&lt;<span class=\"name\">b</span>&amp;&amp;<span class=\"name\">c</span>&gt;<span class=\"name\">d</span>",
    ),
    (
        "if(x.if)null//c",
        "<span class=\"keyword\">if</span>(<span class=\"name\">x</span>.<span class=\"property\">if</span>)<span class=\"literal\">null</span><span class=\"comment\">//c</span>",
    ),
    (
        "x=/<a>/g",
        "<span class=\"name\">x</span>=<span class=\"regexp\">/&lt;a&gt;/g</span>",
    ),
    (
        "'a'\r\n+1",
        "<span class=\"string\">'a'</span>&#13;\n+<span class=\"number\">1</span>",
    ),
    (
        "`a${b}`",
        "<span class=\"template\">`</span><span class=\"template\">a</span>${<span class=\"name\">b</span>}<span class=\"template\">`</span>",
    ),
    ("\0", "<span class=\"error\">\u{fffd}</span>"),
    ("#!x\n", "<span class=\"comment\">#!x</span>\n"),
];

fn is_written(alloc: Global, source: &str, inside: &str) -> Result<bool, AllocError> {
    if !StringInput::fits(source, BytePos(0)) {
        return Ok(false);
    }
    let settings = Settings {
        syntax: Syntax::default(),
        target: EsVersion::default(),
        comments: true,
        numbers: NumberRule::Crate,
    };
    let html = html_text(alloc, &settings, Context::default(), source)?;
    let wanted = format!(in alloc; "<pre class=\"ecma\">\n{inside}</pre>\n")?;
    Ok(html.as_slice() == wanted.as_bytes())
}

#[test]
fn texts_have_their_markup(rt: HostRuntime) -> Result<(), Fail> {
    for (source, inside) in ROWS {
        assert!(rt; is_written(rt.alloc(), source, inside)?, "{source}");
    }
    Ok(())
}
