//! A text as HTML, and what it imports.
ghost use Rattle.std.specs.Prelude.{◌<◌, ◌^◌, length};

use crate::settings;
use ecma_html::html_text;
use ecma_imports::imports_text;
use ecma_lexer::syntax::Context;
use std::io;
use std::io::Write;

/// Writes a text as HTML.
pub(crate) fn write_page(rt: &HostRuntime, text: &str) -> io::Result<()>
    requires { length text.now < 2 ^ 32 }
{
    let page = html_text(rt.alloc(), &settings(true), Context::default(), text)?;
    rt.stdout().write_all(&page)
}

/// Writes a line for each string that names a module which a text imports.
pub(crate) fn write_imports(rt: &HostRuntime, text: &str) -> io::Result<()>
    requires { length text.now < 2 ^ 32 }
{
    let lines = imports_text(rt.alloc(), &settings(false), Context::default(), text)?;
    rt.stdout().write_all(&lines)
}
