//! What is written of the specifiers of a text.
ghost use Rattle.std.specs.Prelude.{◌≡◌, ◌≤◌, ◌<◌, ◌^◌, ◌++◌, length, IfOk, OnOk};
ghost use Rattle.std.specs.List.{All};
ghost use Rattle.std.specs.Str.{chars};
ghost use Rattle.ecma_classes.specs.Classes.{StandsIn, begin, spans_of_kept};
ghost use Rattle.ecma_imports.specs.Stages.{specifiers_of};
ghost use Rattle.ecma_imports.specs.Lines as rows;
ghost use Rattle.ecma_imports.specs.Lines.{LiesWithin, imports_of, imports_of_steps};

use crate::imported::{Form, Specifier, specifiers};
use ecma_place::BytePos;
use ecma_reader::{Slashes, gather, tokenize};
use ecma_state::{Kept, Settings, Step};
use ecma_stdio::push_pair;
use ecma_syntax::Context;
use std::alloc::{AllocError, Global};

fn form_name(form: Form) -> &'static str
    ensures { result.now ≡ rows.form_name form }
{
    match form {
        Form::Static => "static",
        Form::Dynamic => "dynamic",
    }
}

/// Adds how it is imported, and where it begins and ends, each with a space behind it.
fn push_head(out: &mut Vec<u8>, specifier: Specifier) -> Result<(), AllocError>
    ensures { OnOk result (out.new.items ≡ out.old.items ++ rows.head specifier) }
{
    out.extend_from_slice(form_name(specifier.form).as_bytes())?;
    out.push(b' ')?;
    push_pair(out, specifier.span.lo.0, specifier.span.hi.0)
}

/// Adds the line of a specifier of the text with these bytes.
fn push_line(out: &mut Vec<u8>, bytes: &[u8], specifier: Specifier) -> Result<(), AllocError>
    requires in_order { specifier.span.lo.0 ≤ specifier.span.hi.0 }
    requires within { specifier.span.hi.0 ≤ length bytes.now }
    ensures { OnOk result (out.new.items ≡ out.old.items ++ rows.line bytes.now specifier) }
{
    push_head(out, specifier)?;
    out.extend_from_slice(&bytes[specifier.span.lo.0 as usize..specifier.span.hi.0 as usize])?;
    out.push(b'\n')?;
    Ok(())
}

/// The lines of specifiers of the text with these bytes, which starts at the place 0: `static` or `dynamic`, where the
/// string begins and ends, and the string as it is written.
///
/// # Errors
///
/// `AllocError` where allocation fails.
pub fn specifier_lines(
    alloc: Global,
    bytes: &[u8],
    specifiers: &[Specifier],
) -> Result<Vec<u8>, AllocError>
    requires { All (LiesWithin (length bytes.now)) specifiers.now }
    ensures { IfOk result (λ v. v.items ≡ rows.lines bytes.now specifiers.now) }
{
    let mut out = Vec::new(alloc);
    for specifier in specifiers {
        push_line(&mut out, bytes, *specifier)?;
    }
    Ok(out)
}

/// The lines of what a text imports, by its tokens. The text starts at the place 0.
fn imports_of_kept(alloc: Global, source: &str, kept: &[Kept]) -> Result<Vec<u8>, AllocError>
    requires { All (StandsIn (begin 0 (chars source.now))) (spans_of_kept kept.now) }
    ensures { IfOk result (λ v. v.items ≡ rows.lines source.now (specifiers_of kept.now)) }
{
    let found = specifiers(alloc, kept)?;
    specifier_lines(alloc, source.as_bytes(), &found)
}

/// The lines of what a text imports, by the tokens that a list of steps keeps of it. The text starts at the place 0. Our own.
///
/// # Errors
///
/// `AllocError` where allocation fails.
pub fn imports_of_steps(
    alloc: Global,
    settings: &Settings,
    source: &str,
    steps: &[Step],
) -> Result<Vec<u8>, AllocError>
    requires { length source.now < 2 ^ 32 }
    ensures { IfOk result (λ v. v.items ≡ imports_of_steps settings.now source.now steps.now) }
{
    let gathered = gather(alloc, settings, source, BytePos(0), steps)?;
    imports_of_kept(alloc, source, gathered.kept.as_slice())
}

/// The lines of what a text imports ([`imports_of_steps`]), read to its end in a context, its slashes by the flag.
///
/// # Errors
///
/// `AllocError` where allocation fails.
pub fn imports_text(
    alloc: Global,
    settings: &Settings,
    context: Context,
    source: &str,
) -> Result<Vec<u8>, AllocError>
    requires { length source.now < 2 ^ 32 }
    ensures { IfOk result (λ v. v.items ≡ imports_of settings.now context source.now) }
{
    let read = tokenize(
        alloc,
        settings,
        context,
        source,
        BytePos(0),
        Slashes::ByFlag,
    )?;
    imports_of_kept(alloc, source, read.gathered.kept.as_slice())
}
