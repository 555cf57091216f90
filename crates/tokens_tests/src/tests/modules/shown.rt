//! What is told of a text, as it is written in tables.
use ecma_modules::{Export, Form, Import, Module, Phase};
use ecma_span::Span;
use std::alloc::{AllocError, Global};

/// What is written of a text.
#[derive(Clone, Copy)]
pub enum Told {
    /// Each import: its form, specifier, statement, first argument and attributes.
    Imports,
    /// The same, where nothing is known of what is expected.
    ImportsByFlag,
    /// The same, where each `require(..)` is one too.
    Requires,
    /// Each export: its name, and behind `=` the name in the module.
    Exports,
    /// `facade` where it has nothing but imports and exports that declare nothing, and `module` where it has any.
    Flags,
    /// Which exports the last import has: the number of the first, and how many.
    Owned,
}

fn text_at(text: &str, span: Span) -> &str {
    text.get(span.lo.0 as usize..span.hi.0 as usize)
        .unwrap_or("?")
}

fn form_name(form: Form) -> &'static str {
    match form {
        Form::Static => "static",
        Form::Reexport => "reexport",
        Form::Call => "call",
        Form::Meta => "meta",
        Form::Equals => "equals",
        Form::Ambient => "ambient",
        Form::Require => "require",
    }
}

fn phase_name(phase: Phase) -> &'static str {
    match phase {
        Phase::Evaluation => "",
        Phase::Defer => " defer",
        Phase::Source => " source",
    }
}

fn push_part(
    out: &mut String,
    before: &str,
    text: &str,
    span: Option<Span>,
) -> Result<(), AllocError> {
    match span {
        Some(span) => {
            out.push_str(before)?;
            out.push_str(text_at(text, span))
        }
        None => Ok(()),
    }
}

fn push_head(out: &mut String, row: &Import) -> Result<(), AllocError> {
    out.push_str(form_name(row.form))?;
    out.push_str(phase_name(row.phase))?;
    if row.is_type {
        out.push_str(" type")?;
    }
    Ok(())
}

fn push_import(out: &mut String, text: &str, row: &Import) -> Result<(), AllocError> {
    push_head(out, row)?;
    push_part(out, " ", text, row.specifier.map(|it| it.span))?;
    push_part(out, " | ", text, Some(row.statement))?;
    push_part(out, " | first ", text, row.argument.map(|it| it.span))?;
    push_part(out, " | attributes ", text, row.attributes)
}

fn push_export(out: &mut String, text: &str, row: &Export) -> Result<(), AllocError> {
    if row.is_type {
        out.push_str("type ")?;
    }
    out.push_str(text_at(text, row.name))?;
    push_part(out, "=", text, row.local)
}

fn push_imports(out: &mut String, text: &str, module: &Module) -> Result<(), AllocError> {
    'rows: for row in module.imports.iter() {
        if !out.is_empty() {
            out.push_str(" || ")?;
        }
        push_import(out, text, row)?;
    }
    Ok(())
}

fn push_exports(out: &mut String, text: &str, module: &Module) -> Result<(), AllocError> {
    'rows: for row in module.exports.iter() {
        if !out.is_empty() {
            out.push_str(", ")?;
        }
        push_export(out, text, row)?;
    }
    Ok(())
}

fn flags(module: &Module) -> &'static str {
    match (module.is_facade, module.has_module_syntax) {
        (true, true) => "facade module",
        (true, false) => "facade",
        (false, true) => "module",
        (false, false) => "",
    }
}

fn push_owned(out: &mut String, module: &Module) -> Result<(), AllocError> {
    match module.imports.last() {
        Some(import) => write!(out, "{} {}", import.first_export, import.exports),
        None => Ok(()),
    }
}

fn push_told(out: &mut String, text: &str, module: &Module, told: Told) -> Result<(), AllocError> {
    match told {
        Told::Imports | Told::ImportsByFlag | Told::Requires => push_imports(out, text, module),
        Told::Exports => push_exports(out, text, module),
        Told::Flags => out.push_str(flags(module)),
        Told::Owned => push_owned(out, module),
    }
}

/// What is told of a text.
pub fn shown(alloc: Global, text: &str, module: &Module, told: Told) -> Result<String, AllocError> {
    let mut out = String::new(alloc);
    push_told(&mut out, text, module, told)?;
    Ok(out)
}
