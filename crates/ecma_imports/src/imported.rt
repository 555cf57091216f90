//! The specifiers among tokens.
ghost use Rattle.std.specs.Prelude.{◌≡◌, IfOk};
ghost use Rattle.ecma_imports.specs.Stages.{form_of, specifiers_of};

use crate::stage::{Part, Stage};
use ecma_place::Span;
use ecma_state::Kept;
use std::alloc::{AllocError, Global};

/// How a module is imported.
#[derive(Clone, Copy, Debug, PartialEq, Eq)]
pub enum Form {
    /// By an `import` or `export` declaration.
    Static,
    /// By `import(`.
    Dynamic,
}

/// A string that names a module.
#[derive(Clone, Copy, Debug, PartialEq, Eq)]
pub struct Specifier {
    pub form: Form,
    /// That of the string, with its quotes.
    pub span: Span,
}

/// How a token is imported at a stage, if it is.
fn told(stage: Stage, part: Part) -> Option<Form>
    ensures { result ≡ form_of stage part }
{
    match stage {
        Stage::Import | Stage::From if part == Part::Text => Some(Form::Static),
        Stage::Call if part == Part::Text => Some(Form::Dynamic),
        _ => None,
    }
}

/// The specifiers among the tokens of a text, in order: each string behind `import` at top level, behind `from` of an `import`
/// or `export` there, and first in `import(` anywhere, never behind `.` or `#`.
///
/// Not found are `require(..)`, `import x = require(..)`, declarations inside a namespace or module of TypeScript, and a
/// specifier that begins with no string; of `import("a" + b)` the string is found.
///
/// # Errors
///
/// `AllocError` where allocation fails.
pub fn specifiers(alloc: Global, kept: &[Kept]) -> Result<Vec<Specifier>, AllocError>
    ensures { IfOk result (λ v. v.items ≡ specifiers_of kept.now) }
{
    let mut found = Vec::new(alloc);
    let mut stage = Stage::Nothing;
    let mut depth = 0;
    for token in kept {
        let part = Part::of(token.kind);
        if let Some(form) = told(stage, part) {
            found.push(Specifier {
                form,
                span: token.span,
            })?;
        }
        stage = stage.next(depth, part);
        depth = part.depth_behind(depth);
    }
    Ok(found)
}
