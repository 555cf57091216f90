//! The pieces of a text in the colours of their classes.
ghost use Rattle.std.specs.Prelude.{◌≡◌, List, ℕ, IfOk};
ghost use Rattle.ecma_classes.specs.Classes.{joined};
ghost use Rattle.ecma_looks.specs.Looks as looks;
ghost use Rattle.ecma_show.specs.Painted as painted;
ghost use Rattle.ecma_styles.specs.Styles.{styled};

use ecma_classes::Piece;
use ecma_show::{Colour, Part};
use ecma_styles::{Class, class_of_piece, taken_behind};
use std::alloc::{AllocError, Global};

/// The colour of a class, where it has one. Our own.
fn colour_of(class: Class) -> Option<Colour>
    ensures { result ≡ looks.colour_of class }
{
    match class {
        Class::Keyword | Class::BuiltIn | Class::Meta => Some(Colour::Magenta),
        Class::Literal | Class::Number | Class::Decorator => Some(Colour::Yellow),
        Class::Name => None,
        Class::Property | Class::Function => Some(Colour::Blue),
        Class::ClassName | Class::TypeName => Some(Colour::Cyan),
        Class::Text | Class::Template => Some(Colour::Green),
        Class::Expression => Some(Colour::Cyan),
        Class::Comment => Some(Colour::Grey),
        Class::Wrong => Some(Colour::Red),
    }
}

/// The colour of what has a class or none.
fn colour_of_style(style: Option<Class>) -> Option<Colour>
    ensures { result ≡ looks.colour_of_style style }
{
    match style {
        Some(class) => colour_of(class),
        None => None,
    }
}

/// The pieces of a text as parts, each in the colour of its class. `classes` are those of the tokens that hold a byte, in order; a
/// token for which there is none has no colour. Our own.
///
/// # Errors
///
/// `AllocError` where allocation fails.
pub fn parts_of(
    alloc: Global,
    classes: &[Option<Class>],
    pieces: &[Piece],
) -> Result<Vec<Part>, AllocError>
    ensures same { IfOk result (λ parts. parts.items ≡ looks.parts_of (styled classes.now pieces.now)) }
    // Where the pieces are a text, so are the parts.
    ensures whole { (text : List ℕ) → joined 0 text pieces.now ≡ text → IfOk result (λ parts. painted.joined text parts.items ≡ text) }
{
    let mut parts = Vec::new(alloc);
    let mut taken = 0;
    for piece in pieces {
        let style = class_of_piece(piece.class, classes, taken);
        parts.push(Part {
            span: piece.span,
            colour: colour_of_style(style),
        })?;
        taken = taken_behind(piece.class, classes, taken);
    }
    Ok(parts)
}
