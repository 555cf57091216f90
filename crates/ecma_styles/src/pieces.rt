//! The classes of the pieces of a text.
ghost use Rattle.std.specs.Prelude.{◌≡◌, drop, map, IfOk};
ghost use Rattle.ecma_styles.specs.Styles.{left_classes, piece_class, style_of, styled};

use crate::class::Class;
use ecma_classes::{Class as PieceClass, Piece};
use std::alloc::{AllocError, Global};

/// The class of a piece, where so many classes of tokens were taken before.
pub fn class_of_piece(class: PieceClass, classes: &[Option<Class>], taken: usize) -> Option<Class>
    ensures { result ≡ piece_class class (drop taken classes.now) }
{
    match class {
        PieceClass::Token => match classes.get(taken) {
            Some(class) => *class,
            None => None,
        },
        PieceClass::Comment => Some(Class::Comment),
        PieceClass::Trivia => None,
    }
}

/// How many classes of tokens are taken behind a piece.
pub fn taken_behind(class: PieceClass, classes: &[Option<Class>], taken: usize) -> usize
    ensures { drop result classes.now ≡ left_classes class (drop taken classes.now) }
{
    match class {
        PieceClass::Token if taken < classes.len() => taken + 1,
        _ => taken,
    }
}

/// The class of each piece of a text, or none. `classes` are those of the tokens that hold a byte, in order; a token for which there
/// is none has none.
///
/// # Errors
///
/// `AllocError` where allocation fails.
pub fn piece_classes(
    alloc: Global,
    classes: &[Option<Class>],
    pieces: &[Piece],
) -> Result<Vec<Option<Class>>, AllocError>
    ensures { IfOk result (λ v. v.items ≡ map style_of (styled classes.now pieces.now)) }
{
    let mut styles = Vec::new(alloc);
    let mut taken = 0;
    for piece in pieces {
        styles.push(class_of_piece(piece.class, classes, taken))?;
        taken = taken_behind(piece.class, classes, taken);
    }
    Ok(styles)
}
