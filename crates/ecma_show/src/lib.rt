//! A text for a terminal: its lines behind their numbers, in colours, each error underlined below its line.
//!
//! What is written is a definition (specs/Shown.antt), with a law (specs/Unshown.antt): without the numbers, the lines
//! of marks and the sequences that set colours, it is the text again. Nothing that a text holds controls the terminal:
//! control characters are shown as their pictures, and those from U+0080 to U+009F, which have none, as U+FFFD. The crate
//! knows colours and places, and no tokens.
//!
//! | File | Has |
//! |---|---|
//! | colour.rt | colours, and the sequences that set them |
//! | paint.rt | the parts of a text in their colours |
//! | frame.rt | the margin with the number of a line |
//! | mark.rt | the message about a part of a text |
//! | pointer.rt | the line below a line of text that points at such a part, with the message |
//! | numbered.rt | lines behind their numbers, and marks below them |
//! | text.rt | all of it |
#![tactic(auto)]

mod colour;
mod frame;
mod mark;
mod numbered;
mod paint;
mod pointer;
mod text;

pub use colour::Colour;
pub use mark::Mark;
pub use paint::Part;
pub use text::show;
