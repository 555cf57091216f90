//! Rows of what is written: lines and columns, texts as a terminal shows them, errors in order of place.

mod line_starts;
mod order;
mod positions;
mod texts;
