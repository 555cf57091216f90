//! Tests of the calls of a lexer: copies, depths of contexts, items, slashes that are read again, slots; what it keeps besides
//! tokens, comments and errors, and how they are handed over; going back to checkpoints, and going on from them over the rest
//! of a text, also where they were bytes or data.
mod back;
mod bytes;
mod comments;
mod copies;
mod data;
mod depths;
mod errors;
mod forged;
mod hand_over;
mod items;
mod many;
mod order;
mod others;
mod rereads;
mod rests;
mod rows;
mod slots;
mod taken;
