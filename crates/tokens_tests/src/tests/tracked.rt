//! Rows of tracked lexers: what they read and expect, copies, and going back; and of tracks: slashes, and brackets within
//! brackets.
mod back;
mod copies;
mod depth;
mod driver;
mod reading;
mod refusals;
mod rows;
mod slashes;
mod tracking;
