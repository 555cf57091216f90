//! Tests of imports and exports, and of slashes.
mod modules;
mod tracked;
