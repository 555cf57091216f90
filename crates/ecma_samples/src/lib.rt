//! Texts to measure on: scripts, TypeScript, declarations and data of the shape that real files have, and awkward ones.
//! Each number gives another text of the same kind and size.
#![tactic(auto)]

mod pool;
mod random;
mod sample;
mod words;

pub use pool::Pool;
pub use random::Random;
pub use sample::Sample;
