//! Texts put together from parts that are made once, so that making a text takes little time beside reading it.
use crate::random::Random;
use crate::sample::Sample;
use crate::words::push_part;
use std::alloc::{AllocError, Global};

/// How many parts a pool has.
const PARTS: usize = 512;

/// Parts of texts of a kind, each of which may stand behind any other.
#[derive(Drop)]
pub struct Pool {
    parts: Vec<String>,
    random: Random,
}

/// A pattern with all that it leaves open filled in.
fn fill(alloc: Global, random: &mut Random, pattern: &str) -> Result<String, AllocError> {
    let mut out = String::new(alloc);
    for part in pattern.chars() {
        push_part(&mut out, random, part)?;
    }
    Ok(out)
}

impl Pool {
    /// The parts of texts of this kind that a number gives.
    ///
    /// # Errors
    ///
    /// `AllocError` where there is no memory.
    pub fn new(alloc: Global, sample: Sample, seed: u64) -> Result<Pool, AllocError> {
        let mut random = Random::new(seed);
        let mut parts = Vec::new(alloc);
        for _ in 0..PARTS {
            let pattern = random.pick(sample.patterns());
            parts.push(fill(alloc, &mut random, pattern)?)?;
        }
        Ok(Pool { parts, random })
    }

    /// Another text of at least so many bytes, and little more.
    ///
    /// # Errors
    ///
    /// `AllocError` where there is no memory.
    pub fn text(&mut self, alloc: Global, length: usize) -> Result<String, AllocError> {
        let mut out = String::new(alloc);
        for _ in 0..length {
            if out.len() >= length {
                break;
            }
            let at = self.random.below(self.parts.len());
            if let Some(part) = self.parts.get(at) {
                out.push_str(part.as_str())?;
            }
        }
        Ok(out)
    }
}
