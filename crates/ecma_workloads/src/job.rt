//! What all jobs share: how many texts of which length they read, and the number that all results go into.
use crate::digest::Digest;
use ecma_samples::{Pool, Sample};
use std::alloc::{AllocError, Global};

/// How many times as many bytes a job reads as in its small form.
const SMALLER: usize = 256;

/// A job over texts that a seed gives.
#[derive(Clone, Copy)]
pub struct Job {
    pub alloc: Global,
    pub seed: u64,
    /// Whether it is the small form, which shows that all calls run.
    pub small: bool,
    /// How many pools were made.
    pools: u64,
    pub digest: Digest,
}

impl Job {
    pub fn new(alloc: Global, seed: u64, small: bool) -> Job {
        Job {
            alloc,
            seed,
            small,
            pools: 0,
            digest: Digest::new(),
        }
    }

    /// How many texts are read in place of so many.
    pub fn texts(&self, count: usize) -> usize {
        if self.small { 1 } else { count }
    }

    /// How long a text is in place of so many bytes.
    pub fn bytes(&self, count: usize) -> usize {
        if self.small { count / SMALLER } else { count }
    }

    /// A pool of texts of a kind, other than those of pools before.
    pub fn pool(&mut self, sample: Sample) -> Result<Pool, AllocError> {
        self.pools = self.pools.wrapping_add(1);
        let seed = self.seed.wrapping_add(self.pools << 32);
        Pool::new(self.alloc, sample, seed)
    }
}
