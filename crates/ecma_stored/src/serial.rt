//! Checkpoints as data of serde. Our own.
ghost use Rattle.std.specs.Prelude.{◌≡◌, None, IfOk, IfSome};
ghost use Rattle.ecma_checkpoint.specs.Checkpoints.{CheckpointValue};
ghost use Rattle.ecma_stored.specs.Stored as stored;

use crate::from_bytes::decode;
use crate::to_bytes::encode;
use ecma_checkpoint::Checkpoint;
use serde::{Deserialize, Serialize};
use std::alloc::{AllocError, Global};

/// The bytes of a checkpoint, which as data is a struct with the key `bytes` and a list of numbers. Data from outside may hold
/// any bytes.
#[derive(Debug, Drop, PartialEq, Serialize, Deserialize)]
pub struct StoredCheckpoint {
    pub bytes: Vec<u8>,
}

impl StoredCheckpoint {
    /// The bytes of a checkpoint.
    ///
    /// # Errors
    ///
    /// `AllocError` as of [`encode`].
    pub fn of(alloc: Global, from: &Checkpoint) -> Result<StoredCheckpoint, AllocError>
        ensures { IfOk result (λ s. s.bytes.items ≡ stored.stored from.now) }
    {
        Ok(StoredCheckpoint {
            bytes: encode(alloc, from)?,
        })
    }

    /// The checkpoint of these bytes; `None` where they are those of no checkpoint.
    ///
    /// # Errors
    ///
    /// `AllocError` as of [`decode`].
    pub fn checkpoint(&self, alloc: Global) -> Result<Option<Checkpoint>, AllocError>
        ensures some { IfOk result (λ c. IfSome c (λ c. stored.stored c ≡ self.now.bytes.items)) }
        ensures none { IfOk result (λ c. c ≡ None → (d : CheckpointValue) → stored.IsStorable d → stored.stored d ≡ self.now.bytes.items → ⊥) }
    {
        decode(alloc, &self.bytes)
    }
}
