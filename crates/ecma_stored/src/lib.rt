//! Checkpoints as bytes, and as data of serde.
//!
//! [`encode`] and [`decode`] keep a checkpoint outside of a program. `to_bytes.rt`, `from_bytes.rt` and `kinds.rt` have
//! the bytes (`specs/Stored.antt`), `serial.rt` the data of serde. Promised: bytes from outside are a checkpoint or
//! none; whether it is one of a text is asked of `Checkpoint::fits`.
#![tactic(auto)]

mod code;
pub mod from_bytes;
mod kinds;
pub mod laws;
mod parts;
pub mod serial;
pub mod to_bytes;

pub use from_bytes::decode;
pub use serial::StoredCheckpoint;
pub use to_bytes::encode;
