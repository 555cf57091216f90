//! Options of the programs: how a text is read, and the settings and the context that this means.
//!
//! The programs and the rows of numbers share them. Promised: `Options::settings` and `Options::context` are what the options
//! mean. `specs/Begin.antt` has the session that begins a run.
#![tactic(auto)]

pub mod options;

pub use options::Options;
