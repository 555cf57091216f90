//! The moves of the table of tracks: what they do to the frames that are open around the place that is read, and to the
//! state.
//!
//! `nest.rt` has the stack of frames with what they keep of functions, of which as many as real code has are in the
//! value itself. `change.rt` does what a row says to change, `closing.rt` closes brackets and ends what else ends by
//! what is around it, `inside.rt` has the states by the frame that is right around, and `perform.rt` does a whole move.
//! A move takes two frames more at most, for which the caller has made room (`Nest::reserve`), so that none allocates.
//!
//! `specs/Nest.antt` and `specs/Moves.antt` say the same of lists of frames.
#![tactic(auto)]

pub mod change;
mod closing;
mod inside;
pub mod nest;
pub mod perform;
