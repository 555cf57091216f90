//! Each call that allocates, a line for each answer.
//!
//! Where memory is refused a call says in one line what is there then; then it is made again, so that all other lines
//! are those of a run in which nothing is refused. `bench/refusals` refuses each request in turn and compares.
//!
//! Reading is in `reads`, and `again` makes a call again that was refused. `errors` adds errors, `comments` comments, also so many that copies share them, and `deep`
//! contexts; `whole` plays lists of steps, `cover` covers texts with pieces, `faces` has HTML, imports, and where lines begin,
//! `numbers` rows of numbers, `stored` checkpoints as bytes.
#![tactic(auto)]

mod again;
mod comments;
mod cover;
mod deep;
mod errors;
mod faces;
mod numbers;
mod reads;
mod stored;
mod whole;

use crate::reads::{many, reading, told};
use std::io;

fn main(rt: HostRuntime) -> io::Result<()> {
    let alloc = rt.alloc();
    reading::play(&rt, alloc)?;
    many::play(&rt, alloc)?;
    errors::play(&rt, alloc)?;
    comments::play(&rt, alloc)?;
    deep::play(&rt, alloc)?;
    comments::play_shared(&rt, alloc)?;
    whole::play(&rt, alloc)?;
    cover::play(&rt, alloc)?;
    faces::play(&rt, alloc)?;
    numbers::play(&rt, alloc)?;
    stored::play(&rt, alloc)?;
    told::play(&rt, alloc)
}
