//! Contexts among as many as do not allocate.
use crate::reads::rows::contexts;
use ecma_state::{TokenContext, TokenContexts};
use std::alloc::Global;
use std::io;

/// So many are added that the list of those that are not held in place grows twice.
const MORE: usize = 20;

/// Adds a context, and, where that is refused, again.
fn push(rt: &impl Print, contexts: &mut TokenContexts) -> io::Result<()> {
    let (before, current) = (contexts.len(), contexts.current());
    if contexts.push(TokenContext::Tpl).is_err() {
        let same = contexts.len() == before && contexts.current() == current;
        println!(rt; "refused push of a context: same contexts {same}")?;
        contexts.push(TokenContext::Tpl)?;
    }
    Ok(())
}

fn push_all(rt: &impl Print, contexts: &mut TokenContexts) -> io::Result<()> {
    for _ in 0..MORE {
        push(rt, contexts)?;
    }
    println!(rt;
        "contexts {}, the last {:?}",
        contexts.len(),
        contexts.current()
    )
}

/// Adds contexts.
pub fn play(rt: &impl Print, alloc: Global) -> io::Result<()> {
    println!(rt; "push of a context")?;
    let mut contexts = contexts(alloc)?;
    push_all(rt, &mut contexts)
}
