//! The classes of a run's tokens.
ghost use Rattle.std.specs.Prelude.{◌≡◌, true, IfOk, OnOk};
ghost use Rattle.ecma_styles.specs.Tokens as tokens;

use crate::beside::Beside;
use crate::class::Class;
use crate::role::class_at;
use ecma_roles::{Part, Track};
use ecma_state::Kept;
use ecma_token::TokenKind;
use std::alloc::{AllocError, Global};

/// The kind of the first token, if no line terminator comes before it.
fn next_kind(behind: &[Kept]) -> Option<TokenKind>
    ensures { result ≡ tokens.next_kind behind.now }
{
    match behind {
        [next, ..] if !next.flag => Some(next.kind),
        _ => None,
    }
}

/// Takes one token more into account; most are without the table.
fn follow(track: &mut Track, token: &Kept) -> Result<(), AllocError>
    ensures { OnOk result (track.new ≡ tokens.behind track.old token.now) }
{
    if track.pass_kind(token.kind, token.flag) {
        return Ok(());
    }
    track.step(&Part::of_kind(token.kind, token.flag))
}

/// The classes of the tokens that hold a byte, in order: each by its kind, by the kinds beside it, and by what a track of the
/// tokens expects before and behind it. The track is one of a module in TypeScript, whatever the text is.
///
/// # Errors
///
/// `AllocError` where allocation fails.
pub fn token_classes(alloc: Global, kept: &[Kept]) -> Result<Vec<Option<Class>>, AllocError>
    ensures { IfOk result (λ v. v.items ≡ tokens.token_classes kept.now) }
{
    let mut classes = Vec::new(alloc);
    let mut track = Track::new(alloc, true, true);
    let mut earlier = None;
    let mut previous = None;
    for (at, token) in kept.iter().enumerate() {
        let before = track.state();
        follow(&mut track, token)?;
        let beside = Beside {
            before,
            behind: track.state(),
            over: track.top(),
            earlier,
            previous,
            flag: token.flag,
            next: next_kind(&kept[at + 1..]),
        };
        if token.span.lo.0 < token.span.hi.0 {
            classes.push(class_at(token.kind, beside))?;
        }
        earlier = previous;
        previous = Some(token.kind);
    }
    Ok(classes)
}
