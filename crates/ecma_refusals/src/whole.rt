//! Lists of steps played over texts, and the canonical texts of these.
ghost use Rattle.std.specs.Prelude.{◌+◌, ◌<◌, ◌^◌, length};

use crate::again;
use crate::reads::rows::{DEEP, START, TEXTS, contexts, module, settings};
use crate::reads::told::{tell_comments, tell_errors};
use ecma_canonical::{Canon, canonical};
use ecma_place::StringInput;
use ecma_replay::{Gathered, Replay, gather, replay};
use ecma_state::Step;
use std::alloc::Global;
use std::io;

fn tell_replay(rt: &impl Print, found: &Replay) -> io::Result<()> {
    let answers = found.answers.len();
    let kept = found.kept.len();
    println!(rt; "answers {answers}, kept {kept}, ended {}", found.ended)?;
    tell_errors(rt, "recorded", found.errors.as_slice())?;
    tell_errors(rt, "waiting", found.waiting.as_slice())?;
    tell_comments(rt, &found.comments)
}

/// Whether what was gathered has the tokens of what was replayed, its end, and its numbers of recorded errors, of those
/// that wait and of comments.
fn is_same(gathered: &Gathered, found: &Replay) -> bool {
    let same_numbers = gathered.errors.len() == found.errors.len()
        && gathered.waiting.len() == found.waiting.len()
        && gathered.comments.len() == found.comments.len();
    same_numbers
        && gathered.ended == found.ended
        && gathered.kept.as_slice() == found.kept.as_slice()
}

/// Gathers what was replayed, and says so where it comes to something else.
fn gather_text(
    rt: &impl Print,
    alloc: Global,
    text: &str,
    steps: &[Step],
    found: &Replay,
) -> io::Result<()>
    requires { 0 + length text.now < 2 ^ 32 }
{
    let settings = settings();
    let gathered = again!(
        rt,
        "refused gather",
        gather(alloc, &settings, text, START, steps)
    );
    if is_same(&gathered, found) {
        return Ok(());
    }
    println!(rt; "gathered otherwise")
}

fn tell_both(
    rt: &impl Print,
    alloc: Global,
    text: &str,
    steps: &[Step],
    found: &Replay,
) -> io::Result<()>
    requires { 0 + length text.now < 2 ^ 32 }
{
    tell_replay(rt, found)?;
    gather_text(rt, alloc, text, steps, found)
}

fn replay_text(rt: &impl Print, alloc: Global, text: &str, steps: &[Step]) -> io::Result<()>
    requires { 0 + length text.now < 2 ^ 32 }
{
    let settings = settings();
    let found = again!(
        rt,
        "refused replay",
        replay(alloc, &settings, text, START, steps)
    );
    tell_both(rt, alloc, text, steps, &found)
}

fn tell_canon(rt: &impl Print, alloc: Global, text: &str, steps: &[Step]) -> io::Result<()>
    requires { 0 + length text.now < 2 ^ 32 }
{
    let settings = settings();
    let canon = again!(
        rt,
        "refused canonical",
        canonical(alloc, &settings, text, START, steps)
    );
    match canon {
        Canon::Text(text) => println!(rt; "canonical {:?}", text.as_str()),
        Canon::NotClean => println!(rt; "not clean"),
        Canon::TooLong => println!(rt; "too long"),
    }
}

fn play_text(rt: &impl Print, alloc: Global, text: &str, steps: &[Step]) -> io::Result<()> {
    if !StringInput::fits(text, START) {
        return Ok(());
    }
    println!(rt; "replay {text:?}")?;
    replay_text(rt, alloc, text, steps)?;
    tell_canon(rt, alloc, text, steps)
}

fn play_texts(rt: &impl Print, alloc: Global, steps: &[Step]) -> io::Result<()> {
    for text in TEXTS {
        play_text(rt, alloc, text, steps)?;
    }
    Ok(())
}

fn play_reads(rt: &impl Print, alloc: Global) -> io::Result<()> {
    let reads = [
        Step::Read,
        Step::Read,
        Step::Read,
        Step::Read,
        Step::Read,
        Step::Read,
        Step::Read,
        Step::Read,
    ];
    play_texts(rt, alloc, &reads)
}

fn play_module(rt: &impl Print, alloc: Global) -> io::Result<()> {
    let module = [Step::Read, Step::Read, Step::Read, Step::SetCtx(module())];
    play_text(rt, alloc, "a\n-->x\nb", &module)
}

fn play_back(rt: &impl Print, alloc: Global) -> io::Result<()> {
    let back = [
        Step::SetContexts(contexts(alloc)?),
        Step::Read,
        Step::Read,
        Step::Save,
        Step::Read,
        Step::Back(0),
        Step::Read,
        Step::TakeErrors,
    ];
    play_text(rt, alloc, DEEP, &back)
}

/// Plays reads over each text, what turns out to be a module, and a way back among many contexts.
pub fn play(rt: &impl Print, alloc: Global) -> io::Result<()> {
    play_reads(rt, alloc)?;
    play_module(rt, alloc)?;
    play_back(rt, alloc)
}
