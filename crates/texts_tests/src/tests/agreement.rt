//! Lists of steps that numbers make, played as callers play them and by copies alone: both come to the same.
use super::commands::{Command, steps_of};
use super::told::{Way, assert_text, gather_told, replay_told};
use ecma_samples::Random;
use ecma_state::{Step, TokenContext};
use listing::listing::{COLLECTING, IGNORING, MODULE, PLAIN, STRICT, Settings};
use std::alloc::{AllocError, Global};
use std::process::Abort;
use std::test::Fail;

/// How many lists are played.
const LISTS: u64 = 800;

/// How many steps the longest have.
const STEPS: usize = 64;

/// Ways back are to saves below this number, of which a short list doesn't make as many.
const SAVES: usize = 4;

/// A script with comments collected, which starts behind others.
pub(super) const SCRIPT: Settings = Settings {
    start: 3,
    ..COLLECTING
};

/// With comments, errors that are recorded or wait, templates, slashes of either kind, and texts that are owned.
pub(super) const TEXTS: &[&str] = &[
    "a / /b/g /*c*/ 1__2 //d\ne /f/ 3",
    "`a${b /*c*/}\\u{64}${`e`}` / f /g /*h*/",
    "/x/g\\u0069 /y/ (/z\n) 0x1_ 'q\\x4'",
    "<!--x\n{ if (a) /b/.c }\n-->d\n1_2 08",
    "f() /*a*/ //b\n{}/c/\n'd\n||||||| e\nf",
    "a 012 \\u0062reak {/**/} \\ \0",
    "/a/ /b/ /c/ /d/",
    "a/b/c/d/e",
    "((({[`${",
    "",
];

fn flags_by(number: usize) -> Settings {
    match number {
        0 => PLAIN,
        1 => STRICT,
        2 => IGNORING,
        _ => MODULE,
    }
}

fn contexts_by(number: usize) -> &'static [TokenContext] {
    match number {
        0 => &[],
        1 => &[TokenContext::BraceStmt, TokenContext::Tpl],
        _ => &[TokenContext::BraceStmt, TokenContext::ParenExpr],
    }
}

/// A step, which is a read about as often as not.
fn command_by(random: &mut Random) -> Command {
    match random.below(32) {
        0 => Command::Flags(flags_by(random.below(4))),
        1 => Command::Allow(random.below(2) == 0),
        2 => Command::Contexts(contexts_by(random.below(3))),
        3 => Command::Pop,
        4 => Command::Withdraw,
        5 => Command::Take,
        6 | 7 | 8 => Command::Reread,
        9 | 10 | 11 => Command::Save,
        12 | 13 | 14 | 15 => Command::Back(random.below(SAVES)),
        _ => Command::Read,
    }
}

fn steps_by(alloc: Global, random: &mut Random) -> Result<Vec<Step>, AllocError> {
    let mut commands = Vec::new(alloc);
    for _ in 0..random.below(STEPS) {
        commands.push(command_by(random))?;
    }
    steps_of(alloc, &commands, 0)
}

/// Plays a list of steps over a text as callers play it, and by copies.
fn assert_copied(
    rt: &impl Abort,
    alloc: Global,
    text: &str,
    steps: &[Step],
) -> Result<(), AllocError> {
    let replayed = replay_told(alloc, SCRIPT, text, steps, Way::Replayed)?;
    let copied = replay_told(alloc, SCRIPT, text, steps, Way::Copied)?;
    assert_text(rt, text, replayed.as_str(), copied.as_str());
    Ok(())
}

/// Gathers what a list of steps reads of a text.
fn assert_gathered(
    rt: &impl Abort,
    alloc: Global,
    text: &str,
    steps: &[Step],
) -> Result<(), AllocError> {
    let gathered = gather_told(alloc, SCRIPT, text, steps)?;
    let left = replay_told(alloc, SCRIPT, text, steps, Way::WithoutAnswers)?;
    assert_text(rt, text, gathered.as_str(), left.as_str());
    Ok(())
}

fn assert_list(rt: &impl Abort, alloc: Global, seed: u64) -> Result<(), AllocError> {
    let mut random = Random::new(seed);
    let text = random.pick(TEXTS);
    let steps = steps_by(alloc, &mut random)?;
    assert_copied(rt, alloc, text, &steps)?;
    assert_gathered(rt, alloc, text, &steps)
}

#[test]
fn replays_agree_with_copies(rt: HostRuntime) -> Result<(), Fail> {
    for seed in 0..LISTS {
        assert_list(&rt, rt.alloc(), seed)?;
    }
    Ok(())
}
