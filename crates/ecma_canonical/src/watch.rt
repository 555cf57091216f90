//! Whether the steps of a run are plain and take no error, as their answers show.
ghost use Rattle.std.specs.Prelude.{◌≡◌, length, map, if◌then◌else◌, slice_get, IfOk, OnOk};
ghost use Rattle.ecma_replay.specs.Replay.{answer_view};
ghost use Rattle.ecma_canonical.specs.Watching as told;
ghost use Rattle.ecma_canonical.specs.Watching.{back_to, behind_step, clean_if, followed, followed_all, is_done, is_token, nothing_watched, none_watched, took_none};

use ecma_replay::Answer;
use ecma_state::step::Step;
use std::alloc::{AllocError, Global};
use std::marker::Model;

/// What is to be known of the steps that count so far.
#[derive(Clone, Copy)]
pub struct Watch {
    /// Whether all of them are plain, and none took an error.
    pub is_clean: bool,
    /// Whether a slash is read again.
    pub rereads: bool,
    /// Whether the newest answer was read again.
    pub was_again: bool,
}

fn is_token(answer: &Answer) -> bool
    ensures { result ≡ told.is_token (answer_view answer.now) }
{
    matches!(answer, Answer::Token(_))
}

fn is_done(answer: &Answer) -> bool
    ensures { result ≡ told.is_done (answer_view answer.now) }
{
    matches!(answer, Answer::Done)
}

/// Whether the answer shows that no error was taken.
fn took_none(answer: &Answer) -> bool
    ensures { result ≡ told.took_none (answer_view answer.now) }
{
    match answer {
        Answer::Errors(errors) => errors.is_empty(),
        _ => true,
    }
}

impl Watch {
    /// Before any step.
    pub fn new() -> Watch
        ensures { result ≡ none_watched }
    {
        Watch {
            is_clean: true,
            rereads: false,
            was_again: false,
        }
    }

    /// Behind a read: while a slash is read again at most one is plain.
    fn behind_read(self, answer: &Answer) -> Watch
        ensures { result ≡ told.behind_read self (answer_view answer.now) }
    {
        Watch {
            is_clean: self.is_clean && !(self.rereads && self.was_again),
            rereads: self.rereads,
            was_again: self.rereads && is_token(answer),
        }
    }

    /// Behind a step by which the run stays clean, or by which it doesn't.
    fn if_clean(self, is_clean: bool) -> Watch
        ensures { result ≡ clean_if is_clean self }
    {
        Watch {
            is_clean: self.is_clean && is_clean,
            rereads: self.rereads,
            was_again: self.was_again,
        }
    }

    /// Behind a step by which a slash is read again, or no longer is.
    fn rereading(self, rereads: bool) -> Watch
        ensures { result ≡ record self { rereads = rereads } }
    {
        Watch {
            is_clean: self.is_clean,
            rereads,
            was_again: self.was_again,
        }
    }

    /// Behind a step that counts, by its answer.
    pub fn behind(self, step: &Step, answer: &Answer) -> Watch
        ensures { result ≡ behind_step self step.now (answer_view answer.now) }
    {
        match step {
            Step::Read => self.behind_read(answer),
            Step::SetCtx(context) => self.if_clean(!context.ignore_error),
            Step::SetExprAllowed(_) => self,
            Step::SetContexts(_) => self.if_clean(false),
            Step::PopContext => self.if_clean(false),
            Step::Reread => self.rereading(self.rereads || is_done(answer)),
            Step::Withdraw => self.rereading(false),
            Step::TakeErrors => self.if_clean(took_none(answer)),
            Step::Save => self,
            Step::Back(_) => self,
        }
    }
}

/// The watch over a list of steps, with those at its saves.
#[derive(Drop)]
struct Watcher {
    watch: Watch,
    saves: Vec<Watch>,
}

impl Model for Watcher {
    ghost use Rattle.ecma_canonical.specs.Watching.{WatcherValue};

    ghost Value = { WatcherValue };

    ghost view = { λ w. record { watch = w.watch; saves = w.saves.items } };
}

impl Watcher {
    fn new(alloc: Global) -> Watcher
        ensures { result ≡ nothing_watched }
    {
        Watcher {
            watch: Watch::new(),
            saves: Vec::new(alloc),
        }
    }

    /// Goes back to what was at a save, if it was made.
    fn go_back(&mut self, save: usize)
        ensures { self.new ≡ back_to self.old (slice_get self.old.saves save) }
    {
        if let Some(saved) = self.saves.get(save) {
            self.watch = *saved;
        }
    }

    /// Takes in a step, by its answer.
    fn follow(&mut self, step: &Step, answer: &Answer) -> Result<(), AllocError>
        ensures { OnOk result (self.new ≡ followed self.old step.now (answer_view answer.now)) }
    {
        match step {
            Step::Save => self.saves.push(self.watch)?,
            Step::Back(save) => self.go_back(*save),
            _ => self.watch = self.watch.behind(step, answer),
        }
        Ok(())
    }
}

/// Whether the steps that count are plain and take no error.
pub fn steps_are_clean(
    alloc: Global,
    steps: &[Step],
    answers: &[Answer],
) -> Result<bool, AllocError>
    requires { length answers.now ≡ length steps.now }
    ensures { IfOk result (λ b. b ≡ (followed_all nothing_watched steps.now (map answer_view answers.now)).watch.is_clean) }
{
    let mut watcher = Watcher::new(alloc);
    'steps: for i in 0..steps.len() {
        watcher.follow(&steps[i], &answers[i])?;
    }
    Ok(watcher.watch.is_clean)
}
