//! A run of steps, in which each save is a copy of all, and each way back makes another.
ghost use Rattle.std.specs.Prelude.{◌+◌, ◌<◌, ◌^◌, ◌++◌, ◌∷◌, [], List, length, IfOk, OnOk};
ghost use Rattle.std.specs.Str.{chars};
ghost use Rattle.ecma_state.specs.Session.{Session};
ghost use Rattle.ecma_state.specs.Run.{start_of};
ghost use Rattle.replay_model.specs.Copies.{Follows, with_answer};
ghost use Rattle.ecma_replay.specs.Replay.{Replays};
ghost use Rattle.ecma_state.specs.declared.step.Step.{Step};

use crate::player::Player;
use ecma_place::{BytePos, StringInput};
use ecma_replay::{Answer, Replay};
use ecma_state::settings::Settings;
use ecma_state::step::Step;
use ecma_stream::lexer::Lexer;
use std::alloc::{AllocError, Global};
use std::marker::Model;

/// What a list of steps has come to.
#[derive(Drop)]
struct Runner<'a> {
    player: Player<'a>,
    saves: Vec<Player<'a>>,
    answers: Vec<Answer<'a>>,
}

impl<'a> Model for Runner<'a> {
    ghost use Rattle.std.specs.Coded.{codes};
    ghost use denote.Signature.{static_lft};
    ghost use Rattle.ecma_token.specs.contracts.error.Error as e;
    ghost use Rattle.ecma_token.specs.contracts.token.Token as t;
    ghost use Rattle.replay_model.specs.Copies.{RunnerValue};

    ghost Value = { RunnerValue };

    ghost coded = { Prim.hlevel (codes, (e.the_row static_lft).coded, (t.the_row static_lft).coded) };

    ghost view = { λ r. record { player = r.player; saves = r.saves.items; answers = r.answers.items } };
}

impl<'a> Runner<'a> {
    /// Before any step, which does not allocate.
    fn new(alloc: Global, settings: &Settings, input: StringInput<'a>) -> Runner<'a>
        ensures { Follows (start_of settings.now input.entry) [] result }
    {
        let lexer = Lexer::with_settings(alloc, settings, input);
        Runner {
            player: Player::new(alloc, lexer),
            saves: Vec::new(alloc),
            answers: Vec::new(alloc),
        }
    }

    fn save(&mut self) -> Result<Answer<'a>, AllocError>
        ensures { (begin : Session) (xs : List Step) → Follows begin xs self.old → IfOk result (λ answer. Follows begin (xs ++ Step.Save ∷ []) (with_answer self.new answer)) }
    {
        let saved = self.player.copy()?;
        self.saves.push(saved)?;
        Ok(Answer::Done)
    }

    fn back(&mut self, n: usize) -> Result<Answer<'a>, AllocError>
        ensures { (begin : Session) (xs : List Step) → Follows begin xs self.old → IfOk result (λ answer. Follows begin (xs ++ Step.Back n ∷ []) (with_answer self.new answer)) }
    {
        match self.saves.get(n) {
            Some(saved) => {
                let saved = saved.copy()?;
                self.player.go_back(saved);
                Ok(Answer::Done)
            }
            None => Ok(Answer::NoSave),
        }
    }

    /// Takes a step.
    fn respond(&mut self, step: &Step) -> Result<Answer<'a>, AllocError>
        ensures { (begin : Session) (xs : List Step) → Follows begin xs self.old → IfOk result (λ answer. Follows begin (xs ++ step.now ∷ []) (with_answer self.new answer)) }
    {
        match step {
            Step::Read => self.player.read(),
            Step::SetCtx(context) => self.player.set_ctx(*context),
            Step::SetExprAllowed(allowed) => Ok(self.player.set_expr_allowed(*allowed)),
            Step::SetContexts(contexts) => self.player.set_contexts(contexts),
            Step::PopContext => Ok(self.player.pop_context()),
            Step::Reread => Ok(self.player.reread()),
            Step::Withdraw => Ok(self.player.withdraw()),
            Step::Save => self.save(),
            Step::Back(n) => self.back(*n),
            Step::TakeErrors => Ok(self.player.take_errors()),
        }
    }

    /// Takes a step, and keeps its answer.
    fn perform(&mut self, step: &Step) -> Result<(), AllocError>
        ensures { (begin : Session) (xs : List Step) → Follows begin xs self.old → OnOk result (Follows begin (xs ++ step.now ∷ []) self.new) }
    {
        let answer = self.respond(step)?;
        self.answers.push(answer)?;
        Ok(())
    }

    fn finish(self) -> Replay<'a>
        ensures { (begin : Session) (xs : List Step) → Follows begin xs self.entry → Replays begin xs result }
    {
        let Runner {
            player,
            saves: _,
            answers,
        } = self;
        let Player { lexer, kept } = player;
        let (errors, comments, ended) = lexer.into_parts();
        Replay {
            answers,
            kept: kept.into_vec(),
            errors: errors.recorded,
            waiting: errors.waiting,
            comments,
            ended,
        }
    }
}

/// What steps over a text come to that starts at a place, as [`replay`](ecma_replay::replay) answers it: by copies alone,
/// which is plain to see and takes time and memory with the square of the text.
///
/// The caller knows that the text fits its places ([`StringInput::fits`]).
///
/// # Errors
///
/// `AllocError` where there is no memory.
pub fn replay_by_copies<'a>(
    alloc: Global,
    settings: &Settings,
    source: &'a str,
    start: BytePos,
    steps: &[Step],
) -> Result<Replay<'a>, AllocError>
    requires { start.0 + length source.now < 2 ^ 32 }
    ensures { IfOk result (λ r. Replays (start_of settings.now record { start = start.0; text = chars source.now; at = 0 }) steps.now r) }
{
    let mut runner = Runner::new(alloc, settings, StringInput::new(source, start));
    'steps: for step in steps {
        runner.perform(step)?;
    }
    Ok(runner.finish())
}
