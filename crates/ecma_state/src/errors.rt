//! What becomes of what is wrong.
ghost use Rattle.std.specs.Prelude.{◌≡◌, ◌++◌, [], false, map, take, OnOk, OnErr, IfErr, IfOk, IsOk};
ghost use Rattle.ecma_token.specs.View.{error_view};
ghost use Rattle.ecma_grammar.specs.Found.{fault_view};
ghost use Rattle.ecma_state.specs.Disposition as dispose;
ghost use Rattle.ecma_state.specs.Errors.{errors_view, Begins};

use crate::error_list::ErrorList;
use ecma_grammar::Blame;
use ecma_syntax::Context;
use ecma_token::Error;
use std::alloc::{AllocError, Global};
use std::marker::Model;
use std::mem;

/// The errors that were recorded, and those that wait until the code is known to be a module.
#[derive(Drop)]
pub struct ErrorLists<'a> {
    pub recorded: ErrorList<'a>,
    pub waiting: ErrorList<'a>,
}

impl<'a> Model for ErrorLists<'a> {
    ghost use Rattle.std.specs.Coded.{codes};
    ghost use denote.Signature.{static_lft};
    ghost use Rattle.ecma_token.specs.contracts.error.Error as e;
    ghost use Rattle.ecma_state.specs.Errors.{ErrorsValue};

    ghost Value = { ErrorsValue };

    ghost coded = { Prim.hlevel (codes, (e.the_row static_lft).coded) };

    ghost view = { λ e. record { recorded = e.recorded; waiting = e.waiting } };
}

#[tactic(auto, using(crate::proofs::ErrorLemmas::views))]
impl<'a> ErrorLists<'a> {
    /// No errors, which does not allocate.
    pub fn new(alloc: Global) -> ErrorLists<'a>
        ensures { errors_view result ≡ dispose.no_errors }
    {
        ErrorLists {
            recorded: ErrorList::new(alloc),
            waiting: ErrorList::new(alloc),
        }
    }

    /// The same errors, which allocates for each.
    ///
    /// # Errors
    ///
    /// `AllocError` where allocation fails for them.
    pub fn copy(&self, alloc: Global) -> Result<ErrorLists<'a>, AllocError>
        ensures { IfOk result (λ copy. errors_view copy ≡ errors_view self.now) }
    {
        Ok(ErrorLists {
            recorded: self.recorded.copy(alloc)?,
            waiting: self.waiting.copy(alloc)?,
        })
    }

    /// Takes in an error that counts whatever the code is, unless errors are ignored.
    ///
    /// # Errors
    ///
    /// The error itself where it can\'t be allocated. Nothing is then changed.
    fn take_recorded(&mut self, context: &Context, error: Error<'a>) -> Result<(), Error<'a>>
        ensures ok { OnOk result (errors_view self.new ≡ dispose.disposed (errors_view self.old) (error_view error.entry) (dispose.of_recorded context.now)) }
        ensures err { OnErr result (self.new ≡ self.old) }
        ensures back { IfErr result (λ e. e ≡ error.entry) }
        ensures begins { Begins self.old self.new }
    {
        if context.ignore_error {
            Ok(())
        } else {
            self.recorded.push(error)
        }
    }

    /// Takes in an error that counts in module code.
    ///
    /// # Errors
    ///
    /// The error itself where it can\'t be allocated. Nothing is then changed.
    pub fn take_module_mode(&mut self, context: &Context, error: Error<'a>) -> Result<(), Error<'a>>
        ensures ok { OnOk result (errors_view self.new ≡ dispose.disposed (errors_view self.old) (error_view error.entry) (dispose.of_module_mode context.now)) }
        ensures err { OnErr result (self.new ≡ self.old) }
        ensures back { IfErr result (λ e. e ≡ error.entry) }
        ensures begins { Begins self.old self.new }
    {
        if context.module {
            self.recorded.push(error)
        } else {
            self.waiting.push(error)
        }
    }

    /// Takes in a fault.
    ///
    /// # Errors
    ///
    /// The error itself where it can\'t be allocated. Nothing is then changed.
    pub fn take_fault(
        &mut self,
        context: &Context,
        blame: Blame,
        error: Error<'a>,
    ) -> Result<(), Error<'a>>
        ensures ok { OnOk result (errors_view self.new ≡ dispose.disposed (errors_view self.old) (error_view error.entry) (dispose.disposition context.now blame)) }
        ensures err { OnErr result (self.new ≡ self.old) }
        ensures back { IfErr result (λ e. e ≡ error.entry) }
        ensures begins { Begins self.old self.new }
    {
        match blame {
            Blame::Always => self.take_recorded(context, error),
            Blame::Strict if context.strict => self.take_recorded(context, error),
            Blame::Strict | Blame::Module => self.take_module_mode(context, error),
        }
    }

    /// Takes in faults in order, or, where allocation fails, a beginning of them.
    fn take_faults(
        &mut self,
        context: &Context,
        faults: Vec<(Blame, Error<'a>)>,
    ) -> Result<(), AllocError>
        ensures ok { OnOk result (errors_view self.new ≡ dispose.with_faults context.now (errors_view self.old) (map fault_view faults.entry.items)) }
        ensures kept { Begins self.old self.new }
        ensures free { faults.entry.items ≡ [] → IsOk result }
    {
        'faults: for (blame, error) in faults {
            if self.take_fault(context, blame, error).is_err() {
                return Err(AllocError);
            }
        }
        Ok(())
    }

    /// Takes in the faults of a gap, and then those of the token behind it.
    fn take_both(
        &mut self,
        context: &Context,
        of_gap: Vec<(Blame, Error<'a>)>,
        of_token: Vec<(Blame, Error<'a>)>,
    ) -> Result<(), AllocError>
        ensures ok { OnOk result (errors_view self.new ≡ dispose.with_faults context.now (errors_view self.old) (map fault_view of_gap.entry.items ++ map fault_view of_token.entry.items)) }
        ensures kept { Begins self.old self.new }
        ensures free { of_gap.entry.items ≡ [] → of_token.entry.items ≡ [] → IsOk result }
    {
        self.take_faults(context, of_gap)?;
        self.take_faults(context, of_token)
    }

    /// Takes in the faults of a read: those of the gap, and then those of the token.
    ///
    /// It does not allocate where there are none.
    ///
    /// # Errors
    ///
    /// `AllocError` where allocation fails for them. Nothing is then changed.
    pub fn take_read(
        &mut self,
        context: &Context,
        of_gap: Vec<(Blame, Error<'a>)>,
        of_token: Vec<(Blame, Error<'a>)>,
    ) -> Result<(), AllocError>
        ensures ok { OnOk result (errors_view self.new ≡ dispose.with_faults context.now (errors_view self.old) (map fault_view of_gap.entry.items ++ map fault_view of_token.entry.items)) }
        ensures err { OnErr result (self.new ≡ self.old) }
        ensures begins { OnOk result (Begins self.old self.new) }
        ensures free { map fault_view of_gap.entry.items ++ map fault_view of_token.entry.items ≡ [] → IsOk result }
    {
        if of_gap.is_empty() && of_token.is_empty() {
            return Ok(());
        }
        let recorded = self.recorded.len();
        let waiting = self.waiting.len();
        let taken = self.take_both(context, of_gap, of_token);
        if taken.is_err() {
            self.recorded.truncate(recorded);
            self.waiting.truncate(waiting);
        }
        taken
    }

    /// The errors that were recorded. None is recorded then.
    pub fn take_recorded_list(&mut self, alloc: Global) -> ErrorList<'a>
        ensures list { map error_view result ≡ (errors_view self.old).recorded }
        ensures after { errors_view self.new ≡ dispose.none_recorded (errors_view self.old) }
    {
        mem::replace(&mut self.recorded, ErrorList::new(alloc))
    }

    /// Takes in a new context, which does not allocate outside of modules, nor where nothing waits.
    ///
    /// # Errors
    ///
    /// `AllocError` where allocation fails for the errors that waited. Nothing is then changed.
    pub fn enter(&mut self, context: &Context) -> Result<(), AllocError>
        ensures ok { OnOk result (errors_view self.new ≡ dispose.with_context context.now (errors_view self.old)) }
        ensures err { OnErr result (self.new ≡ self.old) }
        ensures outside { context.now.«module» ≡ false → IsOk result }
        ensures none_waiting { (errors_view self.old).waiting ≡ [] → IsOk result }
    {
        if context.module {
            self.recorded.append(&mut self.waiting)
        } else {
            Ok(())
        }
    }
}
