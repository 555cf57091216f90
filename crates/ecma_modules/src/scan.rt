//! A machine that takes the tokens of a text one after another, and tells its imports and exports.
ghost use Rattle.std.specs.Prelude.{◌≡◌, [], false, length, IfOk, IfSome, IsOk, IsTrue, OnErr, OnOk};
ghost use Rattle.ecma_modules.specs.Known.{Passes, at_of, nothing_told, opens};
ghost use Rattle.ecma_modules.specs.Scans as scans;

use crate::calls::{At, Calls};
use crate::known::Known;
use crate::region::ModuleToken;
use ecma_module_table::part::Part;
use ecma_module_table::rows::{ImportTold, ModuleOptions, Told};
use ecma_module_table::stage::Stage;
use std::alloc::{AllocError, Global};
use std::marker::Model;

/// A machine that takes tokens and tells what is imported and exported.
#[derive(Drop)]
pub struct Scan {
    known: Known,
    calls: Calls,
}

impl Model for Scan {
    ghost use Rattle.ecma_modules.specs.Scans.{ScanView, scan};

    ghost Value = { ScanView };

    ghost view = { λ s. scan s.known s.calls };
}

impl Scan {
    /// Before the first token of a text, which does not allocate.
    pub fn new(alloc: Global, options: ModuleOptions) -> Scan
        ensures { result ≡ scans.first_scan options }
    {
        Scan {
            known: Known::none(options),
            calls: Calls::new(alloc),
        }
    }

    /// The calls that are open, behind a token; and what that tells of them.
    fn step_calls(&mut self, at: At) -> Result<Option<ImportTold>, AllocError>
        ensures known { self.new.known ≡ self.old.known }
        ensures calls { OnOk result (self.new.calls ≡ scans.calls_after self.old.known at self.old.calls) }
        ensures told { IfOk result (λ told. told ≡ scans.told_of_calls self.old.known at self.old.calls) }
        ensures err { OnErr result (self.new ≡ self.old) }
        ensures free { opens self.old.known at ≡ false → IsOk result }
    {
        if !self.known.opens(at) {
            return Ok(self.calls.step(at));
        }
        let call = self.known.call(at);
        self.calls.push(call)?;
        Ok(Some(ImportTold::Begun(call.row(at.span.hi))))
    }

    /// The stage behind a token that tells nothing and changes nothing else, where that is known at once.
    #[inline]
    fn quiet_stage(&self, part: Part) -> Option<Stage>
        ensures passes { IfSome result (λ stage. Passes stage part self.now.known) }
        ensures none { IfSome result (λ stage. self.now.calls ≡ []) }
    {
        if self.calls.count() > 0 {
            return None;
        }
        self.known.passed(part)
    }

    /// Takes one token more where that tells nothing, as of most tokens is known at once.
    #[inline]
    pub(crate) fn pass(&mut self, token: &ModuleToken) -> bool
        ensures passed { IsTrue result → (self.new ≡ scans.scanned self.old token.now) × (scans.told self.old token.now ≡ nothing_told) }
        ensures stays { result ≡ false → self.new ≡ self.old }
    {
        let at = self.known.at(*token);
        match self.quiet_stage(at.part) {
            Some(stage) => {
                self.known.pass(stage, &token.kept, at);
                true
            }
            None => false,
        }
    }

    /// Takes one token more, whatever it tells. Its large values are made only where they are needed.
    #[inline(never)]
    fn step_fully(&mut self, token: &ModuleToken) -> Result<Told, AllocError>
        ensures scan { OnOk result (self.new ≡ scans.scanned self.old token.now) }
        ensures told { IfOk result (λ told. told ≡ scans.told self.old token.now) }
        ensures err { OnErr result (self.new ≡ self.old) }
        ensures free { opens self.old.known (at_of self.old.known token.now) ≡ false → IsOk result }
    {
        let at = self.known.at(*token);
        let call = self.step_calls(at)?;
        let (known, told) = self.known.step(token.kept.flag, at);
        self.known = known.behind(token.kept, at);
        Ok(Told {
            import: call.or(told.import),
            export: told.export,
        })
    }

    /// Takes one token more, and tells what it makes complete. It allocates only where a call of `import` begins.
    ///
    /// # Errors
    ///
    /// `AllocError` where allocation fails for the call that begins. The machine is then unchanged.
    pub fn step(&mut self, token: &ModuleToken) -> Result<Told, AllocError>
        ensures scan { OnOk result (self.new ≡ scans.scanned self.old token.now) }
        ensures told { IfOk result (λ told. told ≡ scans.told self.old token.now) }
        ensures err { OnErr result (self.new ≡ self.old) }
        ensures free { opens self.old.known (at_of self.old.known token.now) ≡ false → IsOk result }
    {
        if self.pass(token) {
            return Ok(Told {
                import: None,
                export: None,
            });
        }
        self.step_fully(token)
    }

    /// Tells what the end of the text makes complete, but for calls that are open. It is meant to be called once, behind the
    /// last token.
    pub fn end(&mut self) -> Told
        ensures scan { self.new ≡ scans.ended_scan self.old }
        ensures told { result ≡ scans.told_at_end self.old }
    {
        let (known, told) = self.known.step(true, self.known.end());
        self.known = known;
        told
    }

    /// Tells that the innermost call ends with the text, which does not close it; nothing where no call is open.
    pub fn end_call(&mut self) -> Option<ImportTold>
        ensures scan { self.new ≡ scans.call_ended self.old }
        ensures told { result ≡ scans.told_of_last self.old }
    {
        self.calls.end(self.known.last_at())
    }

    /// How many calls are open.
    pub fn open_calls(&self) -> usize
        ensures { result ≡ length self.now.calls }
    {
        self.calls.count()
    }

    /// Whether the tokens so far are of imports, and of exports that declare nothing.
    pub fn is_facade(&self) -> bool
        ensures { result ≡ self.now.known.is_facade }
    {
        self.known.is_facade
    }

    /// Whether there is an import or export among the tokens so far, or `import.meta`.
    pub fn has_module_syntax(&self) -> bool
        ensures { result ≡ self.now.known.has_module_syntax }
    {
        self.known.has_module_syntax
    }
}
