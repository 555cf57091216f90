//! The imports and exports of all tokens of a text.
ghost use Rattle.std.specs.Prelude.{◌≡◌, [], length, IfOk, OnOk};
ghost use Rattle.ecma_modules.specs.Modules as modules;
ghost use Rattle.ecma_modules.specs.Scans as scans;

use crate::region::ModuleToken;
use crate::scan::Scan;
use ecma_module_table::rows::{Export, Import, ImportTold, ModuleOptions};
use std::alloc::{AllocError, Global};
use std::marker::Model;

/// What a module imports and exports.
#[derive(Drop)]
pub struct Module {
    /// In the order in which they begin.
    pub imports: Vec<Import>,
    /// In the order of their names.
    pub exports: Vec<Export>,
    /// Whether there is nothing but imports, and exports that declare nothing.
    pub is_facade: bool,
    /// Whether there is an import or export, or `import.meta`.
    pub has_module_syntax: bool,
}

/// Adds what is told of an import.
fn take_import(imports: &mut Vec<Import>, told: ImportTold) -> Result<(), AllocError>
    ensures { OnOk result (imports.new.items ≡ modules.import_added told imports.old.items) }
{
    match told {
        ImportTold::Row(row) | ImportTold::Begun(row) => imports.push(row)?,
        ImportTold::Ended(number, row) => {
            if number < imports.len() {
                imports[number] = row;
            }
        }
    }
    Ok(())
}

/// Adds what is told of an import, if anything is.
fn take_told(imports: &mut Vec<Import>, told: Option<ImportTold>) -> Result<(), AllocError>
    ensures { OnOk result (imports.new.items ≡ modules.imports_behind told imports.old.items) }
{
    match told {
        Some(told) => take_import(imports, told),
        None => Ok(()),
    }
}

/// Adds what is told of an export, if anything is.
fn take_export(exports: &mut Vec<Export>, told: Option<Export>) -> Result<(), AllocError>
    ensures { OnOk result (exports.new.items ≡ modules.exports_behind told exports.old.items) }
{
    match told {
        Some(row) => exports.push(row)?,
        None => {}
    }
    Ok(())
}

/// Adds the calls that the text does not close.
fn take_calls(imports: &mut Vec<Import>, scan: &mut Scan) -> Result<(), AllocError>
    ensures { OnOk result (imports.new.items ≡ modules.imports_closed (length scan.old.calls) scan.old imports.old.items) }
{
    'calls: for left in 0..scan.open_calls() {
        take_told(imports, scan.end_call())?;
    }
    Ok(())
}

/// Gathers what the tokens of a text import and export, one after another, for who reads a text and keeps no list of its tokens:
/// `take` for each token, then `finish`.
#[derive(Drop)]
pub struct Gathering {
    scan: Scan,
    imports: Vec<Import>,
    exports: Vec<Export>,
}

impl Model for Gathering {
    ghost use Rattle.ecma_modules.specs.Modules.{GatheringView, gathering};

    ghost Value = { GatheringView };

    ghost view = { λ g. gathering g.scan g.imports.items g.exports.items };
}

impl Gathering {
    /// Before the first token of a text, which does not allocate.
    pub fn new(alloc: Global, options: ModuleOptions) -> Gathering
        ensures { result ≡ modules.gathered options [] }
    {
        Gathering {
            scan: Scan::new(alloc, options),
            imports: Vec::new(alloc),
            exports: Vec::new(alloc),
        }
    }

    /// Takes one token more, which tells something.
    #[inline(never)]
    fn take_told(&mut self, token: &ModuleToken) -> Result<(), AllocError>
        ensures { OnOk result (self.new ≡ modules.gathered_with self.old token.now) }
    {
        let told = self.scan.step(token)?;
        take_told(&mut self.imports, told.import)?;
        take_export(&mut self.exports, told.export)?;
        Ok(())
    }

    /// Takes one token more.
    ///
    /// # Errors
    ///
    /// `AllocError` where there is no memory for a row or a call that begins. What is then gathered is not said.
    #[inline]
    pub fn take(&mut self, token: &ModuleToken) -> Result<(), AllocError>
        ensures { OnOk result (self.new ≡ modules.gathered_with self.old token.now) }
    {
        if self.scan.pass(token) {
            return Ok(());
        }
        self.take_told(token)
    }

    /// What all tokens import and export, behind the last of them.
    ///
    /// # Errors
    ///
    /// `AllocError` where there is no memory for what the end of the text makes complete.
    pub fn finish(self) -> Result<Module, AllocError>
        ensures imports { IfOk result (λ m. m.imports.items ≡ modules.imports_at_end self.scan self.imports) }
        ensures exports { IfOk result (λ m. m.exports.items ≡ modules.exports_at_end self.scan self.exports) }
        ensures facade { IfOk result (λ m. m.is_facade ≡ (scans.ended_scan self.scan).known.is_facade) }
        ensures syntax { IfOk result (λ m. m.has_module_syntax ≡ (scans.ended_scan self.scan).known.has_module_syntax) }
    {
        let Gathering {
            mut scan,
            mut imports,
            mut exports,
        } = self;
        let told = scan.end();
        let is_facade = scan.is_facade();
        let has_module_syntax = scan.has_module_syntax();
        take_told(&mut imports, told.import)?;
        take_export(&mut exports, told.export)?;
        take_calls(&mut imports, &mut scan)?;
        Ok(Module {
            imports,
            exports,
            is_facade,
            has_module_syntax,
        })
    }
}

/// What the tokens of a text import and export.
///
/// # Errors
///
/// `AllocError` where allocation fails.
pub fn module_of(
    alloc: Global,
    options: ModuleOptions,
    tokens: &[ModuleToken],
) -> Result<Module, AllocError>
    ensures imports { IfOk result (λ m. m.imports.items ≡ modules.imports_of options tokens.now) }
    ensures exports { IfOk result (λ m. m.exports.items ≡ modules.exports_of options tokens.now) }
    ensures facade { IfOk result (λ m. m.is_facade ≡ modules.is_facade options tokens.now) }
    ensures syntax { IfOk result (λ m. m.has_module_syntax ≡ modules.has_module_syntax options tokens.now) }
{
    let mut gathering = Gathering::new(alloc, options);
    'tokens: for token in tokens {
        gathering.take(token)?;
    }
    gathering.finish()
}
