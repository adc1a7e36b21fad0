ghost use Rattle.std.specs.Prelude.{◌≡◌, ℕ, ◌≤◌, IfOk, Some, flat_map, slice_get};
ghost use Rattle.rsml_syntax.specs.declared.syntax.Decl as syntax;
ghost use Rattle.rsml_syntax.specs.rules.Globals.{many, size_of};
ghost use Rattle.instance_texts.specs.declared.sorts.Sort.TheVariants as sorts;
ghost use Rattle.instance_texts.specs.Listing.{listed_by};

use crate::listed::Listed;
use crate::listings::listing;
use crate::sorts::Sort;
use rsml_names::Globals;
use rsml_syntax::{Decl, NoMemory};
use std::alloc::Global;

/// The instances of macros and functions, of receives, and of sends.
pub struct Interfaces<'a> {
    pub definitions: Vec<Listed<'a>>,
    pub receives: Vec<Listed<'a>>,
    pub sends: Vec<Listed<'a>>,
}

impl Drop for Interfaces<'_> {
    fn drop(self) {
        let Self {
            definitions: _,
            receives: _,
            sends: _,
        } = self;
    }
}

impl<'a> Interfaces<'a> {
    /// Those that declarations make.
    pub fn new(
        alloc: Global,
        globals: &Globals<'_>,
        decls: &'a [Decl],
    ) -> Result<Interfaces<'a>, NoMemory>
        requires { (k : ℕ) (d : syntax.Decl) → slice_get decls.now k ≡ Some d
            → many globals.now (size_of d) ≤ 64 }
        ensures definitions { IfOk result (λ x.
            x.definitions.items ≡ flat_map (listed_by sorts.Definition globals.now) decls.now) }
        ensures receives { IfOk result (λ x.
            x.receives.items ≡ flat_map (listed_by sorts.Receive globals.now) decls.now) }
        ensures sends { IfOk result (λ x.
            x.sends.items ≡ flat_map (listed_by sorts.Send globals.now) decls.now) }
    {
        let definitions = listing(alloc, globals, Sort::Definition, decls)?;
        let receives = listing(alloc, globals, Sort::Receive, decls)?;
        let sends = listing(alloc, globals, Sort::Send, decls)?;
        Ok(Interfaces {
            definitions,
            receives,
            sends,
        })
    }
}
