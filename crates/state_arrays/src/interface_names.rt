ghost use Rattle.std.specs.Prelude.{◌≡◌, IfOk, flat_map};
ghost use Rattle.rsml_meaning.specs.Interfaces.{sends_of};
ghost use Rattle.state_arrays.specs.Made.{AreArrays, definitions_made, receives_made};

use crate::declared::instances_of;
use crate::instances::Instances;
use crate::kind::Kind;
use rsml_names::Globals;
use rsml_syntax::{Decl, NoMemory};
use std::alloc::Global;

/// The instances of macros and functions, in one list, of receives, and of sends.
pub struct InterfaceNames<'a> {
    pub definitions: Instances<'a>,
    pub receives: Instances<'a>,
    pub sends: Instances<'a>,
}

impl Drop for InterfaceNames<'_> {
    fn drop(self) {
        let Self {
            definitions: _,
            receives: _,
            sends: _,
        } = self;
    }
}

impl<'a> InterfaceNames<'a> {
    /// The instances that declarations make.
    pub fn new(
        alloc: Global,
        globals: &Globals<'_>,
        decls: &'a [Decl],
    ) -> Result<InterfaceNames<'a>, NoMemory>
        requires definitions { AreArrays globals.now (definitions_made globals.now) decls.now }
        requires receives { AreArrays globals.now (receives_made globals.now) decls.now }
        requires sends { AreArrays globals.now (sends_of globals.now) decls.now }
        ensures definitions { IfOk result (λ n.
            n.definitions ≡ flat_map (definitions_made globals.now) decls.now) }
        ensures receives { IfOk result (λ n.
            n.receives ≡ flat_map (receives_made globals.now) decls.now) }
        ensures sends { IfOk result (λ n. n.sends ≡ flat_map (sends_of globals.now) decls.now) }
    {
        let definitions = instances_of(alloc, globals, Kind::Definition, decls)?;
        let receives = instances_of(alloc, globals, Kind::Receive, decls)?;
        let sends = instances_of(alloc, globals, Kind::Send, decls)?;
        Ok(InterfaceNames {
            definitions,
            receives,
            sends,
        })
    }
}
