ghost use Rattle.std.specs.Prelude.{◌≡◌, IfOk, flat_map};
ghost use Rattle.state_arrays.specs.Made.{AreArrays, inputs_of, previous_of};

use crate::declared::instances_of;
use crate::instances::Instances;
use crate::kind::Kind;
use rsml_names::{Globals, NameList};
use rsml_syntax::{Decl, NoMemory};
use std::alloc::Global;

/// The instances of inputs, and of those that stand after `previous`.
pub struct InputNames<'a> {
    pub inputs: Instances<'a>,
    pub previous: Instances<'a>,
}

impl Drop for InputNames<'_> {
    fn drop(self) {
        let Self {
            inputs: _,
            previous: _,
        } = self;
    }
}

impl<'a> InputNames<'a> {
    /// The instances that declarations make, where these names stand after `previous`.
    pub fn new(
        alloc: Global,
        globals: &Globals<'_>,
        after_previous: &NameList<'_>,
        decls: &'a [Decl],
    ) -> Result<InputNames<'a>, NoMemory>
        requires inputs { AreArrays globals.now (inputs_of globals.now) decls.now }
        requires previous { AreArrays globals.now
            (previous_of after_previous.now globals.now) decls.now }
        ensures inputs { IfOk result (λ n. n.inputs ≡ flat_map (inputs_of globals.now) decls.now) }
        ensures previous { IfOk result (λ n.
            n.previous ≡ flat_map (previous_of after_previous.now globals.now) decls.now) }
    {
        let inputs = instances_of(alloc, globals, Kind::Input, decls)?;
        let previous = instances_of(alloc, globals, Kind::Previous(after_previous), decls)?;
        Ok(InputNames { inputs, previous })
    }
}
