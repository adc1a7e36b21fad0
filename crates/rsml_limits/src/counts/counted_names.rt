ghost use Rattle.std.specs.Prelude.{◌≡◌, IfOk};
ghost use Rattle.rsml_names.specs.PreviousNames as after;

use rsml_names::{Globals, NameList, previous_names};
use rsml_syntax::{NoMemory, Spec};
use std::alloc::Global;
use std::marker::Model;

/// The names that counting asks for: the global ones, and those that stand after `previous`.
#[derive(Drop)]
pub struct CountedNames<'g, 'a> {
    pub globals: &'g Globals<'a>,
    pub previous: NameList<'a>,
}

impl<'g, 'a> Model for CountedNames<'g, 'a> {
    ghost use Rattle.rsml_limits.specs.counts.Counting as spec;

    ghost Value = { spec.CountedNames };

    ghost view = { λ n. record { globals = n.globals.now; previous = n.previous } };
}

impl<'g, 'a> CountedNames<'g, 'a> {
    /// Those of a specification that has these global names.
    pub fn new(
        alloc: Global,
        globals: &'g Globals<'a>,
        spec: &'a Spec,
    ) -> Result<CountedNames<'g, 'a>, NoMemory>
        ensures { IfOk result (λ names. names ≡ record {
          globals = globals.now;
          previous = after.previous_names spec.now;
        }) }
    {
        Ok(CountedNames {
            globals,
            previous: previous_names(alloc, spec)?,
        })
    }
}
