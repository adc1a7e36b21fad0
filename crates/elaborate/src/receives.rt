ghost use Rattle.std.specs.Prelude.{◌≡◌, ◌<◌, IfOk, Some, length, slice_get};
ghost use Rattle.rsml_meaning.specs.Words.{Instance};
ghost use Rattle.rsml_meaning.specs.Chains.{is_external};
ghost use Rattle.rsml_meaning.specs.Instances as instances;
ghost use Rattle.rsml_ground.specs.Grounded.{IsShort};

use crate::external::external;
use interfaces::Interfaces;
use rsml_syntax::{Checked, NoMemory};
use state_arrays::Names;
use std::alloc::Global;
use std::marker::Model;

/// The receives of a specification, and which of its events are external.
pub struct Receives<'a> {
    interfaces: Interfaces<'a>,
    count: u32,
    external: Vec<bool>,
}

impl Drop for Receives<'_> {
    fn drop(self) {
        let Self {
            interfaces: _,
            count: _,
            external: _,
        } = self;
    }
}

impl<'a> Model for Receives<'a> {
    ghost use Rattle.std.specs.Prelude.{◌≡◌, ◌≤◌, length};
    ghost use Rattle.std.specs.Coded.{codes};
    ghost use Rattle.rsml_syntax.specs.declared.syntax.Spec.{Spec};
    ghost use Rattle.rsml_syntax.specs.contracts.syntax.Body as bodies;
    ghost use Rattle.elaborate.specs.Parts.{AreReceives};

    ghost Value = { Spec };

    ghost coded = { Prim.hlevel (codes, bodies.the_row.coded) };

    ghost view = { λ r. r.interfaces };

    ghost invariant = { λ r. AreReceives r.interfaces r.count r.external.items };
}

impl<'a> Receives<'a> {
    /// Those of a specification with so many events.
    pub fn new(
        alloc: Global,
        checked: &'a Checked,
        names: &Names<'_>,
        count: u32,
    ) -> Result<Receives<'a>, NoMemory>
        requires names { names.now ≡ checked.now }
        requires short { IsShort checked.now }
        requires count { count ≡ length (instances.events checked.now) }
        ensures { IfOk result (λ r. r ≡ checked.now) }
    {
        let _ = checked.spec();
        let interfaces = Interfaces::build(alloc, checked, names)?;
        let external = external(alloc, &interfaces, count)?;
        Ok(Receives {
            interfaces,
            count,
            external,
        })
    }

    /// The receives.
    pub fn interfaces(&self) -> &Interfaces<'a>
        ensures { result.now ≡ self.now }
    {
        let _ = &self.external;
        &self.interfaces
    }

    /// How many events there are.
    pub fn events(&self) -> u32
        ensures { result ≡ length (instances.events self.now) }
    {
        let _ = &self.interfaces;
        self.count
    }

    /// Whether an event is external.
    pub fn external(&self, event: u32) -> bool
        requires { event < length (instances.events self.now) }
        ensures { (e : Instance) → slice_get (instances.events self.now) event ≡ Some e
            → result ≡ is_external self.now e }
    {
        let _ = &self.interfaces;
        self.external[event as usize]
    }
}
