ghost use Rattle.std.specs.Prelude.{◌≡◌, IfOk};

use rsml_syntax::{Checked, NoMemory};
use state_arrays::Names;
use std::alloc::Global;
use std::marker::Model;
use worlds::Worlds;

/// The worlds of a specification, and the numbers of its instances.
pub struct Instances<'a> {
    worlds: Worlds<'a>,
    names: Names<'a>,
}

impl Drop for Instances<'_> {
    fn drop(self) {
        let Self {
            worlds: _,
            names: _,
        } = self;
    }
}

impl<'a> Model for Instances<'a> {
    ghost use Rattle.std.specs.Prelude.{◌≡◌};
    ghost use Rattle.std.specs.Coded.{codes};
    ghost use Rattle.rsml_syntax.specs.declared.syntax.Spec.{Spec};
    ghost use Rattle.rsml_syntax.specs.contracts.syntax.Body as bodies;

    ghost Value = { Spec };

    ghost coded = { Prim.hlevel (codes, bodies.the_row.coded) };

    ghost view = { λ n. n.worlds };

    ghost invariant = { λ n. n.names ≡ n.worlds };
}

impl<'a> Instances<'a> {
    /// Those of a specification.
    pub fn new(alloc: Global, checked: &'a Checked) -> Result<Instances<'a>, NoMemory>
        ensures { IfOk result (λ n. n ≡ checked.now) }
    {
        let worlds = Worlds::new(alloc, checked)?;
        let names = Names::build(alloc, checked)?;
        Ok(Instances { worlds, names })
    }

    /// The worlds.
    pub fn worlds(&self) -> &Worlds<'a>
        ensures { result.now ≡ self.now }
    {
        let _ = &self.names;
        &self.worlds
    }

    /// The numbers of instances.
    pub fn names(&self) -> &Names<'a>
        ensures { result.now ≡ self.now }
    {
        let _ = &self.worlds;
        &self.names
    }
}
