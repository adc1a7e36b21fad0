ghost use Rattle.std.specs.Prelude.{◌≡◌};
ghost use Rattle.rsml_syntax.specs.limits.Checked.{IsChecked};

use crate::syntax::Spec;
use std::marker::Model;

/// A specification that is well-formed and keeps the rules S1 to S16 and the limits L1 to L7.
#[derive(Drop)]
pub struct Checked {
    spec: Spec,
}

impl Model for Checked {
    ghost use Rattle.rsml_syntax.specs.declared.syntax.Spec.{Spec};
    ghost use Rattle.rsml_syntax.specs.contracts.syntax.Body as bodies;
    ghost use Rattle.rsml_syntax.specs.limits.Checked.{IsChecked};
    ghost use Rattle.std.specs.Coded.{codes};

    ghost Value = { Spec };

    ghost coded = { Prim.hlevel (codes, bodies.the_row.coded) };

    ghost view = { λ c. c.spec };

    ghost invariant = { λ c. IsChecked c.spec };
}

impl Checked {
    /// The specification, as one that has been checked.
    pub fn new(spec: Spec) -> Checked
        requires { IsChecked spec }
        ensures { result ≡ spec }
    {
        Checked { spec }
    }

    pub fn spec(&self) -> &Spec
        ensures same { result.now ≡ self.now }
        ensures checked { IsChecked self.now }
    {
        &self.spec
    }
}
