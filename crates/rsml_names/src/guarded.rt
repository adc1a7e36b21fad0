ghost use Rattle.std.specs.Prelude.{◌≡◌};

use rsml_syntax::{Case, Guard, SendCase, Transition};

/// What has a guard.
pub trait Guarded {
    ghost use Rattle.rsml_syntax.specs.declared.syntax.Guard as syntax;

    ghost guard_of: { Self → syntax.Guard };

    /// Its guard.
    fn guard(&self) -> &Guard
        ensures { result.now ≡ guard_of self.now };
}

impl Guarded for Case {
    ghost guard_of = { λ c. c.guard };

    fn guard(&self) -> &Guard {
        &self.guard
    }
}

impl Guarded for SendCase {
    ghost guard_of = { λ c. c.guard };

    fn guard(&self) -> &Guard {
        &self.guard
    }
}

impl Guarded for Transition {
    ghost guard_of = { λ t. t.guard };

    fn guard(&self) -> &Guard {
        &self.guard
    }
}
