ghost use Rattle.std.specs.Prelude.{◌≡◌};

use std::marker::Model;

/// A handle of a Boolean function in the arena that gave it: the place of a node. In one arena
/// equal functions have equal handles. It is used with that arena alone.
#[derive(Clone, Copy, PartialEq, Eq, Hash, Debug)]
pub struct Ref {
    pub(crate) place: usize,
}

impl Model for Ref {
    ghost use Rattle.std.specs.Prelude.{ℕ};

    ghost Value = { ℕ };

    ghost view = { λ r. r.place };

    ghost inverse = { λ n. record { place = n } };
}

impl Ref {
    pub(crate) fn at(place: u32) -> Ref
        ensures { result ≡ place }
    {
        Ref {
            place: place as usize,
        }
    }
}
