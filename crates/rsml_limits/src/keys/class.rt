ghost use Rattle.std.specs.Prelude.{◌≡◌};
ghost use Rattle.rsml_limits.specs.comparisons.Shown.{shown_sum};
ghost use Rattle.rsml_limits.specs.keys.Classes.{class_of, tight};

use crate::comparisons::{GroundTerm, constant_number, single_cell};

/// What decides of a sum which of its comparisons are tight.
#[derive(Clone, Copy, PartialEq, Eq, Hash)]
pub enum Class {
    Constant,
    InputCell,
    Other,
}

impl Class {
    /// The class of a sum.
    pub fn new(terms: &[GroundTerm<'_>]) -> Class
        ensures { result ≡ class_of (shown_sum terms.now) }
    {
        if constant_number(terms).is_some() {
            Class::Constant
        } else if single_cell(terms).is_some() {
            Class::InputCell
        } else {
            Class::Other
        }
    }

    /// Whether a comparison is tight whose left and right sides are of these classes.
    pub fn is_tight(self, right: Class) -> bool
        ensures { result ≡ tight self right }
    {
        match right {
            Class::Constant => self != Class::Other,
            Class::InputCell => self == Class::Constant,
            Class::Other => false,
        }
    }
}
