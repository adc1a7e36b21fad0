use crate::sums::GroundSum;
use rsml_syntax::{List, Relation};

/// A phrase over numbers: of states, of macros and functions, of cells, and of other phrases.
#[derive(Debug, PartialEq, Eq, Hash)]
pub enum GroundPhrase {
    /// The state instance of this number is active.
    In(u32),
    /// The table of the macro instance of this number is true.
    Macro(u32),
    /// Some of these phrases is true.
    Any(List<u32>),
    /// Each of these phrases is true.
    Every(List<u32>),
    /// The relation holds between two sums.
    Compare {
        left: GroundSum,
        relation: Relation,
        right: GroundSum,
    },
    /// Some case of the function instance of this number has a true guard and a value that stands in the relation
    /// to the constant.
    Function {
        function: u32,
        relation: Relation,
        constant: i64,
    },
}

impl Drop for GroundPhrase {
    fn drop(self) {
        match self {
            Self::In(_) => {}
            Self::Macro(_) => {}
            Self::Any(_) => {}
            Self::Every(_) => {}
            Self::Compare {
                left: _,
                relation: _,
                right: _,
            } => {}
            Self::Function {
                function: _,
                relation: _,
                constant: _,
            } => {}
        }
    }
}
