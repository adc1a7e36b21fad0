use crate::comparisons::ground_term::GroundTerm;
use rsml_syntax::{Relation, Text};

/// What is compared with a sum: another sum, or a function in the instance of an index.
pub enum Left<'a> {
    Sum(Vec<GroundTerm<'a>>),
    Function { name: &'a Text, at: u64 },
}

impl Drop for Left<'_> {
    fn drop(self) {
        match self {
            Self::Sum(_) => {}
            Self::Function { name: _, at: _ } => {}
        }
    }
}

/// A sum or a function, compared with a sum.
pub struct Ask<'a> {
    pub left: Left<'a>,
    pub relation: Relation,
    pub right: Vec<GroundTerm<'a>>,
}

impl Drop for Ask<'_> {
    fn drop(self) {
        let Self {
            left: _,
            relation: _,
            right: _,
        } = self;
    }
}
