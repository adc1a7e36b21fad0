use crate::comparisons::GroundTerm;
use rsml_syntax::Relation;

/// The right side of a comparison, with the relation to it.
#[derive(Clone, Copy)]
pub struct Right<'s, 'a> {
    pub relation: Relation,
    pub terms: &'s [GroundTerm<'a>],
}
