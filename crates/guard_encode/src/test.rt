use rsml_syntax::Relation;

/// A relation to a number.
#[derive(Clone, Copy)]
pub struct Test {
    pub relation: Relation,
    pub number: i64,
}
