use crate::term::Term;

/// A sum that is to be at most a number.
#[derive(Debug, Drop)]
pub struct Row {
    pub terms: Vec<Term>,
    pub most: i64,
}
