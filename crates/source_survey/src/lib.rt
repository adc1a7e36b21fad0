//! What stands in a specification, as lists in the order of the text.
#![tactic(auto)]

mod survey;

pub use survey::{
    Around, Declared, InPath, OwnedSum, Sized, Sort, Space, StateAt, Survey, Table, TransitionAt,
    Use, index_of, sort_of,
};
