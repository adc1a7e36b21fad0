//! What a specification is: its tokens, its syntax, and the worlds that it is about.
#![tactic(auto)]

mod checked;
mod edition;
mod laws;
mod printing;
mod renaming;
mod syntax;
mod token;
mod want;
mod world;

pub use checked::Checked;
pub use edition::Edition;
pub use laws::broken_rule_is_lowest;
pub use printing::print_spec;
pub use renaming::renamed;
pub use rsml_base::{List, NoMemory, Text};
pub use syntax::{
    Amount, Answer, Body, Bus, Case, Cell, Decl, Guard, Index, Initial, Mention, Operand, Phrase,
    Relation, Row, SendCase, Signed, Simple, Spec, StateDecl, Sum, Term, Transition, Value,
};
pub use token::{MARKS, Mark, Placed, Token, WORDS, Word};
pub use want::Want;
pub use world::{Path, Step, World};
