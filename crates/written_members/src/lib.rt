//! Where the members of groups are written, how they are called, and what is told of the chains that they make.
#![tactic(auto)]

mod clashes;
mod guards;
mod labels;
mod loops;
mod meetings;
mod reached;
mod rows;
mod scene;
mod source;
mod steps;
mod written;

pub use clashes::tell_clashes;
pub use guards::{definition_of, guard_of, width};
pub use labels::{members, put_member};
pub use loops::tell_loops;
pub use rows::phrases;
pub use scene::Scene;
pub use source::Source;
pub use written::{Written, written_at};
