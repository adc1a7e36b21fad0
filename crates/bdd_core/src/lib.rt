//! Reduced ordered binary decision diagrams, all in one arena: equal functions have equal handles.
#![tactic(auto)]

mod answers;
mod arena;
mod branch;
mod computed;
mod frame;
mod marks;
mod node;
mod reference;
mod unique;

pub use arena::Arena;
pub use branch::Branch;
pub use marks::Marks;
pub use reference::Ref;
