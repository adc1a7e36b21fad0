//! Names and what they stand for: global names, the variables of quantifiers, the children of
//! states, and the names after `previous`.
#![tactic(auto)]

mod bodies;
mod buses;
mod declarations;
mod families;
mod globals;
mod guarded;
mod name_list;
mod name_tables;
mod previous;
mod scope;
mod variables;

pub use bodies::{buses_of, children_of, default_of, is_basic, transitions_of};
pub use buses::Buses;
pub use declarations::{answered, name_of, number_of, rows_of, simple_of, size_of, values_of};
pub use families::{Child, Families};
pub use globals::{Globals, Known};
pub use guarded::Guarded;
pub use name_list::NameList;
pub use name_tables::NameTables;
pub use previous::previous_names;
pub use scope::{Scope, nearer, scope_at};
pub use variables::Variables;
