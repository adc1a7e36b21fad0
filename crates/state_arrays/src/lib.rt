//! Numbers of instances: the place of an event, a cell or a state, by its name and its index or its
//! path.
#![tactic(auto)]

mod array;
mod child;
mod declared;
mod index_range;
mod input_names;
mod instances;
mod interface_names;
mod kind;
mod named;
mod names;
mod paths;

pub use declared::receive_instances;
pub use instances::Instances;
pub use names::Names;
