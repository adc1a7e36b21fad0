//! Where states are active and guards are true, as decision diagrams over the worlds of a machine.
#![tactic(auto)]

mod bounds;
mod cases;
mod combine;
mod comparing;
mod decided;
mod enabled;
mod encoder;
mod fixing;
mod groups;
mod holding;
mod of_cell;
mod opposites;
mod other;
mod phrase;
mod phrases;
mod reading;
mod spelling;
mod test;

pub use encoder::Encoder;
pub use other::OtherPhrases;
pub use reading::ReadParts;
