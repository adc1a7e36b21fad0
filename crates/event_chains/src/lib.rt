//! The chains of events of a specification: lengths, loops, first clashes and rounds.
#![tactic(auto)]

mod answers;
mod chains;
mod count;
mod drawing;
mod external;
mod laws;
mod leads;
mod meetings;
mod reaction;
mod rounds;
mod starts;

pub use chains::Chains;
pub use drawing::event_graph;
pub use event_graph::Clash;
pub use external::External;
pub use laws::{a_graph_answers, external_events_answer, none_found_is_none};
pub use rounds::Rounds;
