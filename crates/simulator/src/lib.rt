//! Simulates a certified specification over an event file, event by event and round by round, or as a whole.
#![tactic(auto)]

mod course;
mod following;
mod last_line;
mod passing;
mod reacting;
mod sim_end;
mod simulator;
mod turns;
mod upcoming;

pub use following::end_by;
pub use last_line::put_last_line;
pub use sim_end::SimEnd;
pub use simulator::Simulator;
pub use upcoming::Upcoming;
