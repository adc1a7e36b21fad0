//! Tells at which names a specification breaks a rule or a limit, and what is wrong there.
#![tactic(auto)]

mod case_faults;
mod kind_faults;
mod kinds;
mod letters;
mod limit_faults;
mod lists;
mod naming;
mod near;
mod sizes;
mod spots;
mod state_faults;
mod subject;
mod table_faults;
mod telling;

pub use letters::tell_letters;
pub use limit_faults::tell_exceeded;
pub use telling::tell_broken;
