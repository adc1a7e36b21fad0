//! What a specification means, as definitions, and laws about them.
#![tactic(auto)]

mod chains;
mod event_files;
mod event_lines;
mod event_runs;
mod headline;
mod lowest_lines;
mod micro_steps;
mod reports;
mod rounds;
mod scopes;
mod states;
mod truth;
mod verdicts;
mod whole_steps;
mod worlds;

pub use chains::an_event_has_a_length_or_a_loop;
pub use event_files::{a_first_fault_is_of_a_line, well_formed_files_have_no_fault};
pub use event_lines::lines_break_the_lowest_rule;
pub use event_runs::event_files_have_one_run;
pub use headline::certified_specifications_are_deterministic;
pub use lowest_lines::lowest_lines_enable_one;
pub use micro_steps::micro_steps_have_one_result;
pub use reports::a_report_is_one_text;
pub use rounds::{order_does_not_matter, rounds_are_determinate};
pub use scopes::rules_give_scopes;
pub use states::states_are_of_children;
pub use truth::{functions_are_their_cases, functions_give_their_cases, macros_are_their_tables};
pub use verdicts::last_lines_tell_the_verdict;
pub use whole_steps::steps_have_one_result;
pub use worlds::{moves_apart_commute, worlds_are_ordered};
