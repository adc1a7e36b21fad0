//! How the instances, values and labels of a specification are written.
#![tactic(auto)]

mod answered;
mod cell_ref;
mod cells;
mod interfaces;
mod labels;
mod listed;
mod listings;
mod sent_names;
mod sent_texts;
mod sorts;
mod steps;
mod texts;
mod values;

pub use labels::{put_case_label, put_label};
pub use sent_texts::SentTexts;
pub use steps::{put_instance, put_path};
pub use texts::Texts;
