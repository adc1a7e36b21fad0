//! Whether functions of levels are true in some world, where some levels stand for comparisons.
#![tactic(auto)]

mod comparisons;
mod conflicts;
mod exact_keys;
mod keys;
mod literal;
mod margins;
mod next;
mod one_key;
mod parts;
mod paths;
mod ranges;
mod reading;
mod rows;
mod settling;
mod striking;
mod sweeping;
mod within;

pub use conflicts::without_conflicts;
pub use exact_keys::ExactKeys;
pub use settling::{project, settle};
pub use striking::{is_used, used_levels};
pub use within::with_exact;
