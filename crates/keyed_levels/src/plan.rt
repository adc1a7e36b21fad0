use crate::place::KeyPlace;
use rsml_ground::GroundPhrase;

/// An order of the levels, for each phrase the first comparison that is like it, and comparisons beside the phrases of a machine. These
/// have the numbers after its phrases.
#[derive(Drop)]
pub struct Plan {
    pub order: Vec<KeyPlace>,
    pub alike: Vec<u32>,
    pub beside: Vec<GroundPhrase>,
}

impl Plan {
    /// Whether some comparison has a level of its own.
    pub fn has_comparisons(&self) -> bool {
        for place in self.order.iter() {
            if let KeyPlace::Comparison(_) = place {
                return true;
            }
        }
        false
    }
}
