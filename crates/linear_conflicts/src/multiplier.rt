use std::num::saturating_f64_to_i64;

/// By what a row is multiplied in a sum of rows.
#[derive(Clone, Copy)]
pub struct Multiplier {
    pub place: usize,
    pub weight: f64,
}

impl Multiplier {
    /// The nearest whole number to the weight times a scale.
    pub fn whole(self, scale: f64) -> i64 {
        saturating_f64_to_i64((self.weight * scale).round())
    }
}
