/// A variable of a linear programme: an input, or the sum of a row.
#[derive(Clone, Copy)]
pub struct Variable {
    pub row: Option<usize>,
    pub low: f64,
    pub high: f64,
    pub value: f64,
}

/// What counts as nothing, since sums are rounded.
pub const NEAR: f64 = 0.000001;

impl Variable {
    /// Whether its value is within its range.
    pub fn is_within(self) -> bool {
        self.low - NEAR <= self.value && self.value <= self.high + NEAR
    }

    /// Whether its value is below its range.
    pub fn is_below(self) -> bool {
        self.value < self.low
    }

    /// Whether it can rise within its range, or fall.
    pub fn can_move(self, up: bool) -> bool {
        if up {
            self.value < self.high - NEAR
        } else {
            self.low + NEAR < self.value
        }
    }

    /// The end of its range that its value has passed.
    pub fn passed_end(self) -> f64 {
        if self.is_below() { self.low } else { self.high }
    }
}
