ghost use Rattle.std.specs.Prelude.{◌≡◌};

/// What one of the limits L1 to L6 counts.
#[derive(Clone, Copy)]
pub enum Counted {
    /// State instances.
    States,
    /// Ground transitions.
    Transitions,
    /// Event instances.
    Events,
    /// Cells, one for each input instance and one for its previous number where that is read.
    Cells,
    /// Macro and function instances.
    Definitions,
    /// Ground rows.
    Rows,
}

/// All of them, in the order of their limits.
pub const COUNTED: [Counted; 6] = [
    Counted::States,
    Counted::Transitions,
    Counted::Events,
    Counted::Cells,
    Counted::Definitions,
    Counted::Rows,
];

impl Counted {
    ghost use Rattle.rsml_limits.specs.counts.CountLimits.{limit_of};

    /// The number of the limit.
    pub fn limit(self) -> u8
        ensures { result ≡ (limit_of self).number }
    {
        match self {
            Counted::States => 1,
            Counted::Transitions => 2,
            Counted::Events => 3,
            Counted::Cells => 4,
            Counted::Definitions => 5,
            Counted::Rows => 6,
        }
    }

    /// The greatest count that keeps the limit.
    pub fn greatest(self) -> u64
        ensures { result ≡ (limit_of self).greatest }
    {
        match self {
            Counted::States => 4096,
            Counted::Transitions => 8192,
            Counted::Events => 1024,
            Counted::Cells => 1024,
            Counted::Definitions => 8192,
            Counted::Rows => 65536,
        }
    }
}
