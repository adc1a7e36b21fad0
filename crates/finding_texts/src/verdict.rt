use rsml_syntax::World;

/// What is found of a group.
#[derive(Debug)]
pub enum Verdict {
    /// In every world that meets its condition exactly one member is enabled.
    Sound,
    /// No member is enabled in some world that meets the condition: this is the least.
    Missing(World),
    /// One member at least is enabled in every world that meets the condition, and in some two or more: of these this is the least.
    Double(World),
}

impl Drop for Verdict {
    fn drop(self) {
        match self {
            Self::Sound => {}
            Self::Missing(_) => {}
            Self::Double(_) => {}
        }
    }
}
