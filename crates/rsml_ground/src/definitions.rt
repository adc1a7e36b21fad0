use crate::sums::GroundSum;
use and_or_tables::GroundTable;
use rsml_syntax::List;

/// A guard: always true, or a table.
#[derive(Debug)]
pub enum GroundGuard {
    Always,
    Table(GroundTable),
}

impl Drop for GroundGuard {
    fn drop(self) {
        match self {
            Self::Always => {}
            Self::Table(_) => {}
        }
    }
}

/// A case of a function: its value where its guard is true.
#[derive(Debug)]
pub struct GroundCase {
    pub value: GroundSum,
    pub guard: GroundGuard,
}

impl Drop for GroundCase {
    fn drop(self) {
        let Self { value: _, guard: _ } = self;
    }
}

/// An instance of a macro, or of a function.
#[derive(Debug)]
pub enum Definition {
    Macro(GroundTable),
    Function(List<GroundCase>),
}

impl Drop for Definition {
    fn drop(self) {
        match self {
            Self::Macro(_) => {}
            Self::Function(_) => {}
        }
    }
}
