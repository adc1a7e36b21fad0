ghost use Rattle.std.specs.Prelude.{◌≡◌};
ghost use Rattle.rsml_syntax.specs.limits.Comparisons as spec;
ghost use Rattle.rsml_limits.specs.comparisons.Shown.{shown_cell};

use crate::comparisons::indices::Indices;
use rsml_names::Globals;
use rsml_syntax::{Mention, Text};

/// A cell: the number of an input at an index, or its previous number.
#[derive(Clone, Copy, PartialEq, Eq, Hash)]
pub struct InputCell<'a> {
    pub previous: bool,
    pub at: u64,
    pub input: &'a Text,
}

impl<'a> InputCell<'a> {
    /// The cell that a mention of an input is.
    pub fn mentioned(
        globals: &Globals<'_>,
        indices: &Indices<'_>,
        previous: bool,
        mention: &'a Mention,
    ) -> InputCell<'a>
        ensures { spec.OfCell (shown_cell result)
            ≡ spec.cell_of globals.now indices.now previous mention.now }
    {
        InputCell {
            previous,
            at: indices.index(globals, mention.index.as_ref()),
            input: &mention.name,
        }
    }
}
