ghost use Rattle.std.specs.Prelude.{◌≡◌, IfOk};
ghost use Rattle.rsml_syntax.specs.limits.Comparisons as spec;
ghost use Rattle.rsml_limits.specs.comparisons.Shown.{shown_term};

use crate::comparisons::atom::Atom;
use crate::comparisons::indices::Indices;
use rsml_names::Globals;
use rsml_syntax::{NoMemory, Term};

/// A term of a sum in one reading of a row.
#[derive(Clone, Copy, PartialEq, Eq, Hash)]
pub struct GroundTerm<'a> {
    pub minus: bool,
    pub atom: Atom<'a>,
}

impl<'a> GroundTerm<'a> {
    /// A term with what its operand is.
    pub fn new(
        globals: &Globals<'_>,
        indices: &Indices<'_>,
        term: &'a Term,
    ) -> Result<GroundTerm<'a>, NoMemory>
        ensures { IfOk result (λ t. shown_term t
            ≡ (term.now.minus, spec.ground globals.now indices.now term.now.operand)) }
    {
        Ok(GroundTerm {
            minus: term.minus,
            atom: Atom::new(globals, indices, &term.operand)?,
        })
    }
}
