ghost use Rattle.std.specs.Prelude.{◌≡◌, IfOk, pos, false, [], ◌∷◌};
ghost use Rattle.std.specs.Option.{option_map};
ghost use Rattle.rsml_syntax.specs.limits.Comparisons as spec;
ghost use Rattle.rsml_syntax.specs.rules.Globals as names;
ghost use Rattle.rsml_syntax.specs.limits.Thresholds as thresholds;
ghost use Rattle.rsml_limits.specs.comparisons.Shown.{shown_atom, shown_cell};

use crate::comparisons::indices::Indices;
use crate::comparisons::input_cell::InputCell;
use rsml_names::{Globals, Known};
use rsml_syntax::{Mention, NoMemory, Operand};

/// What an operand is in one reading of a row.
#[derive(Clone, Copy, PartialEq, Eq, Hash)]
pub enum Atom<'a> {
    Number(i64),
    InputCell(InputCell<'a>),
}

impl<'a> Atom<'a> {
    /// What an operand is: an input is its cell, a constant and a value of an enumeration are their
    /// numbers.
    pub fn new(
        globals: &Globals<'_>,
        indices: &Indices<'_>,
        operand: &'a Operand,
    ) -> Result<Atom<'a>, NoMemory>
        ensures { IfOk result (λ atom. shown_atom atom
            ≡ spec.ground globals.now indices.now operand.now) }
    {
        match operand {
            Operand::Number(number) => Ok(Atom::Number(i64::from(*number))),
            Operand::Mention(mention) => Atom::mentioned(globals, indices, mention),
            Operand::Previous(mention) => Ok(Atom::InputCell(InputCell::mentioned(
                globals, indices, true, mention,
            ))),
        }
    }

    /// The cell that this is.
    pub fn cell(&self) -> Option<InputCell<'a>>
        ensures { option_map shown_cell result
            ≡ thresholds.single_cell ((false, shown_atom self.now) ∷ []) }
    {
        match self {
            Atom::Number(_) => None,
            Atom::InputCell(cell) => Some(*cell),
        }
    }

    // What a name is, and 0 where it is not declared.
    fn mentioned(
        globals: &Globals<'_>,
        indices: &Indices<'_>,
        mention: &'a Mention,
    ) -> Result<Atom<'a>, NoMemory>
        ensures { IfOk result (λ atom. shown_atom atom
            ≡ spec.ground globals.now indices.now (Operand.Mention mention.now)) }
    {
        match globals.meaning(&mention.name) {
            None => Ok(Atom::Number(0)),
            Some(known) => {
                if known.is_input() {
                    Ok(Atom::InputCell(InputCell::mentioned(globals, indices, false, mention)))
                } else {
                    Ok(Atom::Number(number_of(known)?))
                }
            }
        }
    }
}

// The number of a constant or of an enumeration's value, which is its place.
fn number_of(known: &Known<'_>) -> Result<i64, NoMemory>
    ensures { IfOk result (λ number. number ≡ names.number_of known.now) }
{
    match known.value {
        Some(place) => place_number(place),
        None => Ok(known.constant().unwrap_or(0)),
    }
}

// A place among values, as a number: more than 2^63 names have no room in memory.
fn place_number(place: usize) -> Result<i64, NoMemory>
    ensures { IfOk result (λ number. number ≡ pos place) }
{
    match i64::try_from(place) {
        Ok(number) => Ok(number),
        Err(_) => Err(NoMemory),
    }
}
