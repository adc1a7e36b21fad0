ghost use Rattle.std.specs.Prelude.{◌≡◌, All, find, length, map};
ghost use Rattle.rsml_ground.specs.Rests.{CaseFits, IsSmall};
ghost use Rattle.rsml_ground.specs.Truths as spec;
ghost use Rattle.macros.specs.Sought.{is_sought};

use crate::guards::FastGuard;
use crate::sought::Sought;
use crate::sums::sum_number;
use and_or_tables::Truths;
use rsml_ground::GroundCase;

/// The first of the values of the cases with a true guard that is sought.
pub fn found_value(
    cells: &[i64],
    truths: &Truths,
    cases: &[GroundCase],
    guards: &[FastGuard],
    sought: Sought,
) -> Option<i64>
    requires guards { guards.now ≡ map (λ c. c.guard) cases.now }
    requires fit { All (CaseFits (length cells.now) (length truths.now)) cases.now }
    requires small { All IsSmall cells.now }
    ensures { result ≡ find (is_sought sought) (spec.case_values cells.now truths.now cases.now) }
{
    for place in 0..cases.len() {
        if guards[place].truth(truths) {
            let value = sum_number(cells, &cases[place].value);
            if sought.takes(value) {
                return Some(value);
            }
        }
    }
    None
}
