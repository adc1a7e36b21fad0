ghost use Rattle.std.specs.Prelude.{◌≡◌, IfOk};
ghost use Rattle.std.specs.Option.{option_map};
ghost use Rattle.rsml_syntax.specs.limits.Limits.{first_over};
ghost use Rattle.rsml_syntax.specs.rules.Globals as names;
ghost use Rattle.rsml_limits.specs.counts.CountLimits.{count_limits};
ghost use Rattle.rsml_limits.specs.counts.Counting.{Shows, count_of};

use crate::counts::counted::{COUNTED, Counted};
use crate::counts::counted_names::CountedNames;
use crate::counts::declarations::declarations;
use crate::counts::states::{inside, state};
use crate::over::Over;
use rsml_names::Globals;
use rsml_syntax::{NoMemory, Spec};
use std::alloc::Global;

/// What is counted of a specification.
fn count(
    alloc: Global,
    names: &CountedNames<'_, '_>,
    counted: Counted,
    spec: &Spec,
) -> Result<u64, NoMemory>
    ensures { Shows result (count_of counted names.now spec.now) }
{
    let declared = declarations(names, counted, spec.decls.as_slice());
    let top = state(alloc, names, counted, None, &spec.body)?;
    let within = inside(alloc, names, counted, None, &spec.body)?;
    Ok(declared.saturating_add(top).saturating_add(within))
}

/// The lowest of the limits L1 to L6 that a specification breaks.
pub fn lowest_count_over<'a>(
    alloc: Global,
    globals: &Globals<'a>,
    spec: &'a Spec,
) -> Result<Option<Over>, NoMemory>
    requires { globals.now ≡ names.globals spec.now.decls }
    ensures { IfOk result (λ found.
        option_map (λ o. (o.limit, o.count)) found ≡ first_over spec.now count_limits) }
{
    let names = CountedNames::new(alloc, globals, spec)?;
    for counted in COUNTED {
        let count = count(alloc, &names, counted, spec)?;
        if counted.greatest() < count {
            return Ok(Some(Over {
                limit: counted.limit(),
                count,
            }));
        }
    }
    Ok(None)
}
