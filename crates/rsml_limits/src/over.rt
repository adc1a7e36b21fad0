ghost use Rattle.std.specs.Prelude.{◌≡◌, IfOk, [], ◌∷◌};
ghost use Rattle.std.specs.Option.{option_map};
ghost use Rattle.rsml_syntax.specs.limits.Limits as limits;
ghost use Rattle.rsml_syntax.specs.rules.Globals as names;
ghost use Rattle.rsml_limits.specs.counts.CountLimits.{threshold_limit};

use crate::comparisons::Search;
use crate::counts::lowest_count_over;
use crate::keys::count_keys;
use crate::thresholds::count_thresholds;
use rsml_names::Globals;
use rsml_syntax::{NoMemory, Spec};
use std::alloc::Global;

/// The greatest number of thresholds and keys.
const MOST_THRESHOLDS: u64 = 2048;

/// A limit that is broken, and the count, which stops at the greatest `u64`.
#[derive(Clone, Copy, Debug, PartialEq, Eq)]
pub struct Over {
    pub limit: u8,
    pub count: u64,
}

/// The lowest limit that a specification breaks, which has these global names.
#[tactic(auto, using(crate::proofs::OverLemmas::over_counts, crate::proofs::OverLemmas::over_thresholds))]
pub fn lowest_over<'a>(
    alloc: Global,
    globals: &Globals<'a>,
    spec: &'a Spec,
) -> Result<Option<Over>, NoMemory>
    requires { globals.now ≡ names.globals spec.now.decls }
    ensures { IfOk result (λ found.
        option_map (λ o. (o.limit, o.count)) found ≡ limits.over spec.now) }
{
    match lowest_count_over(alloc, globals, spec)? {
        Some(over) => Ok(Some(over)),
        None => thresholds_over(alloc, globals, spec),
    }
}

// L7, where a specification breaks it.
fn thresholds_over<'a>(
    alloc: Global,
    globals: &Globals<'a>,
    spec: &'a Spec,
) -> Result<Option<Over>, NoMemory>
    requires { globals.now ≡ names.globals spec.now.decls }
    ensures { IfOk result (λ found. option_map (λ o. (o.limit, o.count)) found
        ≡ limits.first_over spec.now (threshold_limit ∷ [])) }
{
    let count = thresholds_and_keys(alloc, globals, spec)?;
    if count <= MOST_THRESHOLDS {
        return Ok(None);
    }
    Ok(Some(Over { limit: 7, count }))
}

// How many thresholds and keys the comparisons of a specification have; stops at the greatest u64.
fn thresholds_and_keys<'a>(
    alloc: Global,
    globals: &Globals<'a>,
    spec: &'a Spec,
) -> Result<u64, NoMemory>
    requires { globals.now ≡ names.globals spec.now.decls }
    ensures { IfOk result (λ count. count ≡ limits.shown (limits.thresholds_and_keys spec.now)) }
{
    let search = Search::through(alloc, globals, spec)?;
    let thresholds = count_thresholds(alloc, globals, search.asks())?;
    let keys = count_keys(alloc, globals, search.asks())?;
    Ok(thresholds.saturating_add(keys))
}
