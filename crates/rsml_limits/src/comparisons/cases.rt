ghost use Rattle.std.specs.Prelude.{◌≡◌, IfOk, map};
ghost use Rattle.rsml_syntax.specs.limits.Comparisons as spec;
ghost use Rattle.rsml_syntax.specs.rules.Kinds as kinds;
ghost use Rattle.rsml_limits.specs.comparisons.Asks.{case_sums as sums};
ghost use Rattle.rsml_limits.specs.comparisons.Shown.{shown_sum};

use crate::comparisons::ground_term::GroundTerm;
use crate::comparisons::indices::Indices;
use crate::comparisons::sums::terms_of;
use rsml_names::Globals;
use rsml_syntax::{Case, Decl, NoMemory, Text};
use std::alloc::Global;

/// The values of the cases of a function, in the instance of this index.
pub fn case_sums<'a>(
    alloc: Global,
    globals: &Globals<'a>,
    function: &Text,
    at: u64,
) -> Result<Vec<Vec<GroundTerm<'a>>>, NoMemory>
    ensures { IfOk result (λ v. map (λ terms. shown_sum terms.items) v.items
        ≡ sums globals.now function.now at) }
{
    let indices = Indices::plain(at);
    let mut values = Vec::new(alloc);
    for case in cases_of(globals, function) {
        values.push(terms_of(alloc, globals, &indices, &case.value)?)?;
    }
    Ok(values)
}

// The cases of the function of this name.
fn cases_of<'a>(globals: &Globals<'a>, name: &Text) -> &'a [Case]
    ensures { result.now ≡ kinds.function_cases globals.now name.now }
{
    let Some(known) = globals.meaning(name) else {
        return &[];
    };
    match known.decl {
        Decl::Function { cases, .. } => cases.as_slice(),
        _ => &[],
    }
}
