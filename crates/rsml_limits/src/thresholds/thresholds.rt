ghost use Rattle.std.specs.Prelude.{◌≡◌, ◌++◌, IfOk, OnOk, length, map, flat_map};
ghost use Rattle.rsml_syntax.specs.rules.Globals as names;
ghost use Rattle.rsml_syntax.specs.limits.Limits.{distinct, shown};
ghost use Rattle.rsml_syntax.specs.limits.Thresholds as spec;
ghost use Rattle.rsml_limits.specs.comparisons.Asks.{ask_comparisons};
ghost use Rattle.rsml_limits.specs.comparisons.Shown.{shown_ask};
ghost use Rattle.rsml_limits.specs.thresholds.Compared.{group_comparisons};
ghost use Rattle.rsml_limits.specs.thresholds.Pairs.{pairs, SamePairs};

use crate::comparisons::{Ask, Left};
use crate::thresholds::compared::compare;
use crate::thresholds::function::Function;
use crate::thresholds::functions::Functions;
use crate::thresholds::right::Right;
use crate::thresholds::table::Table;
use rsml_names::Globals;
use rsml_syntax::NoMemory;
use std::alloc::Global;
use std::slice;

/// How many thresholds the comparisons ask for that were asked; stops at the greatest u64.
pub fn count_thresholds<'a>(
    alloc: Global,
    globals: &Globals<'a>,
    asks: &[Ask<'a>],
) -> Result<u64, NoMemory>
    ensures { IfOk result (λ count. count ≡ shown (length (distinct spec.same_threshold
        (flat_map (spec.thresholds globals.now) (flat_map (ask_comparisons globals.now) (map shown_ask asks.now)))))) }
{
    let mut table = Table::new(alloc);
    let mut functions = Functions::new(alloc);
    gather(alloc, asks, &mut table, &mut functions)?;
    functions.compare(alloc, globals, &mut table)?;
    table.count(alloc, globals)
}

// Puts down what the comparisons of sums ask for, and gathers those of functions.
fn gather<'s, 'a>(
    alloc: Global,
    asks: &'s [Ask<'a>],
    table: &mut Table<'a>,
    functions: &mut Functions<'s, 'a>,
) -> Result<(), NoMemory>
    ensures { OnOk result ((g : names.Globals) →
        SamePairs (table.new ++ flat_map pairs (group_comparisons g functions.new))
        ((table.old ++ flat_map pairs (group_comparisons g functions.old))
        ++ flat_map pairs (flat_map (ask_comparisons g) (map shown_ask asks.now)))) }
{
    for ask in asks {
        gather_ask(alloc, ask, table, functions)?;
    }
    Ok(())
}

// The same of one that was asked.
fn gather_ask<'s, 'a>(
    alloc: Global,
    ask: &'s Ask<'a>,
    table: &mut Table<'a>,
    functions: &mut Functions<'s, 'a>,
) -> Result<(), NoMemory>
    ensures { OnOk result ((g : names.Globals) →
        SamePairs (table.new ++ flat_map pairs (group_comparisons g functions.new))
        ((table.old ++ flat_map pairs (group_comparisons g functions.old))
        ++ flat_map pairs (ask_comparisons g (shown_ask ask.now)))) }
{
    let right = Right {
        relation: ask.relation,
        terms: ask.right.as_slice(),
    };
    match &ask.left {
        Left::Sum(terms) => compare(
            alloc,
            table,
            slice::from_ref(terms),
            slice::from_ref(&right),
        ),
        Left::Function { name, at } => {
            let function = Function {
                name: *name,
                at: *at,
            };
            functions.put(alloc, function, right)
        }
    }
}
