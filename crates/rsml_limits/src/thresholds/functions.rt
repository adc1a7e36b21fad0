ghost use Rattle.std.specs.Prelude.{◌≡◌, OnOk, [], ◌++◌, map, flat_map};
ghost use Rattle.rsml_limits.specs.comparisons.Asks as cases;
ghost use Rattle.rsml_limits.specs.thresholds.Compared.{with_right, compared, group_comparisons};
ghost use Rattle.rsml_limits.specs.thresholds.Pairs.{pairs, SamePairs};
ghost use Rattle.rsml_limits.specs.thresholds.Shown.{shown_function, shown_right};

use crate::comparisons::case_sums;
use crate::thresholds::compared::compare;
use crate::thresholds::function::Function;
use crate::thresholds::right::Right;
use crate::thresholds::table::Table;
use indexmap::IndexMap;
use rsml_names::Globals;
use rsml_syntax::NoMemory;
use std::alloc::Global;
use std::marker::Model;

/// The functions that are compared, each with the right sides of its comparisons.
#[derive(Drop)]
pub struct Functions<'s, 'a> {
    rights: IndexMap<Function<'a>, Vec<Right<'s, 'a>>>,
}

impl<'s, 'a> Model for Functions<'s, 'a> {
    ghost use Rattle.std.specs.Prelude.{ℕ, List, map};
    ghost use Rattle.rsml_limits.specs.thresholds.Compared.{Group};
    ghost use Rattle.rsml_limits.specs.thresholds.Shown.{shown_group};

    ghost Value = { List Group };

    ghost view = { λ f. map shown_group f.rights.entries };
}

impl<'s, 'a> Functions<'s, 'a> {
    /// None yet.
    pub fn new(alloc: Global) -> Functions<'s, 'a>
        ensures { result ≡ [] }
    {
        Functions {
            rights: IndexMap::new(alloc),
        }
    }

    /// One more comparison of a function.
    pub fn put(
        &mut self,
        alloc: Global,
        function: Function<'a>,
        right: Right<'s, 'a>,
    ) -> Result<(), NoMemory>
        ensures { OnOk result (self.new
            ≡ with_right self.old (shown_function function.entry) (shown_right right.entry)) }
    {
        let rights = self.rights.entry(function)?.or_insert(Vec::new(alloc));
        rights.push(right)?;
        Ok(())
    }

    /// What the comparisons of all these functions ask for.
    pub fn compare(
        &self,
        alloc: Global,
        globals: &Globals<'a>,
        table: &mut Table<'a>,
    ) -> Result<(), NoMemory>
        ensures { OnOk result (SamePairs table.new
            (table.old ++ flat_map pairs (group_comparisons globals.now self.now))) }
    {
        for (function, rights) in self.rights.iter() {
            compare_function(alloc, globals, table, *function, rights.as_slice())?;
        }
        Ok(())
    }
}

// What the comparisons of a function ask for.
fn compare_function<'a>(
    alloc: Global,
    globals: &Globals<'a>,
    table: &mut Table<'a>,
    function: Function<'a>,
    rights: &[Right<'_, 'a>],
) -> Result<(), NoMemory>
    ensures { OnOk result (SamePairs table.new (table.old ++ flat_map pairs (compared
        (cases.case_sums globals.now function.entry.name.now function.entry.at)
        (map shown_right rights.now)))) }
{
    let sums = case_sums(alloc, globals, function.name, function.at)?;
    compare(alloc, table, sums.as_slice(), rights)
}
