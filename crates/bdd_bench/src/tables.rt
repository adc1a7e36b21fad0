ghost use Rattle.std.specs.Prelude.{◌≡◌, ◌≤◌, ◌<◌, length, IfOk};
ghost use Rattle.bdd_core.specs.Diagram.{IsRef};

use bdd_core::{Arena, Ref};
use rsml_base::NoMemory;

const VARIABLES: u32 = 60;

const COLUMNS: u32 = 5;

const ROWS: u32 = 3;

/// Numbers that look random, the same in each run.
#[derive(Drop)]
struct Numbers {
    state: u64,
}

impl Numbers {
    /// The next number below a bound.
    fn below(&mut self, bound: u32) -> u32
        requires { 0 < bound }
        ensures { result < bound }
    {
        self.state = self
            .state
            .wrapping_mul(6_364_136_223_846_793_005)
            .wrapping_add(1_442_695_040_888_963_407);
        ((self.state >> 33) % bound as u64) as u32
    }
}

/// A random variable, or its negation.
fn literal(arena: &mut Arena, numbers: &mut Numbers) -> Result<Ref, NoMemory>
    requires { arena.old.levels ≡ 128 }
    ensures levels { arena.new.levels ≡ arena.old.levels }
    ensures longer { length arena.old.nodes ≤ length arena.new.nodes }
    ensures answer { IfOk result (IsRef arena.new) }
{
    let variable = arena.var(numbers.below(VARIABLES))?;
    if numbers.below(2) == 1 {
        return arena.not(variable);
    }
    Ok(variable)
}

/// The conjunction of random literals.
fn column(arena: &mut Arena, numbers: &mut Numbers) -> Result<Ref, NoMemory>
    requires { arena.old.levels ≡ 128 }
    ensures levels { arena.new.levels ≡ arena.old.levels }
    ensures longer { length arena.old.nodes ≤ length arena.new.nodes }
    ensures answer { IfOk result (IsRef arena.new) }
{
    let mut all = arena.constant(true);
    for _row in 0..ROWS {
        let row = literal(arena, numbers)?;
        all = arena.and(all, row)?;
    }
    Ok(all)
}

/// The disjunction of random columns.
fn table(arena: &mut Arena, numbers: &mut Numbers) -> Result<Ref, NoMemory>
    requires { arena.old.levels ≡ 128 }
    ensures levels { arena.new.levels ≡ arena.old.levels }
    ensures longer { length arena.old.nodes ≤ length arena.new.nodes }
    ensures answer { IfOk result (IsRef arena.new) }
{
    let mut some = arena.constant(false);
    for _column in 0..COLUMNS {
        let column = column(arena, numbers)?;
        some = arena.or(some, column)?;
    }
    Ok(some)
}

/// The conjunction of so many random tables.
pub fn tables(arena: &mut Arena, count: u32) -> Result<Ref, NoMemory>
    requires { arena.old.levels ≡ 128 }
    ensures { IfOk result (IsRef arena.new) }
{
    let mut numbers = Numbers { state: 1 };
    let mut all = arena.constant(true);
    for _table in 0..count {
        let table = table(arena, &mut numbers)?;
        all = arena.and(all, table)?;
    }
    Ok(all)
}
