ghost use Rattle.std.specs.Prelude.{◌≡◌, IfOk, length};
ghost use Rattle.macros.specs.Guards.{GuardBelow, HasShape, phrases_of};
ghost use Rattle.rsml_ground.specs.Truths.{guard_truth};
ghost use Rattle.rsml_ground.specs.declared.definitions.GroundGuard.TheVariants as guards;
ghost use Rattle.and_or_tables.specs.Shape.{IsTable};

use and_or_tables::{FastTable, GroundTable, Truths};
use rsml_ground::GroundGuard;
use rsml_syntax::NoMemory;
use std::alloc::Global;
use std::marker::Model;

/// A guard that is asked as masks. Contracts see it as the guard that it was built of.
#[derive(Debug, Drop)]
pub struct FastGuard {
    table: Option<FastTable>,
}

impl Model for FastGuard {
    ghost use Rattle.rsml_ground.specs.declared.definitions.GroundGuard.{GroundGuard};
    ghost use Rattle.macros.specs.Guards.{guard_of};

    ghost Value = { GroundGuard };

    ghost view = { λ g. guard_of g.table };
}

impl FastGuard {
    /// The fast form of a guard.
    pub fn new(alloc: Global, guard: &GroundGuard) -> Result<FastGuard, NoMemory>
        requires { HasShape guard.now }
        ensures { IfOk result (λ fast. fast ≡ guard.now) }
    {
        match guard {
            GroundGuard::Always => Ok(FastGuard { table: None }),
            GroundGuard::Table(table) => FastGuard::of_table(alloc, table),
        }
    }

    /// The fast form of a guard that is a table.
    pub fn of_table(alloc: Global, table: &GroundTable) -> Result<FastGuard, NoMemory>
        requires { IsTable table.now }
        ensures { IfOk result (λ fast. fast ≡ guards.Table table.now) }
    {
        Ok(FastGuard {
            table: Some(FastTable::new(alloc, table)?),
        })
    }

    /// The numbers of the phrases that the guard names, in the order of its rows.
    pub fn phrases(&self) -> &[u32]
        ensures { result.now ≡ phrases_of self.now }
    {
        match &self.table {
            None => &[],
            Some(table) => table.phrases(),
        }
    }

    /// Whether the guard is true. It takes no memory.
    pub fn truth(&self, truths: &Truths) -> bool
        requires { GuardBelow (length truths.now) self.now }
        ensures { result ≡ guard_truth truths.now self.now }
    {
        match &self.table {
            None => true,
            Some(table) => table.truth(truths),
        }
    }
}
