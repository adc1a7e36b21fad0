//! Functions that are true of no world.
ghost use Rattle.std.specs.Prelude.{Bool, IfOk, IsTrue};
ghost use Rattle.rsml_syntax.specs.declared.world.World.{World};
ghost use Rattle.bdd_core.specs.Diagram.{IsRef};
ghost use Rattle.keyed_levels.specs.Keyed.{AreKeyed};
ghost use Rattle.settled_worlds.specs.Settled.{IsSettled};
ghost use Rattle.guard_encode.specs.Encoding.{Finds, FindsExactly, Keeps, Tells, TellsExactly, worlds_of};

use crate::encoder::Encoder;
use bdd_core::Ref;
use keyed_levels::keyed_laws;
use rsml_base::NoMemory;
use settled_worlds::{settle, without_conflicts};
use std::alloc::Global;
use world_levels::world_laws;

impl<'m, 'a> Encoder<'m, 'a> {
    /// `f` itself, or where it is true of no world the function that is false everywhere. Beyond a limit on nodes it is out of memory.
    pub fn decided(&mut self, alloc: Global, f: Ref) -> Result<Ref, NoMemory>
        requires { IsRef self.old.diagram f }
        ensures keeps { Keeps self.old self.new }
        ensures is_ref { IfOk result (IsRef self.new.diagram) }
        ensures answer { IfOk result (λ r. (truth : World → Bool) → Tells self.old truth f → TellsExactly self.new truth r) }
        ensures found { IfOk result (λ r. (truth : World → Bool) → Finds self.old truth f → FindsExactly self.new truth r) }
    {
        if self.begin() {
            return Err(NoMemory);
        }
        self.decide(alloc, f)
    }

    /// The same, whatever the limit.
    fn decide(&mut self, alloc: Global, f: Ref) -> Result<Ref, NoMemory>
        requires { IsRef self.old.diagram f }
        ensures keeps { Keeps self.old self.new }
        ensures is_ref { IfOk result (IsRef self.new.diagram) }
        ensures answer { IfOk result (λ r. (truth : World → Bool) → Tells self.old truth f → TellsExactly self.new truth r) }
        ensures found { IfOk result (λ r. (truth : World → Bool) → Finds self.old truth f → FindsExactly self.new truth r) }
    {
        keyed_laws();
        world_laws();
        if self.is_exact(f) {
            return Ok(f);
        }
        let settled = self.settled(alloc, f)?;
        if self.is_false(settled) {
            Ok(settled)
        } else {
            Ok(f)
        }
    }

    /// Whether there is nothing to settle: no level stands for a comparison, or the function is false everywhere.
    fn is_exact(&self, f: Ref) -> bool
        requires { IsRef self.now.diagram f }
        ensures told { IsTrue result → (truth : World → Bool) → Tells self.now truth f → TellsExactly self.now truth f }
        ensures found { IsTrue result → (truth : World → Bool) → Finds self.now truth f → FindsExactly self.now truth f }
    {
        keyed_laws();
        world_laws();
        self.levels.keys().is_empty() || self.arena.is_false(f)
    }

    /// A function that is false everywhere exactly where `f` is false at all lawful values. Where comparisons contradict one another
    /// by arithmetic alone, nothing has to be made exact.
    fn settled(&mut self, alloc: Global, f: Ref) -> Result<Ref, NoMemory>
        requires { IsRef self.old.diagram f }
        ensures keeps { Keeps self.old self.new }
        ensures keyed { AreKeyed (worlds_of self.old) }
        ensures answer { IfOk result (IsSettled self.old.diagram self.new.diagram (worlds_of self.old) f) }
    {
        let rest = without_conflicts(alloc, &mut self.arena, &self.levels, f)?;
        settle(
            alloc,
            &mut self.arena,
            &mut self.sums,
            &self.levels,
            &mut self.exact,
            rest,
        )
    }
}
