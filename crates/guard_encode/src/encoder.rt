ghost use Rattle.std.specs.Prelude.{◌≡◌, ◌<◌, All, IfOk, length};
ghost use Rattle.rsml_meaning.specs.Cells.{cells};
ghost use Rattle.rsml_meaning.specs.Instances.{states};
ghost use Rattle.rsml_ground.specs.Rests.{GuardFits};
ghost use Rattle.rsml_ground.specs.Truths.{guard_truth, is_active, truths_in};
ghost use Rattle.keyed_levels.specs.Keyed as keyed;
ghost use Rattle.guard_encode.specs.Encoding.{HasNoBounds, Keeps, Tells};

use crate::phrases::all_phrases;
use crate::reading::named_cells;
use bdd_core::{Arena, Ref};
use elaborate::Machine;
use keyed_levels::{KeyedLevels, Plan};
use phrase_diagrams::active_states;
use rsml_base::{List, NoMemory};
use rsml_ground::GroundGuard;
use settled_worlds::ExactKeys;
use spelled_numbers::SumTable;
use std::alloc::Global;
use std::marker::Model;

/// The diagrams of a machine: functions of levels that spell its worlds, all in one arena. Contracts see it as the machine, the
/// slots of the levels, the levels that stand for comparisons, and the nodes of the arena.
pub struct Encoder<'m, 'a> {
    pub(crate) machine: &'m Machine<'a>,
    pub(crate) levels: KeyedLevels<'m, 'a>,
    pub(crate) arena: Arena,
    pub(crate) sums: SumTable,
    pub(crate) exact: ExactKeys,
    pub(crate) active: Vec<Ref>,
    pub(crate) phrases: Vec<Ref>,
    /// For each cell whether the comparison of a level names it, bounds left out.
    pub(crate) named: List<bool>,
}

impl Drop for Encoder<'_, '_> {
    fn drop(self) {
        let Self {
            machine: _,
            levels: _,
            arena: _,
            sums: _,
            exact: _,
            active: _,
            phrases: _,
            named: _,
        } = self;
    }
}

impl<'m, 'a> Model for Encoder<'m, 'a> {
    ghost use Rattle.std.specs.Prelude.{◌≡◌};
    ghost use Rattle.std.specs.Coded.{codes};
    ghost use Rattle.rsml_syntax.specs.contracts.syntax.Body as bodies;
    ghost use Rattle.guard_encode.specs.Encoding.{Encoding, encoding_of, AreEncoded};

    ghost Value = { Encoding };

    ghost coded = { Prim.hlevel (codes, bodies.the_row.coded) };

    ghost view = { λ e. encoding_of e.machine.now e.levels e.arena };

    ghost invariant = { λ e. AreEncoded e.machine.now e.levels e.arena (record {
      active = e.active.items;
      phrases = e.phrases.items;
      exact = e.exact;
    }) };
}

impl<'m, 'a> Encoder<'m, 'a> {
    /// The diagrams of the states and phrases of a machine, by a plan: an order of the levels, what is like each phrase, and comparisons
    /// beside the phrases of the machine that may have levels. So many levels are spare: bounds take them.
    pub fn with(
        alloc: Global,
        machine: &'m Machine<'a>,
        plan: Plan,
        spare: u32,
    ) -> Result<Encoder<'m, 'a>, NoMemory>
        requires { All (keyed.PhraseFits (length (cells machine.now.base.spec))) plan.beside.items }
        ensures machine { IfOk result (λ e. e.machine ≡ machine.now) }
        ensures bounds { IfOk result HasNoBounds }
    {
        let Plan {
            order,
            alike,
            beside,
        } = plan;
        let levels = KeyedLevels::new(
            alloc,
            machine.macros(),
            machine.worlds(),
            order.as_slice(),
            beside,
            spare,
        )?;
        Encoder::over(alloc, machine, levels, alike.as_slice())
    }

    /// The same, over these levels, with the first comparison that is like each phrase.
    fn over(
        alloc: Global,
        machine: &'m Machine<'a>,
        levels: KeyedLevels<'m, 'a>,
        alike: &[u32],
    ) -> Result<Encoder<'m, 'a>, NoMemory>
        requires base { levels.base ≡ machine.now.base }
        requires bounds { keyed.HasNoBounds levels }
        ensures machine { IfOk result (λ e. e.machine ≡ machine.now) }
        ensures bounds { IfOk result HasNoBounds }
    {
        machine.law();
        let exact = ExactKeys::new(alloc, levels.keys().len())?;
        let mut arena = Arena::new(alloc, levels.layout().levels())?;
        let mut sums = SumTable::new(alloc)?;
        let active = active_states(
            alloc,
            &mut arena,
            &mut sums,
            levels.layout(),
            machine.tree(),
        )?;
        let phrases = all_phrases(
            alloc,
            &mut arena,
            &mut sums,
            &levels,
            active.as_slice(),
            levels.macros(),
            alike,
        )?;
        let named = named_cells(alloc, &levels)?;
        Ok(Encoder {
            machine,
            levels,
            arena,
            sums,
            exact,
            active,
            phrases,
            named,
        })
    }

    /// The machine.
    pub fn machine(&self) -> &'m Machine<'a>
        ensures { result.now ≡ self.now.machine }
    {
        let _ = &self.arena;
        self.machine
    }

    /// How many nodes the diagrams have, the two constants counted.
    pub fn node_count(&self) -> usize
        ensures { result ≡ length self.now.diagram.nodes }
    {
        let _ = &self.levels;
        self.arena.node_count()
    }

    /// From now on `decided` is out of memory where a function takes more than its part of so many nodes.
    pub fn limit(&mut self, nodes: usize)
        ensures { self.new ≡ self.old }
    {
        self.exact.limit(nodes);
    }

    /// Begins a question to `decided`: whether the limit leaves nothing for it.
    pub(crate) fn begin(&mut self) -> bool
        ensures { self.new ≡ self.old }
    {
        self.exact.begin(self.arena.node_count());
        self.is_spent()
    }

    /// Whether `decided` was out of memory, when it was asked last, by that limit.
    pub fn is_spent(&self) -> bool {
        self.exact.is_spent(self.arena.node_count())
    }

    /// Where a state is active.
    pub fn active(&self, node: u32) -> Ref
        requires { node < length (states self.now.machine.base.spec) }
        ensures { Tells self.now (λ w. is_active self.now.machine.base.spec w node) result }
    {
        let _ = &self.arena;
        self.active[node as usize]
    }

    /// Where a guard is true.
    pub fn guard(&mut self, guard: &GroundGuard) -> Result<Ref, NoMemory>
        requires { GuardFits (length self.old.machine.base.phrases) guard.now }
        ensures keeps { Keeps self.old self.new }
        ensures answer { IfOk result (Tells self.new (λ w. guard_truth (truths_in self.new.machine.base w) guard.now)) }
    {
        phrase_diagrams::guard(&mut self.arena, self.phrases.as_slice(), guard)
    }
}
