//! The steps of a comparison, one a level. What waits for the levels after it waits in a list.
ghost use Rattle.std.specs.Prelude.{◌≡◌, ℕ, ◌+◌, ◌<◌, ◌≤◌, if◌then◌else◌, nat_le, length, drop, IfOk};
ghost use Rattle.bdd_core.specs.Diagram.{IsRef, meaning};
ghost use Rattle.bdd_core.specs.Calls.{Keeps, Represents};
ghost use Rattle.spelled_numbers.specs.Sums.{total_weight, AreLevels};
ghost use Rattle.spelled_numbers.specs.Steps.{AllRight, IsAtMost, counts, counted, weight_at};
ghost use Rattle.spelled_numbers.specs.Waiting.{Waits, Leads, HasAnswer};

use crate::step::Step;
use crate::sum_table::SumTable;
use crate::weighted::Weighted;
use bdd_core::{Arena, Ref};
use rsml_base::NoMemory;

impl SumTable {
    /// Where the levels count to at most `room`. All their weights sum to `rest`. Out of memory also
    /// after 2^64 steps, which no machine comes to.
    pub(crate) fn build(
        &mut self,
        arena: &mut Arena,
        terms: &[Weighted],
        rest: u64,
        room: u64,
    ) -> Result<Ref, NoMemory>
        requires levels { AreLevels arena.old terms.now }
        requires rest { rest ≡ total_weight terms.now }
        requires right { AllRight arena.old terms.now self.old }
        ensures keeps { Keeps arena.old arena.new }
        ensures right { AllRight arena.new terms.now self.new }
        ensures answer { IfOk result (IsAtMost arena.new terms.now room) }
    {
        let mut waiting = Vec::new(*self.slots.allocator());
        let mut answer = self.descend(arena, terms, rest, room, &mut waiting)?;
        for _turn in 0..u64::MAX {
            let Some(step) = waiting.pop() else {
                return Ok(answer);
            };
            answer = self.resume(arena, terms, step, answer, &mut waiting)?;
        }
        Err(NoMemory)
    }

    /// Goes down to levels that are answered at once, where those before them do not count. The steps
    /// of these wait.
    fn descend(
        &self,
        arena: &Arena,
        terms: &[Weighted],
        rest: u64,
        room: u64,
        waiting: &mut Vec<Step>,
    ) -> Result<Ref, NoMemory>
        requires within { length waiting.old.items ≤ length terms.now }
        requires rest { rest ≡ total_weight (drop (length waiting.old.items) terms.now) }
        requires right { AllRight arena.now terms.now self.now }
        ensures { IfOk result (λ r. (first : ℕ) → Waits arena.now terms.now first waiting.old.items room
            → Leads arena.now terms.now first waiting.new.items r) }
    {
        let mut rest = rest;
        'down: loop {
            if rest <= room {
                return Ok(arena.constant(true));
            }
            let at = waiting.len();
            if let Some(answer) = self.find(at, room) {
                return Ok(answer);
            }
            waiting.push(Step {
                rest,
                room,
                out: None,
            })?;
            rest -= terms[at].weight;
        }
    }

    /// Goes on with a step by the answer that it waits for: asks the levels after its own where that
    /// counts, or answers it.
    fn resume(
        &mut self,
        arena: &mut Arena,
        terms: &[Weighted],
        step: Step,
        answer: Ref,
        waiting: &mut Vec<Step>,
    ) -> Result<Ref, NoMemory>
        requires levels { AreLevels arena.old terms.now }
        requires right { AllRight arena.old terms.now self.old }
        requires answer { HasAnswer arena.old terms.now (length waiting.old.items) step answer }
        ensures keeps { Keeps arena.old arena.new }
        ensures right { AllRight arena.new terms.now self.new }
        ensures leads { IfOk result (λ r. (first : ℕ) → Waits arena.old terms.now first waiting.old.items step.room
            → Leads arena.new terms.now first waiting.new.items r) }
    {
        let at = waiting.len();
        let weight = terms[at].weight;
        if let Some(out) = step.out {
            return self.join(arena, terms, at, step.room, answer, out);
        }
        if step.room < weight {
            let within = arena.constant(false);
            return self.join(arena, terms, at, step.room, within, answer);
        }
        waiting.push(Step {
            rest: step.rest,
            room: step.room,
            out: Some(answer),
        })?;
        self.descend(
            arena,
            terms,
            step.rest - weight,
            step.room - weight,
            waiting,
        )
    }

    /// The answer of a step by the two that it needs, which is kept.
    fn join(
        &mut self,
        arena: &mut Arena,
        terms: &[Weighted],
        at: usize,
        room: u64,
        within: Ref,
        out: Ref,
    ) -> Result<Ref, NoMemory>
        requires levels { AreLevels arena.old terms.now }
        requires at { at < length terms.now }
        requires right { AllRight arena.old terms.now self.old }
        requires within { Represents arena.old (λ values.
            nat_le (weight_at terms.now at + counted values (drop (at + 1) terms.now)) room) within }
        requires out { IsAtMost arena.old (drop (at + 1) terms.now) room out }
        ensures keeps { Keeps arena.old arena.new }
        ensures right { AllRight arena.new terms.now self.new }
        ensures answer { IfOk result (IsAtMost arena.new (drop at terms.now) room) }
    {
        let answer = choose(arena, terms[at], within, out)?;
        self.keep(at, room, answer);
        Ok(answer)
    }
}

/// `within` where the level counts, else `out`.
fn choose(arena: &mut Arena, term: Weighted, within: Ref, out: Ref) -> Result<Ref, NoMemory>
    requires level { term.level < arena.old.levels }
    requires within { IsRef arena.old within }
    requires out { IsRef arena.old out }
    ensures keeps { Keeps arena.old arena.new }
    ensures answer { IfOk result (Represents arena.new (λ values.
        if counts (values term.level) term then meaning arena.old within values
        else meaning arena.old out values)) }
{
    let test = arena.var(term.level)?;
    if term.minus {
        arena.ite(test, out, within)
    } else {
        arena.ite(test, within, out)
    }
}
