//! A function where some of its levels may have any value.
ghost use Rattle.std.specs.Prelude.{◌≡◌, ℕ, ◌+◌, ◌*◌, ◌<◌, ◌≤◌, true, length, slice_index, IfOk, IfSome, IfNone};
ghost use Rattle.bdd_core.specs.Diagram.{IsRef, IsReduced, level_of};
ghost use Rattle.bdd_core.specs.Calls.{Keeps, is_in, IsForgotten};
ghost use Rattle.bdd_core.specs.Steps.{AreRight, IsWithout, IsJoined, IsGreatest};
ghost use Rattle.bdd_core.specs.Waiting.{question, Path, fours, weight, work};
ghost use Rattle.bdd_core.specs.Children.{AsksChild, HasChild, LeadsTo, IsAny, IsRest};

use super::Arena;
use crate::answers::Answers;
use crate::frame::Frame;
use crate::node::TRUE;
use crate::reference::Ref;
use rsml_base::NoMemory;
use std::alloc::Global;

impl Arena {
    /// The function that is true where `f` is with some values of these levels, the values of the
    /// other levels as they are.
    pub fn forget(&mut self, f: Ref, levels: &[u32]) -> Result<Ref, NoMemory>
        requires { IsRef self.old f }
        ensures keeps { Keeps self.old self.new }
        ensures answer { IfOk result (IsForgotten self.old self.new f levels.now) }
    {
        let f = self.place(f);
        let mut answers = Answers::new(self.allocator());
        let place = self.without(f, levels, greatest(levels), &mut answers)?;
        Ok(Ref::at(place))
    }

    pub(super) fn allocator(&self) -> Global {
        self.cuts.allocator()
    }

    /// What is left of a place. The nodes above one that has its answer wait in a list, so the depth
    /// of a function takes no stack. No level after `last` is forgotten.
    fn without(
        &mut self,
        f: u32,
        levels: &[u32],
        last: u32,
        answers: &mut Answers,
    ) -> Result<u32, NoMemory>
        requires f_ref { IsRef self.old f }
        requires last { IsGreatest levels.now last }
        requires answers { AreRight self.old levels.now answers.old.table.slots.items }
        ensures keeps { Keeps self.old self.new }
        ensures without { IfOk result (λ r. IsWithout self.new f levels.now r) }
    {
        self.laws();
        let mut waiting = Vec::new(self.allocator());
        let mut answer = self.descend_without(f, levels, last, answers, &mut waiting)?;
        while let Some(frame) = waiting.pop() {
            answer = self.resume_without(frame, levels, last, answer, answers, &mut waiting)?;
        }
        Ok(answer)
    }

    /// Goes on with a node by what is left of the child that it waits for: with its high child, or by
    /// answering it.
    fn resume_without(
        &mut self,
        frame: Frame,
        levels: &[u32],
        last: u32,
        answer: u32,
        answers: &mut Answers,
        waiting: &mut Vec<Frame>,
    ) -> Result<u32, NoMemory>
        requires last { IsGreatest levels.now last }
        requires answers { AreRight self.old levels.now answers.old.table.slots.items }
        requires answer { HasChild IsAny (IsRest levels.now) self.old frame answer }
        ensures keeps { Keeps self.old self.new }
        ensures answers { IfOk result (λ _. AreRight self.new levels.now answers.new.table.slots.items) }
        ensures leads { IfOk result (λ r. (first : ℕ × ℕ × ℕ)
            → Path (AsksChild IsAny (IsRest levels.now) self.old) first waiting.old.items (question frame)
            → LeadsTo IsAny (IsRest levels.now) self.new first waiting.new.items r) }
        ensures less { IfOk result (λ _. work waiting.new.items < work waiting.old.items + weight frame) }
    {
        self.laws();
        let top = self.level(frame.f);
        let forgotten = levels.contains(&top);
        let Some(low) = frame.low else {
            if is_settled(forgotten, answer) {
                answers.make_room()?;
                answers.keep(frame.f, TRUE);
                return Ok(TRUE);
            }
            waiting.push(Frame {
                f: frame.f,
                g: frame.g,
                h: frame.h,
                low: Some(answer),
            })?;
            let (_, high) = self.own_children(frame.f);
            return self.descend_without(high, levels, last, answers, waiting);
        };
        let joined = self.joined(top, low, answer, forgotten)?;
        answers.make_room()?;
        answers.keep(frame.f, joined);
        Ok(joined)
    }

    /// Goes down the low children to a place that is answered at once. The nodes above it wait.
    fn descend_without(
        &self,
        f: u32,
        levels: &[u32],
        last: u32,
        answers: &Answers,
        waiting: &mut Vec<Frame>,
    ) -> Result<u32, NoMemory>
        requires f_ref { IsRef self.now f }
        requires last { IsGreatest levels.now last }
        requires answers { AreRight self.now levels.now answers.now.table.slots.items }
        ensures leads { IfOk result (λ r. (first : ℕ × ℕ × ℕ)
            → Path (AsksChild IsAny (IsRest levels.now) self.now) first waiting.old.items (f, 0, 0)
            → LeadsTo IsAny (IsRest levels.now) self.now first waiting.new.items r) }
        ensures most { IfOk result (λ _. work waiting.new.items
            ≤ work waiting.old.items + 2 * fours f) }
    {
        let mut asked = f;
        'down: loop {
            if let Some(answer) = self.rest_at_once(asked, levels, last, answers) {
                return Ok(answer);
            }
            waiting.push(Frame {
                f: asked,
                g: 0,
                h: 0,
                low: None,
            })?;
            let (low, _) = self.own_children(asked);
            asked = low;
        }
    }

    /// What is left of a place that is its own answer, or whose answer was kept.
    #[inline(always)]
    fn rest_at_once(&self, f: u32, levels: &[u32], last: u32, answers: &Answers) -> Option<u32>
        requires f_ref { IsRef self.now f }
        requires last { IsGreatest levels.now last }
        requires answers { AreRight self.now levels.now answers.now.table.slots.items }
        ensures right { IfSome result (λ r. IsWithout self.now f levels.now r) }
        ensures open { IfNone result (2 ≤ f) }
        ensures reduced { IsReduced self.now }
    {
        let top = self.level(f);
        if f < 2 || last < top {
            return Some(f);
        }
        answers.find(f)
    }

    /// What is left of a node by what is left of its children: where its level is forgotten, that
    /// one of them is true.
    #[inline(always)]
    fn joined(&mut self, level: u32, low: u32, high: u32, forgotten: bool) -> Result<u32, NoMemory>
        requires fits { level < self.old.levels }
        requires true_ref { IsRef self.old 1 }
        requires low_ref { IsRef self.old low }
        requires high_ref { IsRef self.old high }
        requires true_level { level < level_of self.old 1 }
        requires low_level { level < level_of self.old low }
        requires high_level { level < level_of self.old high }
        ensures keeps { Keeps self.old self.new }
        ensures joined { IfOk result (IsJoined self.new level low high forgotten) }
    {
        if forgotten {
            self.choose(low, TRUE, high)
        } else {
            self.make(level, low, high)
        }
    }
}

/// Whether what is left of a node is true by its low child alone.
#[inline(always)]
fn is_settled(forgotten: bool, low: u32) -> bool
    ensures level { result ≡ true → forgotten ≡ true }
    ensures child { result ≡ true → low ≡ 1 }
{
    forgotten && low == TRUE
}

/// The greatest of the levels, and 0 where there is none.
fn greatest(levels: &[u32]) -> u32
    ensures { (k : ℕ) → k < length levels.now → slice_index levels.now k ≤ result }
{
    levels.iter().copied().max().unwrap_or(0)
}
