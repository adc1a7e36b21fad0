//! A function where one of its levels has a value.
ghost use Rattle.std.specs.Prelude.{◌≡◌, ◌≢◌, ℕ, ◌+◌, ◌*◌, ◌<◌, ◌≤◌, Bool, Some, IfOk, IfSome, IfNone};
ghost use Rattle.bdd_core.specs.Diagram.{IsRef, IsReduced, level_of, meaning};
ghost use Rattle.bdd_core.specs.Calls.{Keeps, Represents, with_value};
ghost use Rattle.bdd_core.specs.Steps.{IsCut};
ghost use Rattle.bdd_core.specs.Waiting.{question, Path, fours, weight, work};
ghost use Rattle.bdd_core.specs.Children.{AsksChild, HasChild, LeadsTo, IsApart, IsCutAt};

use super::Arena;
use crate::computed::Kept;
use crate::frame::Frame;
use crate::reference::Ref;
use rsml_base::NoMemory;

impl Arena {
    /// The function that `f` is where a level has a value, whatever the value of that level.
    pub fn restrict(&mut self, f: Ref, level: u32, value: bool) -> Result<Ref, NoMemory>
        requires { IsRef self.old f }
        ensures keeps { Keeps self.old self.new }
        ensures answer { IfOk result (Represents self.new (λ values.
            meaning self.old f (with_value values level value))) }
    {
        let f = self.place(f);
        let place = self.cut(f, level, value)?;
        Ok(Ref::at(place))
    }

    /// The cut of a place. The nodes above one that has its answer wait in a list, so the depth of a
    /// function takes no stack.
    fn cut(&mut self, f: u32, level: u32, value: bool) -> Result<u32, NoMemory>
        requires { IsRef self.old f }
        ensures keeps { Keeps self.old self.new }
        ensures cut { IfOk result (λ r. IsCut self.new f level value r) }
    {
        self.laws();
        let mut waiting = Vec::new(self.allocator());
        let mut answer = self.descend_cut(f, level, value, &mut waiting)?;
        while let Some(frame) = waiting.pop() {
            answer = self.resume_cut(frame, level, value, answer, &mut waiting)?;
        }
        Ok(answer)
    }

    /// Goes on with a node by the cut of the child that it waits for: with its high child, or by
    /// answering it.
    fn resume_cut(
        &mut self,
        frame: Frame,
        level: u32,
        value: bool,
        answer: u32,
        waiting: &mut Vec<Frame>,
    ) -> Result<u32, NoMemory>
        requires { HasChild (IsApart level) (IsCutAt level value) self.old frame answer }
        ensures keeps { Keeps self.old self.new }
        ensures leads { IfOk result (λ r. (first : ℕ × ℕ × ℕ)
            → Path (AsksChild (IsApart level) (IsCutAt level value) self.old) first waiting.old.items (question frame)
            → LeadsTo (IsApart level) (IsCutAt level value) self.new first waiting.new.items r) }
        ensures less { IfOk result (λ _. work waiting.new.items < work waiting.old.items + weight frame) }
    {
        self.laws();
        let Some(low) = frame.low else {
            waiting.push(Frame {
                f: frame.f,
                g: frame.g,
                h: frame.h,
                low: Some(answer),
            })?;
            let (_, high) = self.own_children(frame.f);
            return self.descend_cut(high, level, value, waiting);
        };
        self.joined_cut(frame, level, value, low, answer)
    }

    /// The cut of a node by the cuts of its children, which is kept.
    #[inline(always)]
    fn joined_cut(
        &mut self,
        frame: Frame,
        level: u32,
        value: bool,
        low: u32,
        high: u32,
    ) -> Result<u32, NoMemory>
        requires low { frame.low ≡ Some low }
        requires high { HasChild (IsApart level) (IsCutAt level value) self.old frame high }
        ensures keeps { Keeps self.old self.new }
        ensures cut { IfOk result (λ r. IsCut self.new frame.f level value r) }
    {
        let top = self.level(frame.f);
        let answer = self.make(top, low, high)?;
        self.note_cut(frame.f, level, value, answer)?;
        Ok(answer)
    }

    /// Goes down the low children to a place that is answered at once. The nodes above it wait.
    fn descend_cut(
        &self,
        f: u32,
        level: u32,
        value: bool,
        waiting: &mut Vec<Frame>,
    ) -> Result<u32, NoMemory>
        requires { IsRef self.now f }
        ensures leads { IfOk result (λ r. (first : ℕ × ℕ × ℕ)
            → Path (AsksChild (IsApart level) (IsCutAt level value) self.now) first waiting.old.items (f, 0, 0)
            → LeadsTo (IsApart level) (IsCutAt level value) self.now first waiting.new.items r) }
        ensures most { IfOk result (λ _. work waiting.new.items
            ≤ work waiting.old.items + 2 * fours f) }
    {
        let mut asked = f;
        'down: loop {
            if let Some(answer) = self.cut_at_once(asked, level, value) {
                return Ok(answer);
            }
            waiting.push(Frame {
                f: asked,
                g: 0,
                h: 0,
                low: None,
            })?;
            let (low, _) = self.own_children(asked);
            asked = low;
        }
    }

    /// The cut of a place that is its own, of a node of the level, or one that was kept.
    #[inline(always)]
    fn cut_at_once(&self, f: u32, level: u32, value: bool) -> Option<u32>
        requires { IsRef self.now f }
        ensures right { IfSome result (λ r. IsCut self.now f level value r) }
        ensures open { IfNone result (2 ≤ f) }
        ensures apart { IfNone result (level_of self.now f ≢ level) }
        ensures reduced { IsReduced self.now }
    {
        let top = self.level(f);
        if f < 2 || level < top {
            return Some(f);
        }
        if top == level {
            let (low, high) = self.children(f, top);
            return Some(if value { high } else { low });
        }
        self.known_cut(f, level, value)
    }

    /// The answer that was kept of this cut, if any.
    #[inline(always)]
    fn known_cut(&self, f: u32, level: u32, value: bool) -> Option<u32>
        ensures { IfSome result (λ r. IsCut self.now f level value r) }
    {
        self.cuts.find(f, level, value as u32)
    }

    /// Keeps the answer of a cut.
    #[inline(always)]
    fn note_cut(&mut self, f: u32, level: u32, value: bool, answer: u32) -> Result<(), NoMemory>
        requires f_ref { IsRef self.old f }
        requires right { IsCut self.old f level value answer }
        ensures { self.new ≡ self.old }
    {
        self.make_room_for_cuts()?;
        self.cuts.keep(Kept {
            f,
            g: level,
            h: value as u32,
            answer,
        });
        Ok(())
    }

    /// Gives the table of cuts a quarter as many slots as there are nodes.
    #[inline(always)]
    fn make_room_for_cuts(&mut self) -> Result<(), NoMemory>
        ensures { self.new ≡ self.old }
    {
        self.cuts.make_room(self.nodes.len() / 4)
    }
}
