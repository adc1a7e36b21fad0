//! The calls that combine functions, all of them by one: `if f then g else h`.
ghost use Rattle.std.specs.Prelude.{◌≡◌, ◌≢◌, ℕ, ◌+◌, ◌*◌, ◌<◌, ◌≤◌, Bool, true, false, not, ◌&&◌, ◌||◌, if◌then◌else◌, length, IfOk, IfSome, IfNone};
ghost use Rattle.bdd_core.specs.Diagram.{Diagram, IsRef, meaning};
ghost use Rattle.bdd_core.specs.Reach.{IsSize};
ghost use Rattle.bdd_core.specs.Calls.{Keeps, Represents, AddsConjunctions};
ghost use Rattle.bdd_core.specs.Steps.{IsChoice, IsSameChoice};
ghost use Rattle.bdd_core.specs.Waiting.{question, Path, IsPart, IsHalf, IsOpen, AsksChoice, HasAnswer, Leads, fours, weight, work};

use super::Arena;
use crate::computed::Kept;
use crate::frame::Frame;
use crate::node::{FALSE, TRUE};
use crate::reference::Ref;
use rsml_base::NoMemory;

impl Arena {
    /// The function that is true where the level is.
    pub fn var(&mut self, level: u32) -> Result<Ref, NoMemory>
        requires { level < self.old.levels }
        ensures keeps { Keeps self.old self.new }
        ensures answer { IfOk result (Represents self.new (λ values. values level)) }
    {
        let _ = &self.levels;
        let place = self.make(level, FALSE, TRUE)?;
        Ok(Ref::at(place))
    }

    /// The negation.
    pub fn not(&mut self, f: Ref) -> Result<Ref, NoMemory>
        requires { IsRef self.old f }
        ensures keeps { Keeps self.old self.new }
        ensures answer { IfOk result (Represents self.new (λ values.
            not (meaning self.old f values))) }
    {
        let f = self.place(f);
        let place = self.choose(f, FALSE, TRUE)?;
        Ok(Ref::at(place))
    }

    /// The conjunction. Also where it is refused, each node that it adds is a conjunction of a node
    /// reached from `f` and one reached from `g`, so it adds at most `size(f) * size(g)` nodes.
    pub fn and(&mut self, f: Ref, g: Ref) -> Result<Ref, NoMemory>
        requires f_ref { IsRef self.old f }
        requires g_ref { IsRef self.old g }
        ensures keeps { Keeps self.old self.new }
        ensures answer { IfOk result (Represents self.new (λ values.
            meaning self.old f values && meaning self.old g values)) }
        ensures added { AddsConjunctions self.old self.new f g }
        ensures few { (f_size g_size : ℕ) → IsSize self.old f f_size → IsSize self.old g g_size
            → length self.new.nodes ≤ length self.old.nodes + f_size * g_size }
    {
        let f = self.place(f);
        let g = self.place(g);
        let place = self.choose(f, g, FALSE);
        self.laws();
        Ok(Ref::at(place?))
    }

    /// The disjunction.
    pub fn or(&mut self, f: Ref, g: Ref) -> Result<Ref, NoMemory>
        requires f_ref { IsRef self.old f }
        requires g_ref { IsRef self.old g }
        ensures keeps { Keeps self.old self.new }
        ensures answer { IfOk result (Represents self.new (λ values.
            meaning self.old f values || meaning self.old g values)) }
    {
        let f = self.place(f);
        let g = self.place(g);
        let place = self.choose(f, TRUE, g)?;
        Ok(Ref::at(place))
    }

    /// `g` where `f` is true, and else `h`.
    pub fn ite(&mut self, f: Ref, g: Ref, h: Ref) -> Result<Ref, NoMemory>
        requires f_ref { IsRef self.old f }
        requires g_ref { IsRef self.old g }
        requires h_ref { IsRef self.old h }
        ensures keeps { Keeps self.old self.new }
        ensures answer { IfOk result (Represents self.new (λ values.
            if meaning self.old f values then meaning self.old g values
            else meaning self.old h values)) }
    {
        let f = self.place(f);
        let g = self.place(g);
        let h = self.place(h);
        let place = self.choose(f, g, h)?;
        Ok(Ref::at(place))
    }

    /// A choice that is not answered at once waits in a list for the answers of its children, so the
    /// depth of a function takes no stack.
    pub(super) fn choose(&mut self, f: u32, g: u32, h: u32) -> Result<u32, NoMemory>
        requires f_ref { IsRef self.old f }
        requires g_ref { IsRef self.old g }
        requires h_ref { IsRef self.old h }
        ensures keeps { Keeps self.old self.new }
        ensures choice { IfOk result (λ r. IsChoice self.new f g h r) }
        ensures added { h ≡ 0 → AddsConjunctions self.old self.new f g }
    {
        self.laws();
        let mut waiting = Vec::new(self.allocator());
        let mut answer = self.descend(f, g, h, &mut waiting)?;
        while let Some(frame) = waiting.pop() {
            answer = self.resume(frame, answer, &mut waiting)?;
        }
        Ok(answer)
    }

    /// Goes on with the choice of a frame by the answer of the child that it waits for: asks its high
    /// child, or answers it.
    fn resume(
        &mut self,
        frame: Frame,
        answer: u32,
        waiting: &mut Vec<Frame>,
    ) -> Result<u32, NoMemory>
        requires { HasAnswer self.old frame answer }
        ensures keeps { Keeps self.old self.new }
        ensures leads { IfOk result (λ r. (first : ℕ × ℕ × ℕ)
            → Path (AsksChoice self.old) first waiting.old.items (question frame)
            → Leads self.new first waiting.new.items r) }
        ensures added { (k : ℕ) → length self.old.nodes ≤ k → IsRef self.new k
            → IsChoice self.new frame.f frame.g frame.h k }
        ensures less { IfOk result (λ _. work waiting.new.items < work waiting.old.items + weight frame) }
    {
        self.laws();
        let Some(low) = frame.low else {
            waiting.push(Frame {
                f: frame.f,
                g: frame.g,
                h: frame.h,
                low: Some(answer),
            })?;
            let (f, g, h) = self.part(frame.f, frame.g, frame.h, true);
            return self.descend(f, g, h, waiting);
        };
        self.joined_choice(frame, low, answer)
    }

    /// Goes down the low children to a choice that is answered at once. Those above it wait.
    fn descend(&self, f: u32, g: u32, h: u32, waiting: &mut Vec<Frame>) -> Result<u32, NoMemory>
        requires f_ref { IsRef self.now f }
        requires g_ref { IsRef self.now g }
        requires h_ref { IsRef self.now h }
        ensures leads { IfOk result (λ r. (first : ℕ × ℕ × ℕ)
            → Path (AsksChoice self.now) first waiting.old.items (f, g, h)
            → Leads self.now first waiting.new.items r) }
        ensures most { IfOk result (λ _. work waiting.new.items
            ≤ work waiting.old.items + 2 * fours (f + g + h)) }
    {
        let mut asked = (f, g, h);
        'down: loop {
            let (f, g, h) = asked;
            if let Some(answer) = self.at_once(f, g, h) {
                return Ok(answer);
            }
            waiting.push(Frame { f, g, h, low: None })?;
            asked = self.part(f, g, h, false);
        }
    }

    /// The answer of a choice that is simple or was kept.
    #[inline(always)]
    fn at_once(&self, f: u32, g: u32, h: u32) -> Option<u32>
        requires f_ref { IsRef self.now f }
        requires g_ref { IsRef self.now g }
        requires h_ref { IsRef self.now h }
        ensures right { IfSome result (λ r. IsChoice self.now f g h r) }
        ensures open { IfNone result (2 ≤ f) }
    {
        if let Some(answer) = simple(f, g, h) {
            return Some(answer);
        }
        self.known(f, g, h)
    }

    /// What the choice asks where its least level has a value.
    #[inline(always)]
    fn part(&self, f: u32, g: u32, h: u32, value: bool) -> (u32, u32, u32)
        requires f_ref { IsRef self.now f }
        requires g_ref { IsRef self.now g }
        requires h_ref { IsRef self.now h }
        requires two { 2 ≤ f }
        ensures part { IsPart self.now f g h value result }
        ensures falls { result.0 + result.1 + result.2 < f + g + h }
    {
        let level = self.level(f).min(self.level(g)).min(self.level(h));
        let (f_low, f_high) = self.children(f, level);
        let (g_low, g_high) = self.children(g, level);
        let (h_low, h_high) = self.children(h, level);
        if value {
            (f_high, g_high, h_high)
        } else {
            (f_low, g_low, h_low)
        }
    }

    /// The choice of a frame by the answers of its children, which is kept.
    fn joined_choice(&mut self, frame: Frame, low: u32, high: u32) -> Result<u32, NoMemory>
        requires open { IsOpen self.old frame }
        requires low { IsHalf self.old frame.f frame.g frame.h false low }
        requires high { IsHalf self.old frame.f frame.g frame.h true high }
        ensures keeps { Keeps self.old self.new }
        ensures choice { IfOk result (λ r. IsChoice self.new frame.f frame.g frame.h r) }
        ensures added { (k : ℕ) → length self.old.nodes ≤ k → IsRef self.new k
            → IsChoice self.new frame.f frame.g frame.h k }
    {
        let Frame { f, g, h, low: _ } = frame;
        let level = self.level(f).min(self.level(g)).min(self.level(h));
        let answer = self.make(level, low, high)?;
        self.note(f, g, h, answer)?;
        Ok(answer)
    }

    /// The answer that was kept of this choice, if any.
    #[inline(always)]
    fn known(&self, f: u32, g: u32, h: u32) -> Option<u32>
        requires f_ref { IsRef self.now f }
        requires g_ref { IsRef self.now g }
        requires h_ref { IsRef self.now h }
        ensures { IfSome result (λ r. IsChoice self.now f g h r) }
    {
        let (f, g, h) = ordered(f, g, h);
        self.choices.find(f, g, h)
    }

    /// Keeps the answer of a choice.
    #[inline(always)]
    fn note(&mut self, f: u32, g: u32, h: u32, answer: u32) -> Result<(), NoMemory>
        requires f_ref { IsRef self.old f }
        requires g_ref { IsRef self.old g }
        requires h_ref { IsRef self.old h }
        requires right { IsChoice self.old f g h answer }
        ensures { self.new ≡ self.old }
    {
        self.make_room_for_choices()?;
        let (f, g, h) = ordered(f, g, h);
        self.choices.keep(Kept { f, g, h, answer });
        Ok(())
    }

    /// Gives the table of choices as many slots as there are nodes.
    #[inline(always)]
    fn make_room_for_choices(&mut self) -> Result<(), NoMemory>
        ensures { self.new ≡ self.old }
    {
        self.choices.make_room(self.nodes.len())
    }
}

/// The answer of a choice that asks nothing of its children.
#[inline(always)]
fn simple(f: u32, g: u32, h: u32) -> Option<u32>
    ensures right { IfSome result (λ r. (d : Diagram) → IsRef d f → IsRef d g → IsRef d h
        → IsChoice d f g h r) }
    ensures open { IfNone result (2 ≤ f) }
{
    if f == TRUE || g == h {
        Some(g)
    } else if f == FALSE {
        Some(h)
    } else if (g == TRUE || g == f) && (h == FALSE || h == f) {
        Some(f)
    } else {
        None
    }
}

/// The same choice, where the first operand of a conjunction or a disjunction is the one that stands
/// later in the arena.
#[inline(always)]
fn ordered(f: u32, g: u32, h: u32) -> (u32, u32, u32)
    ensures { (d : Diagram) → IsRef d f → IsRef d g → IsRef d h
        → IsSameChoice d f g h result.0 result.1 result.2 }
{
    if h == FALSE && f < g {
        (g, f, h)
    } else if g == TRUE && f < h {
        (h, g, f)
    } else {
        (f, g, h)
    }
}
