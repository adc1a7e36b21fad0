//! Functions of functions.
ghost use Rattle.std.specs.Prelude.{◌≡◌, ◌<◌, ◌==◌, ◌&&◌, ◌||◌, ◌↔◌, ℕ, Bool, not, false, if◌then◌else◌, IsTrue, IfOk, length, slice_index_or, int_le, pos};
ghost use Rattle.rsml_syntax.specs.declared.world.World.{World};
ghost use Rattle.rsml_meaning.specs.Instances.{components};
ghost use Rattle.rsml_meaning.specs.Cells.{cells};
ghost use Rattle.bdd_core.specs.Diagram.{IsRef, meaning};
ghost use Rattle.bdd_core.specs.Calls.{Represents};
ghost use Rattle.guard_encode.specs.Encoding.{Finds, Keeps, Tells, is_at_most, worlds_of};

use crate::encoder::Encoder;
use bdd_core::Ref;
use rsml_base::NoMemory;

impl<'m, 'a> Encoder<'m, 'a> {
    /// True in every world, or in none.
    pub fn constant(&self, value: bool) -> Ref
        ensures { Tells self.now (λ w. value) result }
    {
        self.arena.constant(value)
    }

    /// True in the worlds in which `f` is not.
    pub fn not(&mut self, f: Ref) -> Result<Ref, NoMemory>
        requires { IsRef self.old.diagram f }
        ensures keeps { Keeps self.old self.new }
        ensures is_ref { IfOk result (IsRef self.new.diagram) }
        ensures answer { IfOk result (λ r. (truth : World → Bool) → Tells self.old truth f
            → Tells self.new (λ w. not (truth w)) r) }
        ensures values { IfOk result (Represents self.new.diagram (λ v. not (meaning self.old.diagram f v))) }
    {
        self.arena.not(f)
    }

    /// True in the worlds in which both are.
    pub fn and(&mut self, f: Ref, g: Ref) -> Result<Ref, NoMemory>
        requires f_ref { IsRef self.old.diagram f }
        requires g_ref { IsRef self.old.diagram g }
        ensures keeps { Keeps self.old self.new }
        ensures is_ref { IfOk result (IsRef self.new.diagram) }
        ensures answer { IfOk result (λ r. (one other : World → Bool) → Tells self.old one f → Tells self.old other g
            → Tells self.new (λ w. one w && other w) r) }
        ensures found { IfOk result (λ r. (one other : World → Bool) → Finds self.old one f → Tells self.old other g
            → Finds self.new (λ w. one w && other w) r) }
        ensures values { IfOk result (Represents self.new.diagram (λ v. meaning self.old.diagram f v && meaning self.old.diagram g v)) }
    {
        self.arena.and(f, g)
    }

    /// True in the worlds in which one of them is.
    pub fn or(&mut self, f: Ref, g: Ref) -> Result<Ref, NoMemory>
        requires f_ref { IsRef self.old.diagram f }
        requires g_ref { IsRef self.old.diagram g }
        ensures keeps { Keeps self.old self.new }
        ensures is_ref { IfOk result (IsRef self.new.diagram) }
        ensures answer { IfOk result (λ r. (one other : World → Bool) → Tells self.old one f → Tells self.old other g
            → Tells self.new (λ w. one w || other w) r) }
    {
        self.arena.or(f, g)
    }

    /// True in the worlds in which `g` is where `f` is true, and in those in which `h` is where `f` is not.
    pub fn ite(&mut self, f: Ref, g: Ref, h: Ref) -> Result<Ref, NoMemory>
        requires f_ref { IsRef self.old.diagram f }
        requires g_ref { IsRef self.old.diagram g }
        requires h_ref { IsRef self.old.diagram h }
        ensures keeps { Keeps self.old self.new }
        ensures is_ref { IfOk result (IsRef self.new.diagram) }
        ensures answer { IfOk result (λ r. (condition one other : World → Bool) → Tells self.old condition f → Tells self.old one g
            → Tells self.old other h → Tells self.new (λ w. if condition w then one w else other w) r) }
    {
        self.arena.ite(f, g, h)
    }

    /// Whether this is the function that is false everywhere.
    pub fn is_false(&self, f: Ref) -> bool
        requires { IsRef self.now.diagram f }
        ensures { IsTrue result ↔ ((values : ℕ → Bool) → meaning self.now.diagram f values ≡ false) }
    {
        self.arena.is_false(f)
    }

    /// True in the worlds in which a component has the child at a place.
    pub fn choice(&mut self, component: u32, place: u8) -> Result<Ref, NoMemory>
        requires { component < length (components self.old.machine.base.spec) }
        ensures keeps { Keeps self.old self.new }
        ensures answer { IfOk result (Tells self.new (λ w. slice_index_or w.choices component 0 == place)) }
    {
        phrase_diagrams::choice(
            &mut self.arena,
            &mut self.sums,
            self.levels.layout(),
            component,
            place,
        )
    }

    /// True in the worlds in which a cell has at most this number.
    pub fn at_most(&mut self, cell: u32, number: i64) -> Result<Ref, NoMemory>
        requires { cell < length (cells self.old.machine.base.spec) }
        ensures keeps { Keeps self.old self.new }
        ensures answer { IfOk result (Tells self.new (λ w. int_le (slice_index_or w.cells cell (pos 0)) number)) }
        ensures values { IfOk result (Represents self.new.diagram (is_at_most (worlds_of self.old) cell number)) }
    {
        phrase_diagrams::at_most(
            &mut self.arena,
            &mut self.sums,
            self.levels.layout(),
            cell,
            number,
        )
    }
}
