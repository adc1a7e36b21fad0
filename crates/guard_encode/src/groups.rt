//! Members and conditions of groups.
ghost use Rattle.std.specs.Prelude.{◌≡◌, ◌<◌, ◌&&◌, not, All, IfOk, Some, length, slice_get};
ghost use Rattle.std.specs.List.{list_any};
ghost use Rattle.rsml_meaning.specs.Instances.{states};
ghost use Rattle.rsml_meaning.specs.Truth.{view};
ghost use Rattle.rsml_meaning.specs.Groups as meaning;
ghost use Rattle.rsml_meaning.specs.Groups.{Group, meets, enabled};
ghost use Rattle.rsml_ground.specs.Truths.{is_active};
ghost use Rattle.ground_groups.specs.Groups.{MemberIs};
ghost use Rattle.elaborate.specs.Enabled.{enabled_at};
ghost use Rattle.guard_encode.specs.Encoding.{Tells, Keeps, IsMember};

use crate::enabled::enabled_by;
use crate::encoder::Encoder;
use bdd_core::Ref;
use elaborate::{conditions_are_those_of_the_text, members_are_enabled_as_in_the_text};
use ground_groups::{GroupKind, Member};
use rsml_base::NoMemory;

impl<'m, 'a> Encoder<'m, 'a> {
    /// Where a member of a group is enabled.
    pub fn enabled(&mut self, member: Member) -> Result<Ref, NoMemory>
        requires { IsMember self.old.machine member }
        ensures keeps { Keeps self.old self.new }
        ensures answer { IfOk result (Tells self.new (λ w. enabled_at self.new.machine w member)) }
        ensures text { IfOk result (λ r. (m : meaning.Member) → MemberIs self.new.machine.base.spec m member
            → Tells self.new (λ w. enabled (view self.new.machine.base.spec w) m) r) }
    {
        self.machine.law();
        members_are_enabled_as_in_the_text();
        enabled_by(
            &mut self.arena,
            self.active.as_slice(),
            self.phrases.as_slice(),
            self.machine,
            member,
        )
    }

    /// Where the condition of a group holds: its state is active, and none of the states inside it that have a group on its
    /// event. For sends and functions that is in every world.
    pub fn condition(&mut self, group: u32) -> Result<Ref, NoMemory>
        requires { group < length (meaning.groups self.old.machine.base.spec) }
        ensures keeps { Keeps self.old self.new }
        ensures answer { IfOk result (λ r. (g : Group) → slice_get (meaning.groups self.new.machine.base.spec) group ≡ Some g
            → Tells self.new (λ w. meets self.new.machine.base.spec (view self.new.machine.base.spec w) g) r) }
    {
        let machine = self.machine;
        machine.law();
        conditions_are_those_of_the_text();
        let groups = machine.groups();
        match groups.kind(group) {
            GroupKind::State { state, .. } => self.alone(state, groups.below(group)),
            GroupKind::Send { .. } | GroupKind::Function(_) => Ok(self.constant(true)),
        }
    }

    /// Where a state is active and none of others.
    fn alone(&mut self, state: u32, others: &[u32]) -> Result<Ref, NoMemory>
        requires state { state < length (states self.old.machine.base.spec) }
        requires others { All (λ k. k < length (states self.old.machine.base.spec)) others.now }
        ensures keeps { Keeps self.old self.new }
        ensures answer { IfOk result (Tells self.new (λ w. is_active self.new.machine.base.spec w state
            && not (list_any (is_active self.new.machine.base.spec w) others.now))) }
    {
        let other = self.some_active(others)?;
        let none = self.not(other)?;
        let active = self.active(state);
        self.and(active, none)
    }

    /// Where one of these states is active.
    fn some_active(&mut self, nodes: &[u32]) -> Result<Ref, NoMemory>
        requires { All (λ k. k < length (states self.old.machine.base.spec)) nodes.now }
        ensures keeps { Keeps self.old self.new }
        ensures answer { IfOk result (Tells self.new (λ w. list_any (is_active self.new.machine.base.spec w) nodes.now)) }
    {
        let mut out = self.constant(false);
        for node in nodes {
            let active = self.active(*node);
            out = self.or(out, active)?;
        }
        Ok(out)
    }
}
