ghost use Rattle.std.specs.Prelude.{◌≡◌, IfOk, length};
ghost use Rattle.rsml_meaning.specs.Instances.{events as all_events};
ghost use Rattle.rsml_ground.specs.Grounded.{IsShort};
ghost use Rattle.elaborate.specs.Machine.{StandsFor, of_parts};

use crate::instances::Instances;
use crate::members::Members;
use crate::written::{Written, write};
use ground_groups::Groups;
use rsml_syntax::{Checked, NoMemory};
use state_tree::Tree;
use std::alloc::Global;
use std::marker::Model;

/// The transitions and cases of sends of a specification with its phrases, and its groups.
pub struct Behaviour<'a> {
    members: Members<'a>,
    groups: Groups<'a>,
}

impl Drop for Behaviour<'_> {
    fn drop(self) {
        let Self {
            members: _,
            groups: _,
        } = self;
    }
}

impl<'a> Model for Behaviour<'a> {
    ghost use Rattle.std.specs.Prelude.{◌≡◌};
    ghost use Rattle.std.specs.Coded.{codes};
    ghost use Rattle.rsml_syntax.specs.contracts.syntax.Body as bodies;
    ghost use Rattle.elaborate.specs.Machine.{GroundMachine};

    ghost Value = { GroundMachine };

    ghost coded = { Prim.hlevel (codes, bodies.the_row.coded) };

    ghost view = { λ b. b.members };

    ghost invariant = { λ b. b.groups ≡ b.members.base.spec };
}

// The groups of what was written.
fn groups<'a>(
    alloc: Global,
    checked: &'a Checked,
    tree: &Tree<'_>,
    written: &Written,
) -> Result<Groups<'a>, NoMemory>
    requires tree { tree.now ≡ checked.now }
    requires stands { StandsFor (of_parts checked.now written.now.phrases written.now.definitions.items
        written.now.transitions.items written.now.send_cases.items) }
    ensures { IfOk result (λ g. g ≡ checked.now) }
{
    Groups::build(
        alloc,
        checked,
        tree,
        written.transitions.as_slice(),
        written.send_cases.as_slice(),
        written.definitions.as_slice(),
    )
}

impl<'a> Behaviour<'a> {
    /// Those of a specification with so many events.
    pub fn new(
        alloc: Global,
        checked: &'a Checked,
        instances: &Instances<'_>,
        events: u32,
    ) -> Result<Behaviour<'a>, NoMemory>
        requires instances { instances.now ≡ checked.now }
        requires short { IsShort checked.now }
        requires events { events ≡ length (all_events checked.now) }
        ensures { IfOk result (λ b. b.base.spec ≡ checked.now) }
    {
        let tree = instances.worlds().tree();
        let written = write(alloc, checked, instances.names(), tree)?;
        let groups = groups(alloc, checked, tree, &written)?;
        let members = Members::new(alloc, checked.spec(), events, written)?;
        Ok(Behaviour { members, groups })
    }

    /// The transitions and cases of sends.
    pub fn members(&self) -> &Members<'a>
        ensures { result.now ≡ self.now }
    {
        let _ = &self.groups;
        &self.members
    }

    /// The groups.
    pub fn groups(&self) -> &Groups<'a>
        ensures { result.now ≡ self.now.base.spec }
    {
        let _ = &self.members;
        &self.groups
    }
}
