ghost use Rattle.std.specs.Prelude.{◌≡◌, ◌+◌, ◌-◌, ◌<◌, ◌≤◌, List, IfOk, IfSome, None, Some, length, map, slice_get};
ghost use Rattle.std.specs.List.{AllZip};
ghost use Rattle.rsml_syntax.specs.limits.Checked.{IsChecked};
ghost use Rattle.rsml_meaning.specs.Groups as meaning;
ghost use Rattle.rsml_meaning.specs.Groups.{Group};
ghost use Rattle.rsml_meaning.specs.Interfaces as interfaces;
ghost use Rattle.rsml_ground.specs.declared.phrases.GroundPhrase.{GroundPhrase};
ghost use Rattle.rsml_ground.specs.StandsFor.{DefinitionIs};
ghost use Rattle.ground_members.specs.Members.{AreSendCases, AreTransitions};
ghost use Rattle.ground_groups.specs.Groups.{AreBelow, IsMemberAt, KindIs};

use crate::below::below;
use crate::functions::functions;
use crate::group::{GroupKind, Member};
use crate::lines::lines;
use crate::lots::{send_lots, state_lots};
use crate::stored::{Stored, total};
use ground_members::{SharedSendCase, SharedTransition};
use rsml_ground::Definition;
use rsml_syntax::{Checked, NoMemory, Spec};
use state_tree::Tree;
use std::alloc::Global;
use std::marker::Model;

/// The groups of a checked specification. They are named by their places: those of states by event,
/// of sends by event, and of functions, each in the order of the instances. Only `build` takes memory.
#[derive(Drop)]
pub struct Groups<'a> {
    spec: &'a Spec,
    stored: Stored,
}

impl<'a> Model for Groups<'a> {
    ghost use Rattle.rsml_syntax.specs.declared.syntax.Spec.{Spec};
    ghost use Rattle.rsml_syntax.specs.contracts.syntax.Body as bodies;
    ghost use Rattle.ground_groups.specs.Places.{IsStored};
    ghost use Rattle.std.specs.Coded.{codes};

    ghost Value = { Spec };

    ghost coded = { Prim.hlevel (codes, bodies.the_row.coded) };

    ghost view = { λ g. g.spec.now };

    ghost invariant = { λ g. IsStored g.spec.now g.stored };
}

impl<'a> Groups<'a> {
    /// The groups of a specification of this tree, with these transitions, cases of sends and
    /// definitions.
    pub fn build(
        alloc: Global,
        checked: &'a Checked,
        tree: &Tree<'_>,
        transitions: &[SharedTransition],
        send_cases: &[SharedSendCase],
        definitions: &[Definition],
    ) -> Result<Groups<'a>, NoMemory>
        requires tree { tree.now ≡ checked.now }
        requires transitions { (ps : List GroundPhrase) × AreTransitions ps checked.now transitions.now }
        requires send_cases { (ps : List GroundPhrase) × AreSendCases ps checked.now send_cases.now }
        requires definitions { (ps : List GroundPhrase)
            × AllZip (DefinitionIs ps checked.now) (interfaces.definitions checked.now) definitions.now }
        ensures { IfOk result (λ g. g ≡ checked.now) }
    {
        let spec = checked.spec();
        let states = state_lots(alloc, transitions)?;
        let lines = lines(alloc, tree, &states)?;
        let below = below(alloc, tree, states.heads.as_slice())?;
        let sends = send_lots(alloc, send_cases)?;
        let functions = functions(alloc, definitions)?;
        let count = total(states.heads.len(), sends.heads.len(), functions.len())?;
        let stored = Stored {
            states,
            lines,
            below,
            sends,
            functions,
            count,
        };
        Ok(Groups { spec, stored })
    }

    /// How many groups there are.
    pub fn count(&self) -> u32
        ensures { result ≡ length (meaning.groups self.now) }
    {
        self.stored.count
    }

    /// Of what a group is.
    pub fn kind(&self, group: u32) -> GroupKind
        requires { group < length (meaning.groups self.now) }
        ensures { (g : Group) → slice_get (meaning.groups self.now) group ≡ Some g
            → KindIs self.now g result }
    {
        self.stored.kind(group)
    }

    /// How many members a group has.
    pub fn members(&self, group: u32) -> u32
        requires { group < length (meaning.groups self.now) }
        ensures { (g : Group) → slice_get (meaning.groups self.now) group ≡ Some g
            → result ≡ length (meaning.members self.now g) }
    {
        self.stored.members(group)
    }

    /// The member at a place of a group. Those of states further out come first.
    pub fn member(&self, group: u32, place: u32) -> Member
        requires group { group < length (meaning.groups self.now) }
        requires place { (g : Group) → slice_get (meaning.groups self.now) group ≡ Some g
            → place < length (meaning.members self.now g) }
        ensures { (g : Group) → slice_get (meaning.groups self.now) group ≡ Some g
            → IsMemberAt self.now g place result }
    {
        self.stored.member(group, place)
    }

    /// The states inside that of a group that have a group on the same event: none for other groups.
    pub fn below(&self, group: u32) -> &[u32]
        requires { group < length (meaning.groups self.now) }
        ensures { (g : Group) → slice_get (meaning.groups self.now) group ≡ Some g
            → AreBelow self.now g result.now }
    {
        self.stored.below(group)
    }
}
