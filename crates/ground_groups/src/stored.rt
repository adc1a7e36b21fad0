ghost use Rattle.std.specs.Prelude.{◌≡◌, ◌+◌, ◌<◌, IfOk, length, map, slice_get, Some};
ghost use Rattle.rsml_syntax.specs.declared.syntax.Spec.{Spec};
ghost use Rattle.rsml_meaning.specs.Groups as meaning;
ghost use Rattle.rsml_meaning.specs.Groups.{Group};
ghost use Rattle.ground_groups.specs.Groups.{AreBelow, IsMemberAt, KindIs};
ghost use Rattle.ground_groups.specs.Stored.{line_of};
ghost use Rattle.ground_groups.specs.declared.key.Key.{Key};
ghost use Rattle.ground_groups.specs.Places.{IsPlaceOf, IsStored, IsTransitionAt};

use crate::functions::FunctionGroup;
use crate::group::{GroupKind, Member};
use crate::lines::Line;
use crate::lots::Lots;
use crate::place::Place;
use crate::places::number_of;
use rsml_syntax::NoMemory;

/// What is stored of all groups.
pub struct Stored {
    pub states: Lots,
    pub lines: Vec<Line>,
    pub below: Vec<Vec<u32>>,
    pub sends: Lots,
    pub functions: Vec<FunctionGroup>,
    pub count: u32,
}

impl Drop for Stored {
    fn drop(self) {
        let Self {
            states: _,
            lines: _,
            below: _,
            sends: _,
            functions: _,
            count: _,
        } = self;
    }
}

/// How many groups there are in all.
pub fn total(states: usize, sends: usize, functions: usize) -> Result<u32, NoMemory>
    ensures { IfOk result (λ count. count ≡ states + (sends + functions)) }
{
    let sends_on = sum(number_of(sends)?, number_of(functions)?)?;
    sum(number_of(states)?, sends_on)
}

fn sum(a: u32, b: u32) -> Result<u32, NoMemory>
    ensures { IfOk result (λ count. count ≡ a + b) }
{
    match a.checked_add(b) {
        Some(count) => Ok(count),
        None => Err(NoMemory),
    }
}

impl Stored {
    /// Where a group is stored.
    fn place(&self, group: u32) -> Place
        requires { group < length self.now.states.heads.keys
            + (length self.now.sends.heads.keys + length self.now.functions.items) }
        ensures { IsPlaceOf (length self.now.states.heads.keys) (length self.now.sends.heads.keys)
            (length self.now.functions.items) group result }
    {
        let group = group as usize;
        let states = self.states.heads.len();
        if group < states {
            return Place::State(group);
        }
        let sends = self.sends.heads.len();
        if group - states < sends {
            return Place::Send(group - states);
        }
        Place::Function(group - states - sends)
    }

    /// Of what a group is.
    pub fn kind(&self, group: u32) -> GroupKind
        requires { group < length self.now.states.heads.keys
            + (length self.now.sends.heads.keys + length self.now.functions.items) }
        ensures { (s : Spec) (g : Group) → IsStored s self.now
            → slice_get (meaning.groups s) group ≡ Some g → KindIs s g result }
    {
        match self.place(group) {
            Place::State(place) => {
                let key = self.states.heads.as_slice()[place];
                GroupKind::State {
                    state: key.owner,
                    event: key.event,
                }
            }
            Place::Send(place) => {
                let key = self.sends.heads.as_slice()[place];
                GroupKind::Send {
                    send: key.owner,
                    event: key.event,
                }
            }
            Place::Function(place) => GroupKind::Function(self.functions[place].function),
        }
    }

    /// How many members a group has.
    pub fn members(&self, group: u32) -> u32
        requires stored { (s : Spec) × IsStored s self.now }
        requires group { group < length self.now.states.heads.keys
            + (length self.now.sends.heads.keys + length self.now.functions.items) }
        ensures { (s : Spec) (g : Group) → IsStored s self.now
            → slice_get (meaning.groups s) group ≡ Some g → result ≡ length (meaning.members s g) }
    {
        match self.place(group) {
            Place::State(place) => self.lines[place].members,
            Place::Send(place) => self.sends.places[place].len() as u32,
            Place::Function(place) => self.functions[place].cases,
        }
    }

    /// The member at a place of a group.
    pub fn member(&self, group: u32, place: u32) -> Member
        requires stored { (s : Spec) × IsStored s self.now }
        requires group { group < length self.now.states.heads.keys
            + (length self.now.sends.heads.keys + length self.now.functions.items) }
        requires place { (s : Spec) (g : Group) → IsStored s self.now
            → slice_get (meaning.groups s) group ≡ Some g → place < length (meaning.members s g) }
        ensures { (s : Spec) (g : Group) → IsStored s self.now
            → slice_get (meaning.groups s) group ≡ Some g → IsMemberAt s g place result }
    {
        match self.place(group) {
            Place::State(at) => Member::Transition(self.transition(at, place)),
            Place::Send(at) => Member::SendCase(self.sends.places[at][place as usize]),
            Place::Function(at) => Member::FunctionCase {
                function: self.functions[at].function,
                place,
            },
        }
    }

    /// The states inside that of a group that have a group on the same event.
    pub fn below(&self, group: u32) -> &[u32]
        requires stored { (s : Spec) × IsStored s self.now }
        requires group { group < length self.now.states.heads.keys
            + (length self.now.sends.heads.keys + length self.now.functions.items) }
        ensures { (s : Spec) (g : Group) → IsStored s self.now
            → slice_get (meaning.groups s) group ≡ Some g → AreBelow s g result.now }
    {
        match self.place(group) {
            Place::State(place) => self.below[place].as_slice(),
            Place::Send(_) => &[],
            Place::Function(_) => &[],
        }
    }

    /// The transition at a place of the line of a state on an event: one of the line around, or one
    /// from the state itself.
    fn transition(&self, at: usize, place: u32) -> u32
        requires stored { (s : Spec) × IsStored s self.now }
        requires at { at < length self.now.states.heads.keys }
        requires place { (s : Spec) (q : Key) → IsStored s self.now
            → slice_get self.now.states.heads.keys at ≡ Some q → place < length (line_of s q) }
        ensures { (s : Spec) (q : Key) → IsStored s self.now
            → slice_get self.now.states.heads.keys at ≡ Some q
            → IsTransitionAt s (line_of s q) place result }
    {
        let own = &self.states.places[at];
        let line = self.lines[at];
        let first = line.members as usize - own.len();
        if place as usize >= first {
            return own[place as usize - first];
        }
        match line.outer {
            Some(outer) => self.transition(outer, place),
            None => 0,
        }
    }
}
