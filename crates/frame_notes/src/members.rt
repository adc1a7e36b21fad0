//! Comment lines on members that differ.
ghost use Rattle.std.specs.Prelude.{IfOk};
ghost use Rattle.source_notes.specs.Comments.{AreComments};
ghost use Rattle.rsml_ground.specs.Grounded.{IsShort};
ghost use Rattle.spec_frames.specs.Frames.{HaveSameFrame};

use crate::drawing::tell_member;
use crate::holding::tell_world;
use crate::side::Side;
use elaborate::{Machine, elaborate};
use ground_groups::Member;
use instance_texts::Texts;
use rsml_base::NoMemory;
use rsml_names::Globals;
use same_spec::{Found, Listed, differences};
use source_notes::{Notes, Piece};
use std::alloc::Global;
use written_members::{Scene, Source};

/// How many members are told at most.
const MOST: usize = 10;

/// What is told of one of the two beside its machine: the names of its instances, what its names stand for, and its text.
struct Named<'a> {
    texts: Texts<'a>,
    globals: Globals<'a>,
    source: Source<'a>,
}

impl Drop for Named<'_> {
    fn drop(self) {
        let Self {
            texts: _,
            globals: _,
            source: _,
        } = self;
    }
}

impl<'a> Named<'a> {
    fn new(alloc: Global, side: Side<'a>) -> Result<Named<'a>, NoMemory> {
        let texts = Texts::build(alloc, side.checked)?;
        let globals = Globals::new(alloc, side.checked.spec().decls.as_slice())?;
        let source = Source::new(alloc, side.file, side.text);
        Ok(Named {
            texts,
            globals,
            source,
        })
    }

    fn scene<'s>(&'s self, machine: &'s Machine<'a>, side: Side<'a>) -> Scene<'s, 'a> {
        Scene {
            machine,
            texts: &self.texts,
            globals: &self.globals,
            decls: side.checked.spec().decls.as_slice(),
            source: &self.source,
        }
    }
}

/// Tells a member that differs from another one.
fn tell_difference(
    notes: &mut Notes<'_>,
    one: &Scene<'_, '_>,
    two: &Scene<'_, '_>,
    found: &Found,
    other: Member,
) -> Result<(), NoMemory> {
    tell_member(notes, one, found.member, &found.world, found.first)?;
    tell_member(notes, two, other, &found.world, !found.first)?;
    tell_world(notes, one, two, [found.member, other], &found.world)
}

/// Tells members that differ, and how many do.
fn tell_listed(
    notes: &mut Notes<'_>,
    one: &Scene<'_, '_>,
    two: &Scene<'_, '_>,
    listed: &Listed,
) -> Result<(), NoMemory> {
    let (differing, all) = (Piece::Count(listed.differing), Piece::Count(listed.members));
    notes.say_two("{} of {} transitions and cases differ", differing, all);
    for (place, found) in listed.found.as_slice().iter().enumerate() {
        if let Some(other) = listed.others.get(place) {
            tell_difference(notes, one, two, found, *other)?;
        }
    }
    if listed.differing > MOST {
        let more = listed.differing.saturating_sub(MOST);
        notes.say_one("and {} more", Piece::Count(more));
    }
    Ok(())
}

/// Tells what differs between the machines of two specifications.
fn tell_machines<'a, 'b>(
    notes: &mut Notes<'_>,
    one: Side<'a>,
    two: Side<'b>,
    machine: &Machine<'a>,
    other: &Machine<'b>,
) -> Result<(), NoMemory>
    requires { HaveSameFrame machine.now.base.spec other.now.base.spec }
{
    let listed = differences(notes.alloc(), machine, other, MOST)?;
    let names = Named::new(notes.alloc(), one)?;
    let others = Named::new(notes.alloc(), two)?;
    let here = names.scene(machine, one);
    let there = others.scene(other, two);
    tell_listed(notes, &here, &there, &listed)
}

/// Comment lines on the members that differ.
fn notes_on(alloc: Global, one: Side<'_>, two: Side<'_>) -> Result<Vec<u8>, NoMemory>
    requires frame { HaveSameFrame one.checked.now two.checked.now }
    requires short { IsShort one.checked.now }
    requires other { IsShort two.checked.now }
    ensures { IfOk result (λ v. AreComments v.items) }
{
    let mut notes = Notes::new(alloc, one.file, one.text);
    let machine = elaborate(alloc, one.checked)?;
    let other = elaborate(alloc, two.checked)?;
    tell_machines(&mut notes, one, two, &machine, &other)?;
    notes.bytes()
}

/// Comment lines on the members that differ of two specifications of one frame, at most ten, each with both tables over its least world;
/// or a line that says that there is too little memory for it. The only error is out of memory.
pub fn difference_notes(alloc: Global, one: Side<'_>, two: Side<'_>) -> Result<Vec<u8>, NoMemory>
    requires frame { HaveSameFrame one.checked.now two.checked.now }
    requires short { IsShort one.checked.now }
    requires other { IsShort two.checked.now }
    ensures { IfOk result (λ v. AreComments v.items) }
{
    match notes_on(alloc, one, two) {
        Ok(notes) => Ok(notes),
        Err(NoMemory) => {
            let mut notes = Notes::new(alloc, one.file, one.text);
            notes.say("out of memory: nothing is explained");
            notes.bytes()
        }
    }
}
