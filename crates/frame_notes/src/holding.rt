//! What a world holds of what the groups of two members read.

use elaborate::Machine;
use ground_groups::Member;
use instance_texts::put_path;
use rsml_base::NoMemory;
use rsml_names::children_of;
use rsml_syntax::World;
use source_notes::Notes;
use state_tree::Tree;
use std::alloc::Global;
use table_notes::{Read, Reads, member_at, member_count, read_group};
use text_writer::{Draft, Writer};
use written_members::Scene;

/// Whether a group has this member.
fn has_member(machine: &Machine<'_>, group: u32, member: Member) -> bool {
    for place in 0..member_count(machine, group) {
        if let Some(one) = member_at(machine, group, place)
            && one == member
        {
            return true;
        }
    }
    false
}

/// What the first group with a member reads.
fn read_member(alloc: Global, machine: &Machine<'_>, member: Member) -> Result<Reads, NoMemory> {
    let mut reads = Reads::new(alloc, machine)?;
    for group in 0..machine.groups().count() {
        if has_member(machine, group, member) {
            read_group(&mut reads, machine, group);
            break;
        }
    }
    Ok(reads)
}

/// Puts a component of this number, which is a state, and its active child.
fn put_child(line: &mut Draft, tree: &Tree<'_>, world: &World, state: u32, number: u32) {
    if let Some(path) = tree.states().path(state)
        && let Some(body) = tree.states().body(state)
        && let Some(place) = world.choices.get(number as usize)
        && let Some(child) = children_of(body).get(*place as usize)
    {
        put_path(line, path);
        line.put(b" = ");
        line.put(child.name.bytes());
    }
}

/// Tells the active children of components that are read.
fn tell_children(notes: &mut Notes<'_>, tree: &Tree<'_>, reads: [&Reads; 2], world: &World) {
    let [one, two] = reads;
    for state in 0..tree.nodes() {
        if let Some(number) = tree.component_of(state)
            && (one.has(Read::Component(number)) || two.has(Read::Component(number)))
        {
            let mut line = notes.line("    ");
            put_child(&mut line, tree, world, state, number);
            notes.keep(line);
        }
    }
}

/// Tells the values of cells that are read.
fn tell_values(notes: &mut Notes<'_>, scene: &Scene<'_, '_>, reads: [&Reads; 2], world: &World) {
    let [one, two] = reads;
    let mut cell: u32 = 0;
    for value in world.cells.as_slice() {
        if one.has(Read::Cell(cell)) || two.has(Read::Cell(cell)) {
            let mut line = notes.line("    ");
            scene.texts.put_cell(&mut line, cell);
            line.put(b" = ");
            scene.texts.put_value(&mut line, cell, *value);
            notes.keep(line);
        }
        cell = cell.saturating_add(1);
    }
}

/// Tells what a world holds of what the groups of a member and of the other one read.
pub fn tell_world(
    notes: &mut Notes<'_>,
    one: &Scene<'_, '_>,
    two: &Scene<'_, '_>,
    members: [Member; 2],
    world: &World,
) -> Result<(), NoMemory> {
    let [member, other] = members;
    let first = read_member(notes.alloc(), one.machine, member)?;
    let second = read_member(notes.alloc(), two.machine, other)?;
    notes.say("where");
    tell_children(notes, one.machine.tree(), [&first, &second], world);
    tell_values(notes, one, [&first, &second], world);
    Ok(())
}
