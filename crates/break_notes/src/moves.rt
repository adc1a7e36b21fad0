//! The transitions that are taken, and what changes by them.

use elaborate::Machine;
use ground_groups::Member;
use instance_texts::put_path;
use invariants::Break;
use micro_step::enter_all;
use rsml_base::{List, NoMemory};
use rsml_names::children_of;
use source_notes::{Notes, Piece};
use state_tree::Tree;
use std::alloc::Global;
use text_writer::Writer;
use written_members::{Scene, put_member, written_at};

/// How many things of one sort are told at most.
const MOST: usize = 10;

/// Whether the next of some things is told, of which there were so many before it.
pub fn is_told(count: &mut usize) -> bool {
    *count = count.saturating_add(1);
    *count <= MOST
}

/// Tells how many things of one sort are left out.
pub fn tell_more(notes: &mut Notes<'_>, count: usize) {
    if count > MOST {
        notes.say_one("and {} more", Piece::Count(count.saturating_sub(MOST)));
    }
}

/// The children of components behind the micro-step of a break.
pub fn left_by(alloc: Global, machine: &Machine<'_>, least: &Break) -> Result<List<u8>, NoMemory> {
    let mut choices = List::new(alloc);
    for child in least.world.choices.as_slice() {
        choices.push(*child)?;
    }
    let components = machine.tree().components() as usize;
    for number in &least.taken {
        if *number < machine.transitions() && choices.len() == components {
            enter_all(machine, &mut choices, &[*number]);
        }
    }
    Ok(choices)
}

/// Tells transitions, each at its place.
pub fn tell_taken(notes: &mut Notes<'_>, scene: &Scene<'_, '_>, taken: &[u32]) {
    let mut count: usize = 0;
    for number in taken {
        let member = Member::Transition(*number);
        if is_told(&mut count)
            && let Some(written) = written_at(scene, member)
        {
            let mut line = notes.line("");
            scene.source.put_place(&mut line, written.at);
            put_member(&mut line, scene.machine, member);
            notes.keep(line);
        }
    }
    tell_more(notes, count);
}

/// The name of the active child of a state, if it is a component.
fn child_in<'a>(tree: &Tree<'a>, choices: &[u8], state: u32) -> Option<&'a [u8]> {
    let place = choices.get(tree.component_of(state)? as usize)?;
    let child = children_of(tree.states().body(state)?).get(*place as usize)?;
    Some(child.name.bytes())
}

/// Tells the components whose children differ.
pub fn tell_changed(notes: &mut Notes<'_>, tree: &Tree<'_>, before: &[u8], after: &[u8]) {
    let mut count: usize = 0;
    for state in 0..tree.nodes() {
        if let Some(path) = tree.states().path(state)
            && let Some(from) = child_in(tree, before, state)
            && let Some(to) = child_in(tree, after, state)
            && from != to
            && is_told(&mut count)
        {
            let mut line = notes.line("  ");
            put_path(&mut line, path);
            line.put(b" went from ");
            line.put(from);
            line.put(b" to ");
            line.put(to);
            notes.keep(line);
        }
    }
    tell_more(notes, count);
}
