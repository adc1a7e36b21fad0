//! What a world holds.

use crate::reads::{Read, Reads};
use instance_texts::put_path;
use rsml_base::NoMemory;
use rsml_names::children_of;
use rsml_syntax::World;
use source_notes::{Notes, characters_in};
use state_tree::{StepRef, Tree};
use std::alloc::Global;
use text_writer::{Draft, Writer};
use written_members::Scene;

/// A component and the name of its active child, or a cell and its value.
#[derive(Clone, Copy)]
enum Held<'h, 'a> {
    Child {
        component: &'h [StepRef<'a>],
        child: &'a [u8],
    },
    Value {
        cell: u32,
        value: i64,
    },
}

/// The active child of a state, if it is a component that is read.
fn child_at<'h, 'a>(
    tree: &'h Tree<'a>,
    reads: &Reads,
    world: &World,
    state: u32,
) -> Option<Held<'h, 'a>> {
    let number = tree.component_of(state)?;
    if !reads.has(Read::Component(number)) {
        return None;
    }
    let place = world.choices.get(number as usize)?;
    let component = tree.states().path(state)?;
    let body = tree.states().body(state)?;
    let child = children_of(body).get(*place as usize)?;
    Some(Held::Child {
        component,
        child: child.name.bytes(),
    })
}

/// The value of a cell, if it is read.
fn value_at<'h, 'a>(reads: &Reads, world: &World, cell: u32) -> Option<Held<'h, 'a>> {
    if !reads.has(Read::Cell(cell)) {
        return None;
    }
    let value = world.cells.get(cell as usize)?;
    Some(Held::Value {
        cell,
        value: *value,
    })
}

/// What is held at a place: states come first, then cells.
fn held_at<'h, 'a>(
    tree: &'h Tree<'a>,
    reads: &Reads,
    world: &World,
    place: u32,
) -> Option<Held<'h, 'a>> {
    if place < tree.nodes() {
        child_at(tree, reads, world, place)
    } else {
        value_at(reads, world, place.saturating_sub(tree.nodes()))
    }
}

/// How many such places there are.
fn places(tree: &Tree<'_>, world: &World) -> u32 {
    match u32::try_from(world.cells.len()) {
        Ok(cells) => tree.nodes().saturating_add(cells),
        Err(_) => tree.nodes(),
    }
}

/// The name of a component or cell.
fn name_of(alloc: Global, scene: &Scene<'_, '_>, held: Held<'_, '_>) -> Result<Vec<u8>, NoMemory> {
    let mut name = Draft::new(alloc);
    match held {
        Held::Child { component, .. } => put_path(&mut name, component),
        Held::Value { cell, .. } => scene.texts.put_cell(&mut name, cell),
    }
    name.finish()
}

/// Puts what is held.
fn put_held(line: &mut Draft, scene: &Scene<'_, '_>, held: Held<'_, '_>) {
    match held {
        Held::Child { child, .. } => line.put(child),
        Held::Value { cell, value } => scene.texts.put_value(line, cell, value),
    }
}

/// How wide a name is.
fn width_of(alloc: Global, scene: &Scene<'_, '_>, held: Held<'_, '_>) -> Result<usize, NoMemory> {
    let name = name_of(alloc, scene, held)?;
    Ok(characters_in(name.as_slice()))
}

/// How wide the names of components and cells are that are read. 0 where there are none.
fn width(
    alloc: Global,
    scene: &Scene<'_, '_>,
    reads: &Reads,
    world: &World,
) -> Result<usize, NoMemory> {
    let tree = scene.machine.tree();
    let mut width: usize = 0;
    for place in 0..places(tree, world) {
        if let Some(held) = held_at(tree, reads, world, place) {
            width = width.max(width_of(alloc, scene, held)?);
        }
    }
    Ok(width)
}

/// Puts a text, and blanks up to a width.
pub fn put_padded(line: &mut Draft, text: &[u8], width: usize) {
    line.put(text);
    for _ in characters_in(text)..width {
        line.put(b" ");
    }
}

/// Tells what one component or cell holds.
fn tell_held(
    notes: &mut Notes<'_>,
    scene: &Scene<'_, '_>,
    held: Held<'_, '_>,
    width: usize,
) -> Result<(), NoMemory> {
    let name = name_of(notes.alloc(), scene, held)?;
    let mut line = notes.line("    ");
    put_padded(&mut line, name.as_slice(), width);
    line.put(b" = ");
    put_held(&mut line, scene, held);
    notes.keep(line);
    Ok(())
}

/// Tells what is read of a world, behind these words.
pub fn tell_world(
    notes: &mut Notes<'_>,
    scene: &Scene<'_, '_>,
    words: &str,
    reads: &Reads,
    world: &World,
) -> Result<(), NoMemory> {
    let width = width(notes.alloc(), scene, reads, world)?;
    if width == 0 {
        return Ok(());
    }
    notes.say(words);
    let tree = scene.machine.tree();
    for place in 0..places(tree, world) {
        if let Some(held) = held_at(tree, reads, world, place) {
            tell_held(notes, scene, held, width)?;
        }
    }
    Ok(())
}
