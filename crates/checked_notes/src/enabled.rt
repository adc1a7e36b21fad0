use crate::instances::{Numbers, instances_of};
use crate::items::{Item, guard_count, item_in, item_of};
use crate::telling::{tell_item, tell_untold};
use crate::verdicts::{Verdict, find_verdicts, width_of_first};
use elaborate::Machine;
use guard_encode::Encoder;
use rsml_base::NoMemory;
use rsml_names::{Globals, size_of};
use rsml_syntax::{Body, Decl, StateDecl, Transition};
use source_notes::Notes;
use table_notes::Asked;

/// Tells what is found of a guard with these instances.
fn tell_instances(
    notes: &mut Notes<'_>,
    encoder: &mut Encoder<'_, '_>,
    item: Item<'_>,
    instances: &[Asked<'_>],
) -> Result<(), NoMemory> {
    let alloc = notes.alloc();
    let mut verdicts = vec![in alloc; Verdict::Useful; width_of_first(instances)]?;
    find_verdicts(alloc, encoder, instances, &mut verdicts)?;
    tell_item(notes, item, verdicts.as_slice());
    Ok(())
}

/// Tells what is found of a guard; where that would take too long, that it is not told.
fn tell_guard(
    notes: &mut Notes<'_>,
    machine: &Machine<'_>,
    encoder: &mut Encoder<'_, '_>,
    item: Item<'_>,
    numbers: Numbers,
) -> Result<(), NoMemory> {
    let instances = instances_of(notes.alloc(), machine, item, numbers)?;
    let told = tell_instances(notes, encoder, item, instances.as_slice());
    if told.is_err() && encoder.is_spent() {
        tell_untold(notes, item);
        return Ok(());
    }
    told
}

/// How many instances stand before those of a declaration: of macros and functions, and of cases of sends.
#[derive(Clone, Copy)]
struct Before {
    definitions: usize,
    cases: usize,
}

impl Before {
    /// The numbers of the instances of the guard at a place of a declaration, of which there are so many.
    fn numbers(self, decl: &Decl, place: usize, many: u64) -> Numbers {
        match decl {
            Decl::Send { cases, .. } => Numbers {
                first: self.cases.saturating_add(place),
                step: cases.len(),
                many,
            },
            _ => Numbers {
                first: self.definitions,
                step: 1,
                many,
            },
        }
    }

    /// What stands before the next declaration.
    fn and(self, decl: &Decl, many: u64) -> Before {
        let many = many as usize;
        let mut before = self;
        match decl {
            Decl::Macro { .. } | Decl::Function { .. } => {
                before.definitions = self.definitions.saturating_add(many);
            }
            Decl::Send { cases, .. } => {
                before.cases = self.cases.saturating_add(many.saturating_mul(cases.len()));
            }
            _ => {}
        }
        before
    }
}

/// Tells what is found of the guards of a declaration.
fn tell_declaration(
    notes: &mut Notes<'_>,
    machine: &Machine<'_>,
    encoder: &mut Encoder<'_, '_>,
    decl: &Decl,
    before: Before,
    many: u64,
) -> Result<(), NoMemory> {
    for place in 0..guard_count(decl) {
        if let Some(item) = item_in(decl, place) {
            let numbers = before.numbers(decl, place, many);
            tell_guard(notes, machine, encoder, item, numbers)?;
        }
    }
    Ok(())
}

/// Tells what is found of the guards of declarations.
fn tell_declarations(
    notes: &mut Notes<'_>,
    machine: &Machine<'_>,
    encoder: &mut Encoder<'_, '_>,
    globals: &Globals<'_>,
    decls: &[Decl],
) -> Result<(), NoMemory> {
    let mut before = Before {
        definitions: 0,
        cases: 0,
    };
    for decl in decls {
        let many = globals.many(size_of(decl));
        tell_declaration(notes, machine, encoder, decl, before, many)?;
        before = before.and(decl, many);
    }
    Ok(())
}

/// Tells what is found of the guards of transitions of a component.
fn tell_transitions(
    notes: &mut Notes<'_>,
    machine: &Machine<'_>,
    encoder: &mut Encoder<'_, '_>,
    transitions: &[Transition],
) -> Result<(), NoMemory> {
    let numbers = Numbers {
        first: 0,
        step: 0,
        many: 0,
    };
    for (place, transition) in transitions.iter().enumerate() {
        let item = item_of(transition, place);
        tell_guard(notes, machine, encoder, item, numbers)?;
    }
    Ok(())
}

/// Tells what is found of the guards of transitions in a state.
#[cycle(states)]
fn tell_state(
    notes: &mut Notes<'_>,
    machine: &Machine<'_>,
    encoder: &mut Encoder<'_, '_>,
    body: &Body,
) -> Result<(), NoMemory> {
    match body {
        Body::Basic => Ok(()),
        Body::All { children } => tell_children(notes, machine, encoder, children.as_slice()),
        Body::One {
            children,
            transitions,
            ..
        } => {
            tell_children(notes, machine, encoder, children.as_slice())?;
            tell_transitions(notes, machine, encoder, transitions.as_slice())
        }
    }
}

#[cycle(states)]
fn tell_children(
    notes: &mut Notes<'_>,
    machine: &Machine<'_>,
    encoder: &mut Encoder<'_, '_>,
    children: &[StateDecl],
) -> Result<(), NoMemory> {
    for child in children {
        tell_state(notes, machine, encoder, &child.body)?;
    }
    Ok(())
}

/// Tells which guards of a machine, and which columns of their tables, are true in no world, and which columns only where another is.
/// The machine is that of the encoder, and of a specification with these global names.
pub fn tell_enabled(
    notes: &mut Notes<'_>,
    machine: &Machine<'_>,
    globals: &Globals<'_>,
    encoder: &mut Encoder<'_, '_>,
) -> Result<(), NoMemory> {
    let spec = machine.macros().spec();
    tell_declarations(notes, machine, encoder, globals, spec.decls.as_slice())?;
    tell_state(notes, machine, encoder, &spec.body)
}
