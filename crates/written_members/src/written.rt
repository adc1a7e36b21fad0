//! Where members of groups are written.

use crate::rows::case_start;
use crate::scene::Scene;
use crate::source::word_before;
use elaborate::Machine;
use ground_groups::Member;
use rsml_names::{Globals, name_of, transitions_of};
use rsml_syntax::{Decl, SendCase, Text, Transition};

/// Where a member begins, and an offset behind which its table is the first.
#[derive(Clone, Copy)]
pub struct Written {
    pub at: usize,
    pub table: usize,
}

/// What is numbered by its instances, in the order of their declarations.
#[derive(Clone, Copy)]
enum Numbered {
    Sends,
    Definitions,
}

/// How many instances of this sort a declaration makes.
fn instances(globals: &Globals<'_>, decl: &Decl, numbered: Numbered) -> u64 {
    match (numbered, decl) {
        (Numbered::Sends, Decl::Send { size, .. }) => globals.many(size.as_ref()),
        (Numbered::Definitions, Decl::Macro { size, .. }) => globals.many(size.as_ref()),
        (Numbered::Definitions, Decl::Function { size, .. }) => globals.many(size.as_ref()),
        _ => 0,
    }
}

/// The declaration of the instance of a number.
fn declaration<'a>(scene: &Scene<'_, 'a>, numbered: Numbered, number: u32) -> Option<&'a Decl> {
    let mut left = u64::from(number);
    for decl in scene.decls {
        let many = instances(scene.globals, decl, numbered);
        if left < many {
            return Some(decl);
        }
        left = left.saturating_sub(many);
    }
    None
}

/// The transition of a number, as it is written.
fn transition<'a>(machine: &Machine<'a>, number: u32) -> Option<&'a Transition> {
    let ground = machine.all_transitions().get(number as usize)?;
    let component = machine.tree().parent(ground.source())?;
    let body = machine.tree().states().body(component)?;
    transitions_of(body).get((ground.ordinal() as usize).saturating_sub(1))
}

/// The case of a send of a number, as it is written.
fn send_case<'a>(scene: &Scene<'_, 'a>, number: u32) -> Option<&'a SendCase> {
    let ground = scene.machine.all_send_cases().get(number as usize)?;
    match declaration(scene, Numbered::Sends, ground.send())? {
        Decl::Send { cases, .. } => cases.get((ground.ordinal() as usize).saturating_sub(1)),
        _ => None,
    }
}

/// What begins with the word before this name.
fn from_word(scene: &Scene<'_, '_>, name: &Text) -> Written {
    let table = name.at() as usize;
    Written {
        at: word_before(scene.source.text(), table),
        table,
    }
}

/// The case at a place of a function.
fn function_case(scene: &Scene<'_, '_>, function: u32, place: u32) -> Option<Written> {
    let decl = declaration(scene, Numbered::Definitions, function)?;
    let at = case_start(scene.source.text(), name_of(decl).at() as usize, place)?;
    Some(Written { at, table: at })
}

/// Where a member is written.
pub fn written_at(scene: &Scene<'_, '_>, member: Member) -> Option<Written> {
    match member {
        Member::Transition(number) => {
            let transition = transition(scene.machine, number)?;
            Some(from_word(scene, &transition.source))
        }
        Member::SendCase(number) => {
            let case = send_case(scene, number)?;
            Some(from_word(scene, &case.trigger.name))
        }
        Member::FunctionCase { function, place } => function_case(scene, function, place),
    }
}
