//! Notes on declarations that are not used.

use crate::usages::{Usage, Usages};
use rsml_base::NoMemory;
use rsml_names::{Globals, name_of};
use rsml_syntax::Decl;
use source_notes::{Notes, Piece, spot_of};
use source_survey::Survey;

/// What a declaration declares.
fn sort_words(decl: &Decl) -> &'static str {
    match decl {
        Decl::Enumeration { .. } => "enumeration",
        Decl::Range { .. } => "range",
        Decl::Constant { .. } => "constant",
        Decl::Input { .. } => "input",
        Decl::Event { .. } => "event",
        Decl::Macro { .. } => "macro",
        Decl::Function { .. } => "function",
        Decl::Receive { .. } => "receive",
        Decl::Send { .. } => "send",
    }
}

/// What is said of an input that is used so.
fn of_input(usage: Usage) -> Option<&'static str> {
    if usage.uses == 0 {
        Some("is not used")
    } else if usage.written == 0 {
        Some("is written by no receive, so it keeps its initial value")
    } else if usage.uses <= usage.written {
        Some("is written, but nothing reads it")
    } else {
        None
    }
}

/// What is said of an event that is used so.
fn of_event(usage: Usage) -> Option<&'static str> {
    if usage.uses == 0 {
        Some("is not used")
    } else if usage.raised == 0 {
        Some("is raised by no receive and no transition")
    } else if usage.awaited > 0 {
        None
    } else if usage.raised > usage.telling {
        Some("is raised, but no transition and no send reacts to it")
    } else if usage.raised == 1 {
        Some("is raised, but nothing reacts to it: its receive only writes inputs")
    } else {
        Some("is raised, but nothing reacts to it: its receives only write inputs")
    }
}

/// What is said of a declaration.
fn said_of(decl: &Decl, usages: &Usages<'_, '_>) -> Option<&'static str> {
    let usage = usages.of(name_of(decl));
    match decl {
        Decl::Receive { .. } | Decl::Send { .. } => None,
        Decl::Input { .. } => of_input(usage),
        Decl::Event { .. } => of_event(usage),
        _ => {
            if usage.uses > 0 || usages.has_used_value(decl) {
                None
            } else {
                Some("is not used")
            }
        }
    }
}

/// Notes on declarations, by how often names are used.
fn tell_by(notes: &mut Notes<'_>, decls: &[Decl], usages: &Usages<'_, '_>) {
    for decl in decls {
        if let Some(words) = said_of(decl, usages) {
            let name = name_of(decl);
            notes.note(
                spot_of(name),
                "the {} {} {}",
                Piece::Words(sort_words(decl)),
                Piece::Name(name),
                Piece::Words(words),
                Piece::Nothing,
            );
        }
    }
}

/// Notes on declarations.
pub fn tell_declarations(
    notes: &mut Notes<'_>,
    decls: &[Decl],
    globals: &Globals<'_>,
    survey: &Survey<'_>,
) -> Result<(), NoMemory> {
    let mut usages = Usages::new(notes.alloc(), globals)?;
    usages.count(decls, survey);
    tell_by(notes, decls, &usages);
    Ok(())
}
