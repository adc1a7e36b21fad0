use crate::case_faults::wrong_function;
use crate::kind_faults::unlike_kinds;
use crate::naming::{declared_again, repeated, undeclared, wrong_sort};
use crate::sizes::{turned_range, wrong_indices, wrong_size};
use crate::state_faults::{wrong_array, wrong_bus, wrong_children, wrong_ends, wrong_path};
use crate::subject::Subject;
use crate::table_faults::{long_sums, wrong_table};
use rsml_base::{NoMemory, Text};
use rsml_names::Globals;
use rsml_syntax::Spec;
use source_notes::Notes;
use source_survey::Survey;

/// Tells what is wrong at the name where a rule is broken.
fn tell_rule(notes: &mut Notes<'_>, rule: u8, subject: &Subject<'_, '_>) {
    match rule {
        1 => declared_again(notes, subject),
        2 => undeclared(notes, subject),
        3 => wrong_sort(notes, subject),
        4 => turned_range(notes, subject),
        5 => wrong_size(notes, subject),
        6 => wrong_indices(notes, subject),
        7 => unlike_kinds(notes, subject),
        8 => wrong_table(notes, subject),
        9 => wrong_path(notes, subject),
        10 => wrong_children(notes, subject),
        11 => wrong_bus(notes, subject),
        12 => wrong_ends(notes, subject),
        13 => wrong_array(notes, subject),
        14 => repeated(notes, subject),
        15 => wrong_function(notes, subject),
        _ => long_sums(notes, subject),
    }
}

/// The same by the global names.
fn tell_by<'a>(
    notes: &mut Notes<'_>,
    spec: &'a Spec,
    globals: &Globals<'a>,
    rule: u8,
    name: &'a Text,
) -> Result<(), NoMemory> {
    let survey = Survey::new(notes.alloc(), spec)?;
    let subject = Subject {
        spec,
        globals,
        survey: &survey,
        name,
    };
    tell_rule(notes, rule, &subject);
    Ok(())
}

/// Tells what is wrong at a name where a specification breaks the rule with this number.
pub fn tell_broken(
    notes: &mut Notes<'_>,
    spec: &Spec,
    rule: u8,
    name: &Text,
) -> Result<(), NoMemory> {
    let globals = Globals::new(notes.alloc(), spec.decls.as_slice())?;
    tell_by(notes, spec, &globals, rule, name)
}
