ghost use Rattle.std.specs.Prelude.{◌<◌, All, IfOk, OnOk, length};
ghost use Rattle.rsml_meaning.specs.Instances.{events};
ghost use Rattle.macros.specs.StatePhrases.{IsStatePhrase};

use and_or_tables::GroundRow;
use elaborate::Machine;
use ground_members::{GroundAnswer, GroundValue};
use macros::{StatePhrase, state_phrase};
use rsml_ground::{Definition, GroundCase, GroundGuard, GroundPhrase};
use rsml_syntax::NoMemory;
use std::alloc::Global;

/// How many phrases are looked at for all events together at most. Where there are more, none is looked for.
const MOST: u64 = 4194304;

/// Marks a phrase.
fn mark(marks: &mut Vec<bool>, phrase: u32) {
    if let Some(mark) = marks.get_mut(phrase as usize) {
        *mark = true;
    }
}

/// Marks phrases.
fn mark_all(marks: &mut Vec<bool>, phrases: &[u32]) {
    for phrase in phrases {
        mark(marks, *phrase);
    }
}

/// Marks the phrases of rows.
fn mark_rows(marks: &mut Vec<bool>, rows: &[GroundRow]) {
    for row in rows {
        mark(marks, row.phrase);
    }
}

/// Marks the phrases that a guard names.
fn mark_guard(marks: &mut Vec<bool>, guard: &GroundGuard) {
    match guard {
        GroundGuard::Always => {}
        GroundGuard::Table(table) => mark_rows(marks, table.rows.as_slice()),
    }
}

/// Marks the phrases that the guards of cases name.
fn mark_guards(marks: &mut Vec<bool>, cases: &[GroundCase]) {
    for case in cases {
        mark_guard(marks, &case.guard);
    }
}

/// Marks the phrases that the macro or function of a number names, where there is one.
fn mark_definition(marks: &mut Vec<bool>, machine: &Machine<'_>, number: u32) {
    let macros = machine.macros();
    if number as usize >= macros.definitions() {
        return;
    }
    match macros.definition(number) {
        Definition::Macro(table) => mark_rows(marks, table.rows.as_slice()),
        Definition::Function(cases) => mark_guards(marks, cases.as_slice()),
    }
}

/// Marks the phrases that are asked for the number of a value.
fn mark_value(marks: &mut Vec<bool>, machine: &Machine<'_>, value: &GroundValue) {
    match value {
        GroundValue::Sum(_) => {}
        GroundValue::Function(function) => mark_definition(marks, machine, *function),
    }
}

/// Marks the phrases that are asked for the numbers of an answer.
fn mark_answer(marks: &mut Vec<bool>, machine: &Machine<'_>, answer: &GroundAnswer) {
    if let GroundAnswer::Values(values) = answer {
        for value in values.as_slice() {
            mark_value(marks, machine, value);
        }
    }
}

/// Marks the phrases that the guards of the transitions on an event name.
fn mark_transitions(marks: &mut Vec<bool>, machine: &Machine<'_>, event: u32)
    requires { event < length (events machine.now.base.spec) }
{
    for number in machine.transitions_on(event) {
        if let Some(transition) = machine.all_transitions().get(*number as usize) {
            mark_guard(marks, transition.guard());
        }
    }
}

/// Marks the phrases that the guards of the cases of sends on an event name, and those that are asked for their answers.
fn mark_cases(marks: &mut Vec<bool>, machine: &Machine<'_>, event: u32)
    requires { event < length (events machine.now.base.spec) }
{
    for number in machine.cases_on(event) {
        if let Some(case) = machine.all_send_cases().get(*number as usize) {
            mark_guard(marks, case.guard());
            mark_answer(marks, machine, case.answer());
        }
    }
}

/// Marks what a phrase rests on.
fn mark_rests(marks: &mut Vec<bool>, machine: &Machine<'_>, phrase: &GroundPhrase) {
    match phrase {
        GroundPhrase::In(_) | GroundPhrase::Compare { .. } => {}
        GroundPhrase::Any(numbers) => mark_all(marks, numbers.as_slice()),
        GroundPhrase::Every(numbers) => mark_all(marks, numbers.as_slice()),
        GroundPhrase::Macro(number) => mark_definition(marks, machine, *number),
        GroundPhrase::Function { function, .. } => mark_definition(marks, machine, *function),
    }
}

/// Whether a phrase is marked.
fn is_marked(marks: &[bool], phrase: u32) -> bool {
    match marks.get(phrase as usize) {
        Some(mark) => *mark,
        None => false,
    }
}

/// Puts in the phrase of a number where it is marked and about states alone. Marks what it rests on where it is another.
fn put_marked(
    alloc: Global,
    machine: &Machine<'_>,
    marks: &mut Vec<bool>,
    found: &mut Vec<StatePhrase>,
    number: u32,
) -> Result<(), NoMemory>
    requires number { number < length machine.now.base.phrases }
    requires found { All (IsStatePhrase machine.now.base) found.old.items }
    ensures { OnOk result (All (IsStatePhrase machine.now.base) found.new.items) }
{
    if !is_marked(marks.as_slice(), number) {
        return Ok(());
    }
    let macros = machine.macros();
    let Some(one) = state_phrase(alloc, macros, machine.tree(), number)? else {
        mark_rests(marks, machine, macros.phrase(number));
        return Ok(());
    };
    found.push(one)?;
    Ok(())
}

/// The phrases about states alone among the marked ones and those on which they rest. A phrase rests on those before it.
fn marked(
    alloc: Global,
    machine: &Machine<'_>,
    marks: &mut Vec<bool>,
) -> Result<Vec<StatePhrase>, NoMemory>
    ensures { IfOk result (λ found. All (IsStatePhrase machine.now.base) found.items) }
{
    let mut found = Vec::new(alloc);
    let mut number = machine.macros().phrases();
    while number > 0 {
        number -= 1;
        put_marked(alloc, machine, marks, &mut found, number)?;
    }
    Ok(found)
}

/// The phrases about states alone that may be asked on an event. None where there is too much to look at for all events.
pub fn needed_on(
    alloc: Global,
    machine: &Machine<'_>,
    event: u32,
) -> Result<Vec<StatePhrase>, NoMemory>
    requires { event < length (events machine.now.base.spec) }
    ensures { IfOk result (λ found. All (IsStatePhrase machine.now.base) found.items) }
{
    let count = machine.macros().phrases();
    if u64::from(machine.events()) * u64::from(count) > MOST {
        return Ok(Vec::new(alloc));
    }
    let mut marks = Vec::from_elem(alloc, false, count as usize)?;
    mark_transitions(&mut marks, machine, event);
    mark_cases(&mut marks, machine, event);
    marked(alloc, machine, &mut marks)
}
