ghost use Rattle.std.specs.Prelude.{◌≡◌, ◌++◌, IfOk, OnOk, flat_map, map, slice_get};
ghost use Rattle.std.specs.Option.{option_copied};
ghost use Rattle.instance_texts.specs.SentCases.{answered_by, cases_in, names_in};

use crate::listed::Listed;
use crate::sent_names::value_names;
use rsml_names::{Globals, answered};
use rsml_syntax::{Answer, Decl, NoMemory, SendCase, Text};
use std::alloc::Global;
use std::marker::Model;

/// The fields of a case of a send, and the names of the values of what it answers in each.
#[derive(Drop)]
pub struct Answered<'a> {
    pub fields: &'a [Text],
    pub names: Vec<&'a [Text]>,
}

impl<'a> Model for Answered<'a> {
    ghost use Rattle.std.specs.Prelude.{map};
    ghost use Rattle.instance_texts.specs.SentCases as spec;

    ghost Value = { spec.Answered };

    ghost view = { λ x. record { fields = x.fields.now; names = map (λ n. n.now) x.names.items } };
}

impl<'a> Answered<'a> {
    /// The field at a place.
    pub fn field(&self, place: usize) -> Option<&'a Text>
        ensures { option_copied result ≡ slice_get self.now.fields place }
    {
        self.fields.get(place)
    }

    /// The names of the value at a place.
    pub fn names_at(&self, place: usize) -> Option<&'a [Text]>
        ensures { option_copied result ≡ slice_get self.now.names place }
    {
        self.names.get(place).copied()
    }
}

// The names of each value of an answer.
fn answer_names<'a>(
    alloc: Global,
    globals: &Globals<'a>,
    answer: &Answer,
) -> Result<Vec<&'a [Text]>, NoMemory>
    ensures { IfOk result (λ v. map (λ n. n.now) v.items ≡ names_in globals.now answer.now) }
{
    let values = answered(answer);
    let mut names = Vec::new(alloc);
    for value in values {
        names.push(value_names(globals, value))?;
    }
    Ok(names)
}

// Adds what cases answer, in these fields.
fn add_declared<'a>(
    alloc: Global,
    cases: &mut Vec<Answered<'a>>,
    globals: &Globals<'a>,
    fields: &'a [Text],
    declared: &[SendCase],
) -> Result<(), NoMemory>
    ensures { OnOk result (cases.new.items ≡ cases.old.items ++ map (answered_by globals.now fields.now) declared.now) }
{
    for case in declared {
        let names = answer_names(alloc, globals, &case.answer)?;
        cases.push(Answered { fields, names })?;
    }
    Ok(())
}

// Adds what the cases of a send answer.
fn add_cases<'a>(
    alloc: Global,
    cases: &mut Vec<Answered<'a>>,
    globals: &Globals<'a>,
    decl: &'a Decl,
) -> Result<(), NoMemory>
    ensures { OnOk result (cases.new.items ≡ cases.old.items ++ cases_in globals.now decl.now) }
{
    match decl {
        Decl::Send {
            fields,
            cases: declared,
            ..
        } => add_declared(
            alloc,
            cases,
            globals,
            fields.as_slice(),
            declared.as_slice(),
        ),
        _ => Ok(()),
    }
}

/// What the cases of sends answer.
pub fn answers<'a>(
    alloc: Global,
    globals: &Globals<'a>,
    sends: &[Listed<'a>],
) -> Result<Vec<Answered<'a>>, NoMemory>
    ensures { IfOk result (λ v. v.items ≡ flat_map (λ x. cases_in globals.now x.decl) sends.now) }
{
    let mut cases = Vec::new(alloc);
    for send in sends {
        add_cases(alloc, &mut cases, globals, send.decl)?;
    }
    Ok(cases)
}
