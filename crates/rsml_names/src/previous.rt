//! The names that stand after `previous`.
#![tactic(auto, using(crate::proofs::GatheringRules::gathering))]

ghost use Rattle.std.specs.Prelude.{◌≡◌, ◌∷◌, [], ◌++◌, IfOk, flat_map};
ghost use Rattle.rsml_syntax.specs.grammar.Written as written;
ghost use Rattle.rsml_names.specs.PreviousNames as after;
ghost use Rattle.rsml_names.specs.PreviousNames.{gathered};

use crate::{Guarded, NameList, answered, rows_of, simple_of, transitions_of};
use rsml_syntax::{
    Answer, Body, Case, Decl, NoMemory, Operand, Row, SendCase, Simple, Spec, StateDecl, Sum, Value,
};
use std::alloc::Global;

/// These names, and the one that stands after `previous` in an operand.
fn with_operand<'a>(names: NameList<'a>, operand: &'a Operand) -> Result<NameList<'a>, NoMemory>
    ensures { IfOk result (λ n. n ≡ names.entry ++ after.previous_name operand.now) }
{
    match operand {
        Operand::Previous(mention) => {
            let (names, _) = names.put(mention.name.bytes())?;
            Ok(names)
        }
        _ => Ok(names),
    }
}

fn with_sum<'a>(mut names: NameList<'a>, sum: &'a Sum) -> Result<NameList<'a>, NoMemory>
    ensures { IfOk result (λ n. n ≡ gathered names.entry (sum.now ∷ [])) }
{
    for term in sum.terms.as_slice() {
        names = with_operand(names, &term.operand)?;
    }
    Ok(names)
}

fn with_simple<'a>(names: NameList<'a>, simple: &'a Simple) -> Result<NameList<'a>, NoMemory>
    ensures { IfOk result (λ n. n ≡ gathered names.entry (written.sums_in simple.now)) }
{
    match simple {
        Simple::In(_) | Simple::Macro(_) => Ok(names),
        Simple::Compare { left, right, .. } => {
            let names = with_sum(names, left)?;
            with_sum(names, right)
        }
        Simple::Function { right, .. } => with_sum(names, right),
    }
}

fn with_rows<'a>(mut names: NameList<'a>, rows: &'a [Row]) -> Result<NameList<'a>, NoMemory>
    ensures { IfOk result (λ n. n ≡ gathered names.entry (flat_map written.sums_of_row rows.now)) }
{
    for row in rows {
        names = with_simple(names, simple_of(&row.phrase))?;
    }
    Ok(names)
}

fn with_guards<'a, G: Guarded>(
    mut names: NameList<'a>,
    guarded: &'a [G],
) -> Result<NameList<'a>, NoMemory>
    ensures { IfOk result (λ n.
        n ≡ gathered names.entry (flat_map (λ x. written.sums_of_guard (G.guard_of x)) guarded.now)) }
{
    for each in guarded {
        names = with_rows(names, rows_of(each.guard()))?;
    }
    Ok(names)
}

fn with_case_values<'a>(
    mut names: NameList<'a>,
    cases: &'a [Case],
) -> Result<NameList<'a>, NoMemory>
    ensures { IfOk result (λ n. n ≡ gathered names.entry (after.case_values cases.now)) }
{
    for case in cases {
        names = with_sum(names, &case.value)?;
    }
    Ok(names)
}

fn with_value<'a>(names: NameList<'a>, value: &'a Value) -> Result<NameList<'a>, NoMemory>
    ensures { IfOk result (λ n. n ≡ gathered names.entry (written.sum_of_value value.now)) }
{
    match value {
        Value::Sum(sum) => with_sum(names, sum),
        Value::Function(_) => Ok(names),
    }
}

fn with_answer<'a>(mut names: NameList<'a>, answer: &'a Answer) -> Result<NameList<'a>, NoMemory>
    ensures { IfOk result (λ n. n ≡ gathered names.entry (after.sums_of_answer answer.now)) }
{
    for value in answered(answer) {
        names = with_value(names, value)?;
    }
    Ok(names)
}

fn with_send_answers<'a>(
    mut names: NameList<'a>,
    cases: &'a [SendCase],
) -> Result<NameList<'a>, NoMemory>
    ensures { IfOk result (λ n. n ≡ gathered names.entry (after.send_answers cases.now)) }
{
    for case in cases {
        names = with_answer(names, &case.answer)?;
    }
    Ok(names)
}

fn with_cases<'a>(names: NameList<'a>, cases: &'a [Case]) -> Result<NameList<'a>, NoMemory>
    ensures { IfOk result (λ n.
        n ≡ gathered names.entry (after.case_guards cases.now ++ after.case_values cases.now)) }
{
    let names = with_guards(names, cases)?;
    with_case_values(names, cases)
}

fn with_send_cases<'a>(names: NameList<'a>, cases: &'a [SendCase]) -> Result<NameList<'a>, NoMemory>
    ensures { IfOk result (λ n.
        n ≡ gathered names.entry (after.send_guards cases.now ++ after.send_answers cases.now)) }
{
    let names = with_guards(names, cases)?;
    with_send_answers(names, cases)
}

#[tactic(auto, using(crate::proofs::PreviousGathering::macro_sums, crate::proofs::PreviousGathering::gathered_none))]
fn with_declaration<'a>(names: NameList<'a>, decl: &'a Decl) -> Result<NameList<'a>, NoMemory>
    ensures { IfOk result (λ n. n ≡ gathered names.entry (after.sums_of_declaration decl.now)) }
{
    match decl {
        Decl::Macro { rows, .. } => with_rows(names, rows.as_slice()),
        Decl::Function { cases, .. } => with_cases(names, cases.as_slice()),
        Decl::Send { cases, .. } => with_send_cases(names, cases.as_slice()),
        _ => Ok(names),
    }
}

fn with_declarations<'a>(
    mut names: NameList<'a>,
    decls: &'a [Decl],
) -> Result<NameList<'a>, NoMemory>
    ensures { IfOk result (λ n.
        n ≡ gathered names.entry (flat_map after.sums_of_declaration decls.now)) }
{
    for decl in decls {
        names = with_declaration(names, decl)?;
    }
    Ok(names)
}

/// These names, and those that stand after `previous` inside a state.
#[cycle(walk)]
fn with_inside<'a>(names: NameList<'a>, body: &'a Body) -> Result<NameList<'a>, NoMemory>
    ensures { IfOk result (λ n. n ≡ gathered names.entry (after.sums_inside body.now)) }
{
    match body {
        Body::Basic => Ok(names),
        Body::One { children, .. } => with_children(names, children.as_slice()),
        Body::All { children } => with_children(names, children.as_slice()),
    }
}

#[cycle(walk)]
fn with_children<'a>(
    mut names: NameList<'a>,
    children: &'a [StateDecl],
) -> Result<NameList<'a>, NoMemory>
    ensures { IfOk result (λ n.
        n ≡ gathered names.entry (flat_map (λ c. after.sums_of_state c.body) children.now)) }
{
    for child in children {
        let within = with_inside(names, &child.body)?;
        names = with_guards(within, transitions_of(&child.body))?;
    }
    Ok(names)
}

/// The names that stand after `previous` somewhere in a specification.
pub fn previous_names(alloc: Global, spec: &Spec) -> Result<NameList<'_>, NoMemory>
    ensures { IfOk result (λ n. n ≡ after.previous_names spec.now) }
{
    let names = with_declarations(NameList::new(alloc), spec.decls.as_slice())?;
    let names = with_inside(names, &spec.body)?;
    with_guards(names, transitions_of(&spec.body))
}
