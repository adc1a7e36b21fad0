//! Whether `this` stands in a text.
ghost use Rattle.std.specs.Prelude.{◌≡◌, IfOk, map};
ghost use Rattle.std.specs.List.{list_any};
ghost use Rattle.rsml_syntax.specs.grammar.Written.{simple_of as said_by};
ghost use Rattle.ground_members.specs.This as spec;

use rsml_names::simple_of;
use rsml_syntax::{
    Answer, Guard, Index, Mention, NoMemory, Operand, Row, SendCase, Simple, Sum, Value,
};
use std::alloc::Global;

// Whether it is the index of a mention.
fn mention_has_this(mention: &Mention) -> bool
    ensures { result ≡ spec.mention_has_this mention.now }
{
    match &mention.index {
        Some(Index::This) => true,
        _ => false,
    }
}

// Whether it stands in an operand.
fn operand_has_this(operand: &Operand) -> bool
    ensures { result ≡ spec.operand_has_this operand.now }
{
    match operand {
        Operand::Number(_) => false,
        Operand::Mention(mention) => mention_has_this(mention),
        Operand::Previous(mention) => mention_has_this(mention),
    }
}

// Whether it stands in a sum.
fn sum_has_this(sum: &Sum) -> bool
    ensures { result ≡ spec.sum_has_this sum.now }
{
    sum.terms.iter().any(|term| operand_has_this(&term.operand))
}

// Whether it stands in a path.
fn path_has_this(path: &[Mention]) -> bool
    ensures { result ≡ list_any spec.mention_has_this path.now }
{
    path.iter().any(|mention| mention_has_this(mention))
}

// Whether it stands in what a phrase says.
fn simple_has_this(simple: &Simple) -> bool
    ensures { result ≡ spec.simple_has_this simple.now }
{
    match simple {
        Simple::In(path) => path_has_this(path.as_slice()),
        Simple::Macro(mention) => mention_has_this(mention),
        Simple::Compare { left, right, .. } => sum_has_this(left) || sum_has_this(right),
        Simple::Function {
            function,
            right,
            ..
        } => mention_has_this(function) || sum_has_this(right),
    }
}

// Whether it stands in rows.
fn rows_have_this(rows: &[Row]) -> bool
    ensures { result ≡ list_any (λ row. spec.simple_has_this (said_by row.phrase)) rows.now }
{
    rows.iter()
        .any(|row| simple_has_this(simple_of(&row.phrase)))
}

// Whether it stands in a guard.
fn guard_has_this(guard: &Guard) -> bool
    ensures { result ≡ spec.guard_has_this guard.now }
{
    match guard {
        Guard::Always => false,
        Guard::Table(rows) => rows_have_this(rows.as_slice()),
    }
}

// Whether it stands in a value.
fn value_has_this(value: &Value) -> bool
    ensures { result ≡ spec.value_has_this value.now }
{
    match value {
        Value::Sum(sum) => sum_has_this(sum),
        Value::Function(mention) => mention_has_this(mention),
    }
}

// Whether it stands in values.
fn values_have_this(values: &[Value]) -> bool
    ensures { result ≡ list_any spec.value_has_this values.now }
{
    values.iter().any(|value| value_has_this(value))
}

// Whether it stands in an answer.
fn answer_has_this(answer: &Answer) -> bool
    ensures { result ≡ spec.answer_has_this answer.now }
{
    match answer {
        Answer::Quiet => false,
        Answer::Values(values) => values_have_this(values.as_slice()),
    }
}

// Whether it stands in a case of a send.
fn case_has_this(case: &SendCase) -> bool
    ensures { result ≡ spec.case_has_this case.now }
{
    mention_has_this(&case.trigger) || guard_has_this(&case.guard) || answer_has_this(&case.answer)
}

/// Whether it stands in each of the cases of a send.
pub fn cases_with_this(alloc: Global, cases: &[SendCase]) -> Result<Vec<bool>, NoMemory>
    ensures { IfOk result (λ these. these.items ≡ map spec.case_has_this cases.now) }
{
    let mut these = Vec::with_capacity(alloc, cases.len())?;
    for case in cases {
        these.push(case_has_this(case))?;
    }
    Ok(these)
}
