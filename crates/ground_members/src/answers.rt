ghost use Rattle.std.specs.Prelude.{IfOk, length};
ghost use Rattle.std.specs.List.{AllZip};
ghost use Rattle.rsml_meaning.specs.Words.{Each};
ghost use Rattle.rsml_meaning.specs.Interfaces.{definitions};
ghost use Rattle.rsml_meaning.specs.Truth.{within};
ghost use Rattle.rsml_ground.specs.Scoped.{ValueIsScoped, AnswerIsScoped};
ghost use Rattle.ground_members.specs.Members.{ValueIs, AnswerIs};

use crate::send_cases::{GroundAnswer, GroundValue};
use phrase_builder::{Lookup, function_number, sum};
use rsml_syntax::{Answer, List, NoMemory, Value};
use std::alloc::Global;

// The value of a field, in the send instance of an index.
fn value(
    alloc: Global,
    lookup: &Lookup<'_, '_>,
    this: u8,
    value: &Value,
) -> Result<GroundValue, NoMemory>
    requires { ValueIsScoped lookup.now (length (definitions lookup.now)) (within this) value.now }
    ensures { IfOk result (λ x. ValueIs lookup.now (within this) value.now x) }
{
    match value {
        Value::Sum(written) => Ok(GroundValue::Sum(sum(alloc, lookup, this, written)?)),
        Value::Function(mention) => Ok(GroundValue::Function(function_number(
            lookup, this, mention,
        ))),
    }
}

// The values of the fields, in order.
fn values(
    alloc: Global,
    lookup: &Lookup<'_, '_>,
    this: u8,
    written: &[Value],
) -> Result<List<GroundValue>, NoMemory>
    requires { Each (ValueIsScoped lookup.now (length (definitions lookup.now)) (within this)) written.now }
    ensures { IfOk result (λ xs. AllZip (ValueIs lookup.now (within this)) written.now xs) }
{
    let mut values = List::with_capacity(alloc, written.len())?;
    for one in written {
        values.push(value(alloc, lookup, this, one)?)?;
    }
    Ok(values)
}

/// The answer of a case, in the send instance of an index.
pub fn answer(
    alloc: Global,
    lookup: &Lookup<'_, '_>,
    this: u8,
    answer: &Answer,
) -> Result<GroundAnswer, NoMemory>
    requires { AnswerIsScoped lookup.now (length (definitions lookup.now)) (within this) answer.now }
    ensures { IfOk result (λ x. AnswerIs lookup.now (within this) answer.now x) }
{
    match answer {
        Answer::Quiet => Ok(GroundAnswer::Quiet),
        Answer::Values(written) => Ok(GroundAnswer::Values(values(
            alloc,
            lookup,
            this,
            written.as_slice(),
        )?)),
    }
}
