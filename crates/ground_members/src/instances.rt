//! The cases of one send after another: those of its first instance get their numbers, and each other instance has cases
//! like those where `this` does not stand in them.
ghost use Rattle.std.specs.Prelude.{◌≡◌, ℕ, ◌≤◌, IfOk, OnOk, Some, flat_map, map};
ghost use Rattle.std.specs.List.{AllZip};
ghost use Rattle.std.specs.Option.{option_copied};
ghost use Rattle.rsml_syntax.specs.rules.Globals.{indices, many, size_of, up_to};
ghost use Rattle.rsml_meaning.specs.Words.{Each, at, place_in};
ghost use Rattle.rsml_meaning.specs.Instances.{globals_of};
ghost use Rattle.rsml_meaning.specs.Interfaces.{sends, send_cases_of};
ghost use Rattle.rsml_ground.specs.Grounded.{IsGrounded};
ghost use Rattle.rsml_ground.specs.Numbers.{Keeps};
ghost use Rattle.ground_members.specs.CaseLists.{AddsCases, case_by, cases_at};
ghost use Rattle.ground_members.specs.Members.{IsSend, SendCaseIs};
ghost use Rattle.ground_members.specs.Scoped.{CaseIsScoped};
ghost use Rattle.ground_members.specs.This.{case_has_this};

use crate::answers::answer;
use crate::events::event_number;
use crate::send_cases::GroundSendCase;
use crate::shared_case::SharedSendCase;
use crate::this::cases_with_this;
use crate::written::ordinal_of;
use crate::written_sends::{WrittenCase, WrittenSend};
use phrase_builder::{Lookup, guard};
use rsml_ground::{Definition, Phrases};
use rsml_syntax::{Amount, Decl, NoMemory, Text};
use std::alloc::Global;

// The number of a send instance.
#[tactic(auto, using(crate::proofs::Numbers::place_is))]
fn send_number(lookup: &Lookup<'_, '_>, name: &Text, index: u8) -> u32
    requires { (k : ℕ) × (place_in (sends lookup.now) (at name.now index) ≡ Some k) }
    ensures { IsSend lookup.now (at name.now index) result }
{
    lookup.names().send_of(name.bytes(), index).unwrap()
}

// A case as it is written, over numbers.
fn send_case(
    alloc: Global,
    lookup: &Lookup<'_, '_>,
    definitions: &[Definition],
    phrases: &mut Phrases,
    written: &WrittenCase<'_>,
) -> Result<SharedSendCase, NoMemory>
    requires before { IsGrounded (record { spec = lookup.now; phrases = phrases.old; definitions = definitions.now }) }
    requires scoped { CaseIsScoped lookup.now (case_by (globals_of lookup.now) written.now) }
    ensures after { IsGrounded (record { spec = lookup.now; phrases = phrases.new; definitions = definitions.now }) }
    ensures kept { Keeps phrases.old phrases.new }
    ensures is { IfOk result (λ x. SendCaseIs phrases.new lookup.now (case_by (globals_of lookup.now) written.now) x) }
{
    let this = written.index;
    let case = written.case;
    let guard = guard(alloc, lookup, definitions, phrases, this, &case.guard)?;
    let answer = answer(alloc, lookup, this, &case.answer)?;
    let whole = GroundSendCase {
        send: send_number(lookup, written.name, this),
        event: event_number(lookup, this, &case.trigger),
        guard,
        answer,
        ordinal: written.ordinal,
    };
    SharedSendCase::new(alloc, whole)
}

// The cases of the instance of an index, over numbers.
fn cases_of(
    alloc: Global,
    lookup: &Lookup<'_, '_>,
    definitions: &[Definition],
    phrases: &mut Phrases,
    send: &WrittenSend<'_>,
    index: u8,
) -> Result<Vec<SharedSendCase>, NoMemory>
    requires before { IsGrounded (record { spec = lookup.now; phrases = phrases.old; definitions = definitions.now }) }
    requires scoped { Each (CaseIsScoped lookup.now) (cases_at (globals_of lookup.now) send.now index) }
    ensures after { IsGrounded (record { spec = lookup.now; phrases = phrases.new; definitions = definitions.now }) }
    ensures kept { Keeps phrases.old phrases.new }
    ensures are { IfOk result (λ cs. AllZip (SendCaseIs phrases.new lookup.now)
        (cases_at (globals_of lookup.now) send.now index) cs.items) }
{
    let mut cases = Vec::with_capacity(alloc, send.cases.len())?;
    for (place, case) in send.cases.iter().enumerate() {
        let written = WrittenCase {
            name: send.name,
            fields: send.fields,
            index,
            ordinal: ordinal_of(place)?,
            case,
        };
        cases.push(send_case(alloc, lookup, definitions, phrases, &written)?)?;
    }
    Ok(cases)
}

// A case as it is written, over numbers, where `this` stands in it or not, the send instance has this number, and instance 1
// has this case.
fn case_like(
    alloc: Global,
    lookup: &Lookup<'_, '_>,
    definitions: &[Definition],
    phrases: &mut Phrases,
    written: &WrittenCase<'_>,
    has_this: bool,
    number: u32,
    first: &SharedSendCase,
) -> Result<SharedSendCase, NoMemory>
    requires before { IsGrounded (record { spec = lookup.now; phrases = phrases.old; definitions = definitions.now }) }
    requires scoped { CaseIsScoped lookup.now (case_by (globals_of lookup.now) written.now) }
    requires this { has_this ≡ case_has_this written.now.case.now }
    requires number { IsSend lookup.now (at written.now.name.now written.now.index) number }
    requires first { SendCaseIs phrases.old lookup.now
        (case_by (globals_of lookup.now) (record written.now { index = 1 })) first.now }
    ensures after { IsGrounded (record { spec = lookup.now; phrases = phrases.new; definitions = definitions.now }) }
    ensures kept { Keeps phrases.old phrases.new }
    ensures is { IfOk result (λ x. SendCaseIs phrases.new lookup.now (case_by (globals_of lookup.now) written.now) x) }
{
    if has_this {
        return send_case(alloc, lookup, definitions, phrases, written);
    }
    first.like(number)
}

// Adds the cases of the instance of an index, where `this` stands in each of them or not, and instance 1 has these.
fn add_instance(
    cases: &mut Vec<SharedSendCase>,
    alloc: Global,
    lookup: &Lookup<'_, '_>,
    definitions: &[Definition],
    phrases: &mut Phrases,
    send: &WrittenSend<'_>,
    index: u8,
    these: &[bool],
    first: &[SharedSendCase],
) -> Result<(), NoMemory>
    requires before { IsGrounded (record { spec = lookup.now; phrases = phrases.old; definitions = definitions.now }) }
    requires scoped { Each (CaseIsScoped lookup.now) (cases_at (globals_of lookup.now) send.now index) }
    requires these { these.now ≡ map case_has_this send.now.cases.now }
    requires first { AllZip (SendCaseIs phrases.old lookup.now) (cases_at (globals_of lookup.now) send.now 1) first.now }
    ensures after { IsGrounded (record { spec = lookup.now; phrases = phrases.new; definitions = definitions.now }) }
    ensures kept { Keeps phrases.old phrases.new }
    ensures are { OnOk result (AddsCases phrases.new lookup.now (cases_at (globals_of lookup.now) send.now index)
        cases.old.items cases.new.items) }
{
    if send.cases.is_empty() {
        return Ok(());
    }
    let number = send_number(lookup, send.name, index);
    for (place, case) in send.cases.iter().enumerate() {
        let written = WrittenCase {
            name: send.name,
            fields: send.fields,
            index,
            ordinal: ordinal_of(place)?,
            case,
        };
        cases.push(case_like(
            alloc,
            lookup,
            definitions,
            phrases,
            &written,
            these[place],
            number,
            &first[place],
        )?)?;
    }
    Ok(())
}

// Adds the cases of the instances 1 to `count`.
fn add_array(
    cases: &mut Vec<SharedSendCase>,
    alloc: Global,
    lookup: &Lookup<'_, '_>,
    definitions: &[Definition],
    phrases: &mut Phrases,
    send: &WrittenSend<'_>,
    count: u8,
) -> Result<(), NoMemory>
    requires before { IsGrounded (record { spec = lookup.now; phrases = phrases.old; definitions = definitions.now }) }
    requires scoped { Each (CaseIsScoped lookup.now) (flat_map (cases_at (globals_of lookup.now) send.now) (up_to count)) }
    ensures after { IsGrounded (record { spec = lookup.now; phrases = phrases.new; definitions = definitions.now }) }
    ensures kept { Keeps phrases.old phrases.new }
    ensures are { OnOk result (AddsCases phrases.new lookup.now
        (flat_map (cases_at (globals_of lookup.now) send.now) (up_to count)) cases.old.items cases.new.items) }
{
    if count == 0 {
        return Ok(());
    }
    cases.reserve(send.cases.len().saturating_mul(usize::from(count)))?;
    let these = cases_with_this(alloc, send.cases)?;
    let first = cases_of(alloc, lookup, definitions, phrases, send, 1)?;
    for before in 0..count {
        add_instance(
            cases,
            alloc,
            lookup,
            definitions,
            phrases,
            send,
            before + 1,
            these.as_slice(),
            first.as_slice(),
        )?;
    }
    Ok(())
}

// Adds the cases of a send that is no array.
fn add_single(
    cases: &mut Vec<SharedSendCase>,
    alloc: Global,
    lookup: &Lookup<'_, '_>,
    definitions: &[Definition],
    phrases: &mut Phrases,
    send: &WrittenSend<'_>,
) -> Result<(), NoMemory>
    requires before { IsGrounded (record { spec = lookup.now; phrases = phrases.old; definitions = definitions.now }) }
    requires scoped { Each (CaseIsScoped lookup.now) (cases_at (globals_of lookup.now) send.now 0) }
    ensures after { IsGrounded (record { spec = lookup.now; phrases = phrases.new; definitions = definitions.now }) }
    ensures kept { Keeps phrases.old phrases.new }
    ensures are { OnOk result (AddsCases phrases.new lookup.now (cases_at (globals_of lookup.now) send.now 0)
        cases.old.items cases.new.items) }
{
    let mut more = cases_of(alloc, lookup, definitions, phrases, send, 0)?;
    cases.append(&mut more)?;
    Ok(())
}

// Adds the cases of the send instances of a send that is declared with this size.
fn add_sends(
    cases: &mut Vec<SharedSendCase>,
    alloc: Global,
    lookup: &Lookup<'_, '_>,
    definitions: &[Definition],
    phrases: &mut Phrases,
    send: &WrittenSend<'_>,
    size: Option<&Amount>,
) -> Result<(), NoMemory>
    requires before { IsGrounded (record { spec = lookup.now; phrases = phrases.old; definitions = definitions.now }) }
    requires few { many (globals_of lookup.now) (option_copied size) ≤ 64 }
    requires scoped { Each (CaseIsScoped lookup.now)
        (flat_map (cases_at (globals_of lookup.now) send.now) (indices (globals_of lookup.now) (option_copied size))) }
    ensures after { IsGrounded (record { spec = lookup.now; phrases = phrases.new; definitions = definitions.now }) }
    ensures kept { Keeps phrases.old phrases.new }
    ensures are { OnOk result (AddsCases phrases.new lookup.now
        (flat_map (cases_at (globals_of lookup.now) send.now) (indices (globals_of lookup.now) (option_copied size.entry)))
        cases.old.items cases.new.items) }
{
    match size {
        None => add_single(cases, alloc, lookup, definitions, phrases, send),
        Some(_) => {
            let count = lookup.many(size) as u8;
            add_array(cases, alloc, lookup, definitions, phrases, send, count)
        }
    }
}

/// Adds the cases of the send instances that a declaration makes.
pub fn add_declared(
    cases: &mut Vec<SharedSendCase>,
    alloc: Global,
    lookup: &Lookup<'_, '_>,
    definitions: &[Definition],
    phrases: &mut Phrases,
    decl: &Decl,
) -> Result<(), NoMemory>
    requires before { IsGrounded (record { spec = lookup.now; phrases = phrases.old; definitions = definitions.now }) }
    requires few { many (globals_of lookup.now) (size_of decl.now) ≤ 64 }
    requires scoped { Each (CaseIsScoped lookup.now) (send_cases_of (globals_of lookup.now) decl.now) }
    ensures after { IsGrounded (record { spec = lookup.now; phrases = phrases.new; definitions = definitions.now }) }
    ensures kept { Keeps phrases.old phrases.new }
    ensures are { OnOk result (AddsCases phrases.new lookup.now (send_cases_of (globals_of lookup.now) decl.now)
        cases.old.items cases.new.items) }
{
    match decl {
        Decl::Send {
            name,
            size,
            fields,
            cases: written,
        } => {
            let send = WrittenSend {
                name,
                fields: fields.as_slice(),
                cases: written.as_slice(),
            };
            add_sends(
                cases,
                alloc,
                lookup,
                definitions,
                phrases,
                &send,
                size.as_ref(),
            )
        }
        _ => Ok(()),
    }
}
