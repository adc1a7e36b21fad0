//! The members of a machine, in order.
ghost use Rattle.std.specs.Prelude.{◌≡◌, ◌++◌, IfOk, OnOk, length};
ghost use Rattle.std.specs.List.{AllZip};
ghost use Rattle.ground_groups.specs.declared.group.Member.TheVariants as variants;
ghost use Rattle.ground_groups.specs.Groups.{MemberIs};
ghost use Rattle.equal_frames.specs.Differences.{all_members};
ghost use Rattle.same_spec.specs.Members.{all_cases, cases_of, numbered};

use elaborate::Machine;
use ground_groups::Member;
use macros::Macros;
use rsml_base::NoMemory;
use rsml_ground::Definition;
use std::alloc::Global;

/// The members of a machine: its transitions, the cases of its sends, and those of its functions.
pub fn members_of(alloc: Global, machine: &Machine<'_>) -> Result<Vec<Member>, NoMemory>
    ensures { IfOk result (λ xs. AllZip (MemberIs machine.now.base.spec) (all_members machine.now.base.spec) xs.items) }
{
    machine.law();
    let mut members = Vec::new(alloc);
    push_transitions(&mut members, machine.transitions())?;
    push_send_cases(&mut members, machine.send_cases())?;
    push_functions(&mut members, machine.macros())?;
    Ok(members)
}

/// Adds so many transitions.
fn push_transitions(list: &mut Vec<Member>, count: u32) -> Result<(), NoMemory>
    ensures { OnOk result (list.new.items ≡ list.old.items ++ numbered variants.Transition count) }
{
    for number in 0..count {
        list.push(Member::Transition(number))?;
    }
    Ok(())
}

/// Adds so many cases of sends.
fn push_send_cases(list: &mut Vec<Member>, count: u32) -> Result<(), NoMemory>
    ensures { OnOk result (list.new.items ≡ list.old.items ++ numbered variants.SendCase count) }
{
    for number in 0..count {
        list.push(Member::SendCase(number))?;
    }
    Ok(())
}

/// Adds the cases of all functions.
fn push_functions(list: &mut Vec<Member>, macros: &Macros<'_>) -> Result<(), NoMemory>
    ensures { OnOk result (list.new.items ≡ list.old.items ++ all_cases (λ k. k) macros.now.definitions) }
{
    let Ok(count) = u32::try_from(macros.definitions()) else {
        return Err(NoMemory);
    };
    for number in 0..count {
        push_definition(list, number, macros.definition(number))?;
    }
    Ok(())
}

/// Adds the cases of a function. A macro has none.
fn push_definition(
    list: &mut Vec<Member>,
    number: u32,
    definition: &Definition,
) -> Result<(), NoMemory>
    ensures { OnOk result (list.new.items ≡ list.old.items ++ cases_of number definition.now) }
{
    match definition {
        Definition::Macro(_) => Ok(()),
        Definition::Function(cases) => push_cases(list, number, cases.len()),
    }
}

/// Adds so many cases of a function.
fn push_cases(list: &mut Vec<Member>, function: u32, count: usize) -> Result<(), NoMemory>
    ensures { OnOk result (list.new.items ≡ list.old.items ++ numbered (variants.FunctionCase function) count) }
{
    let Ok(count) = u32::try_from(count) else {
        return Err(NoMemory);
    };
    for place in 0..count {
        list.push(Member::FunctionCase { function, place })?;
    }
    Ok(())
}
