//! What stands in declarations: initial values, cases, and names that stand twice in a list.
ghost use Rattle.std.specs.Prelude.{◌≡◌, [], OnOk, flat_map, map};
ghost use Rattle.rsml_syntax.specs.rules.Declarations as declarations;
ghost use Rattle.rsml_rules.specs.breaches.Noting.{noted};

use crate::breaches::phrases::guard_used;
use crate::breaches::setting::Setting;
use crate::breaches::uses::{mentioned, sum_used, used};
use crate::breaches::worst::Worst;
use rsml_names::{NameList, NameTables, Scope, answered};
use rsml_syntax::{Case, Initial, Mention, NoMemory, SendCase, Text, Value, Want};
use std::alloc::Global;

/// Names that stand in a list before.
pub fn repeats<'a>(
    alloc: Global,
    rule: u8,
    names: &'a [Text],
    worst: &mut Worst<'a>,
) -> Result<(), NoMemory>
    ensures { OnOk result (worst.new ≡ noted worst.old (declarations.repeats rule [] names.now)) }
{
    let mut earlier = NameList::new(alloc);
    for name in names {
        let again = earlier.add(name.bytes())?;
        worst.note(rule, name, again);
    }
    Ok(())
}

/// Names of mentions that stand in a list before.
pub fn mentioned_again<'a>(
    alloc: Global,
    rule: u8,
    mentions: &'a [Mention],
    worst: &mut Worst<'a>,
) -> Result<(), NoMemory>
    ensures { OnOk result (worst.new ≡ noted worst.old
        (declarations.repeats rule [] (map (λ m. m.name) mentions.now))) }
{
    let mut earlier = NameList::new(alloc);
    for mention in mentions {
        let again = earlier.add(mention.name.bytes())?;
        worst.note(rule, &mention.name, again);
    }
    Ok(())
}

/// An initial value.
pub fn initial_used<'a>(
    tables: &NameTables<'a>,
    scope: &Scope<'a>,
    initial: &'a Initial,
    worst: &mut Worst<'a>,
)
    ensures { worst.new ≡ noted worst.old
        (declarations.initial_used tables.now scope.now initial.now) }
{
    match initial {
        Initial::Number(_) => {}
        Initial::Name(name) => used(tables, scope, Want::Initial, name, worst),
    }
}

/// A case of a function.
fn case_used<'a>(
    setting: &Setting<'a, '_>,
    scope: &Scope<'a>,
    case: &'a Case,
    worst: &mut Worst<'a>,
)
    ensures { worst.new ≡ noted worst.old
        (declarations.case_used setting.now.tables scope.now case.now) }
{
    sum_used(setting.tables(), scope, &case.value, worst);
    guard_used(setting, scope, &case.guard, worst);
}

/// The cases of a function.
pub fn each_case<'a>(
    setting: &Setting<'a, '_>,
    scope: &Scope<'a>,
    cases: &'a [Case],
    worst: &mut Worst<'a>,
)
    ensures { worst.new ≡ noted worst.old
        (flat_map (declarations.case_used setting.now.tables scope.now) cases.now) }
{
    for case in cases {
        case_used(setting, scope, case, worst);
    }
}

/// A value of an answer.
fn value_used<'a>(
    tables: &NameTables<'a>,
    scope: &Scope<'a>,
    value: &'a Value,
    worst: &mut Worst<'a>,
)
    ensures { worst.new ≡ noted worst.old (declarations.value_used tables.now scope.now value.now) }
{
    match value {
        Value::Sum(sum) => sum_used(tables, scope, sum, worst),
        Value::Function(function) => mentioned(tables, scope, Want::Function, function, worst),
    }
}

fn each_value<'a>(
    tables: &NameTables<'a>,
    scope: &Scope<'a>,
    values: &'a [Value],
    worst: &mut Worst<'a>,
)
    ensures { worst.new ≡ noted worst.old
        (flat_map (declarations.value_used tables.now scope.now) values.now) }
{
    for value in values {
        value_used(tables, scope, value, worst);
    }
}

/// A case of a send.
fn send_case_used<'a>(
    setting: &Setting<'a, '_>,
    scope: &Scope<'a>,
    case: &'a SendCase,
    worst: &mut Worst<'a>,
)
    ensures { worst.new ≡ noted worst.old
        (declarations.send_case_used setting.now.tables scope.now case.now) }
{
    let tables = setting.tables();
    mentioned(tables, scope, Want::Event, &case.trigger, worst);
    guard_used(setting, scope, &case.guard, worst);
    each_value(tables, scope, answered(&case.answer), worst);
}

/// The cases of a send.
pub fn each_send_case<'a>(
    setting: &Setting<'a, '_>,
    scope: &Scope<'a>,
    cases: &'a [SendCase],
    worst: &mut Worst<'a>,
)
    ensures { worst.new ≡ noted worst.old
        (flat_map (declarations.send_case_used setting.now.tables scope.now) cases.now) }
{
    for case in cases {
        send_case_used(setting, scope, case, worst);
    }
}
