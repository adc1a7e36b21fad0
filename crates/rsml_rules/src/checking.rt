ghost use Rattle.std.specs.Prelude.{◌≡◌, Err, IfOk, List, None, OnOk, Some, ℕ};
ghost use Rattle.rsml_syntax.specs.limits.Limits.{Keeps, over};
ghost use Rattle.rsml_syntax.specs.rules.Rules.{broken_rule, name_tables};
ghost use Rattle.rsml_syntax.specs.grammar.WellFormed.{WellFormed};
ghost use Rattle.rsml_rules.specs.declared.error.RuleError.TheVariants as errors;

use crate::breaches::lowest_breach;
use crate::error::RuleError;
use rsml_limits::lowest_over;
use rsml_names::NameTables;
use rsml_syntax::{Checked, Spec};
use std::alloc::Global;

/// Judges the rules alone.
fn check_breaches<'a>(
    alloc: Global,
    tables: &NameTables<'a>,
    spec: &'a Spec,
) -> Result<(), RuleError>
    requires { tables.now ≡ name_tables spec.now }
    ensures kept { OnOk result (broken_rule spec.now ≡ None) }
    ensures rule { (number : ℕ) → (name : List ℕ) → result ≡ Err (errors.Rule number name)
        → broken_rule spec.now ≡ Some (record { rule = number; shown = name }) }
    ensures no_limit { (number count : ℕ) → result ≡ Err (errors.Limit number count) → ⊥ }
{
    match lowest_breach(alloc, tables, spec)? {
        Some(breach) => Err(RuleError::Rule {
            number: breach.rule,
            name: breach.name,
        }),
        None => Ok(()),
    }
}

/// Judges the limits alone.
fn check_limits<'a>(alloc: Global, tables: &NameTables<'a>, spec: &'a Spec) -> Result<(), RuleError>
    requires { tables.now ≡ name_tables spec.now }
    ensures kept { OnOk result (over spec.now ≡ None) }
    ensures limit { (number count : ℕ) → result ≡ Err (errors.Limit number count)
        → over spec.now ≡ Some (number, count) }
    ensures no_rule { (number : ℕ) → (name : List ℕ) → result ≡ Err (errors.Rule number name) → ⊥ }
{
    match lowest_over(alloc, &tables.globals, spec)? {
        Some(over) => Err(RuleError::Limit {
            number: over.limit,
            count: over.count,
        }),
        None => Ok(()),
    }
}

/// Judges the rules, and then the limits.
fn judge(alloc: Global, spec: &Spec) -> Result<(), RuleError>
    ensures kept { OnOk result (Keeps spec.now) }
    ensures rule { (number : ℕ) → (name : List ℕ) → result ≡ Err (errors.Rule number name)
        → broken_rule spec.now ≡ Some (record { rule = number; shown = name }) }
    ensures limit { (number count : ℕ) → result ≡ Err (errors.Limit number count)
        → (broken_rule spec.now ≡ None) × (over spec.now ≡ Some (number, count)) }
{
    let tables = NameTables::new(alloc, spec)?;
    check_breaches(alloc, &tables, spec)?;
    check_limits(alloc, &tables, spec)
}

/// Judges the rules and the limits. A specification that keeps them is given back as checked; else
/// it is dropped.
pub fn check_rules(alloc: Global, spec: Spec) -> Result<Checked, RuleError>
    requires { WellFormed spec }
    ensures ok { IfOk result (λ checked. checked ≡ spec) }
    ensures kept { OnOk result (Keeps spec) }
    ensures rule { (number : ℕ) → (name : List ℕ) → result ≡ Err (errors.Rule number name)
        → broken_rule spec ≡ Some (record { rule = number; shown = name }) }
    ensures limit { (number count : ℕ) → result ≡ Err (errors.Limit number count)
        → (broken_rule spec ≡ None) × (over spec ≡ Some (number, count)) }
{
    judge(alloc, &spec)?;
    Ok(Checked::new(spec))
}
