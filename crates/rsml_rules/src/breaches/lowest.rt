//! The lowest broken rule.
ghost use Rattle.std.specs.Prelude.{◌≡◌, ◌+◌, ◌<◌, ◌^◌, IfOk, OnOk, flat_map, length};
ghost use Rattle.std.specs.Option.{option_map};
ghost use Rattle.rsml_syntax.specs.rules.Globals as known;
ghost use Rattle.rsml_syntax.specs.grammar.Parts as parts;
ghost use Rattle.rsml_syntax.specs.rules.Rules as rules;
ghost use Rattle.rsml_rules.specs.breaches.Noting.{noted};
ghost use Rattle.rsml_rules.specs.breaches.Settings.{breach_of};
ghost use Rattle.rsml_rules.specs.breaches.Walks as walk;

use crate::breaches::declarations::declaration;
use crate::breaches::setting::Setting;
use crate::breaches::state::State;
use crate::breaches::states::judged;
use crate::breaches::worst::Worst;
use rsml_names::{NameTables, values_of};
use rsml_syntax::{Decl, NoMemory, Spec, Text};
use std::alloc::Global;

/// A broken rule, by its number, and the name at which it is shown.
#[derive(Debug, Drop)]
pub struct Breach {
    pub rule: u8,
    pub name: Text,
}

/// Declarations.
fn each_declaration<'a>(
    alloc: Global,
    setting: &Setting<'a, '_>,
    decls: &'a [Decl],
    worst: &mut Worst<'a>,
) -> Result<(), NoMemory>
    requires { length (flat_map known.names_of decls.now) < 2 ^ 64 }
    ensures { OnOk result (worst.new ≡ noted worst.old
        (flat_map (rules.judged setting.now.tables) (parts.declared 0 decls.now))) }
{
    let mut place = 0;
    for decl in decls {
        declaration(alloc, setting, place, decl, worst)?;
        place += 1 + values_of(decl).len();
    }
    Ok(())
}

/// The top state with all that is in it.
fn top_judged<'a>(
    alloc: Global,
    setting: &Setting<'a, '_>,
    spec: &'a Spec,
    worst: &mut Worst<'a>,
) -> Result<(), NoMemory>
    requires { setting.now.tables ≡ rules.name_tables spec.now }
    ensures { OnOk result (worst.new ≡ noted worst.old
        (flat_map (rules.judged setting.now.tables) (walk.state_parts (parts.top_of spec.now)))) }
{
    let top = State {
        name: &spec.top,
        repeated: false,
        size: None,
        array: None,
        in_one: false,
        body: &spec.body,
    };
    judged(alloc, setting, &top, &spec.body, setting.top(), worst)
}

/// A tables specification.
fn spec_judged<'a>(
    alloc: Global,
    setting: &Setting<'a, '_>,
    spec: &'a Spec,
    worst: &mut Worst<'a>,
) -> Result<(), NoMemory>
    requires { setting.now.tables ≡ rules.name_tables spec.now }
    ensures { OnOk result (worst.new ≡ noted worst.old (rules.breaches spec.now)) }
{
    // The places of the global names fit, since the count of the names does.
    let _count = setting.tables().globals.count();
    each_declaration(alloc, setting, spec.decls.as_slice(), worst)?;
    top_judged(alloc, setting, spec, worst)
}

/// The breach that was found, with a name of its own.
fn found(alloc: Global, worst: &Worst<'_>) -> Result<Option<Breach>, NoMemory>
    ensures { IfOk result (λ breach. option_map breach_of breach ≡ worst.now) }
{
    match worst.found() {
        Some((rule, name)) => Ok(Some(Breach {
            rule,
            name: name.copy(alloc)?,
        })),
        None => Ok(None),
    }
}

/// The lowest broken rule of a specification, with the first name at which it is broken.
#[tactic(auto, using(crate::proofs::Noting::noted_lowest))]
pub fn lowest_breach<'a>(
    alloc: Global,
    tables: &NameTables<'a>,
    spec: &'a Spec,
) -> Result<Option<Breach>, NoMemory>
    requires { tables.now ≡ rules.name_tables spec.now }
    ensures { IfOk result (λ breach. option_map breach_of breach ≡ rules.broken_rule spec.now) }
{
    let setting = Setting::new(alloc, tables)?;
    let mut worst = Worst::new();
    spec_judged(alloc, &setting, spec, &mut worst)?;
    found(alloc, &worst)
}

/// Copies of breaches.
fn copies(alloc: Global, first: &[Option<(u8, &Text)>]) -> Result<Vec<Breach>, NoMemory> {
    let mut breaches = Vec::new(alloc);
    for breach in first {
        if let Some((rule, name)) = breach {
            breaches.push(Breach {
                rule: *rule,
                name: name.copy(alloc)?,
            })?;
        }
    }
    Ok(breaches)
}

/// The first breaches of all rules, by the tables of names.
fn first_by<'a>(
    alloc: Global,
    tables: &NameTables<'a>,
    spec: &'a Spec,
) -> Result<Vec<Breach>, NoMemory>
    requires { tables.now ≡ rules.name_tables spec.now }
{
    let setting = Setting::new(alloc, tables)?;
    let mut worst = Worst::new();
    spec_judged(alloc, &setting, spec, &mut worst)?;
    copies(alloc, worst.first())
}

/// The first breaches of all rules, at most 64, in the order in which the rules are judged. The only error is out of memory. Nothing is
/// claimed of which they are.
pub fn first_breaches(alloc: Global, spec: &Spec) -> Result<Vec<Breach>, NoMemory> {
    let tables = NameTables::new(alloc, spec)?;
    first_by(alloc, &tables, spec)
}
