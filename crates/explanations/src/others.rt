use rsml_base::{NoMemory, Text};
use rsml_rules::{Breach, first_breaches};
use rsml_syntax::Spec;
use rule_faults::tell_broken;
use source_notes::Notes;

/// How many other breaches are told.
const MOST: usize = 20;

/// By what breaches go one after another: where they stand in the text, and then by their rules, which count from 1.
fn order_of(rule: u8, name: &Text) -> u64 {
    u64::from(name.at()) * 256 + u64::from(rule)
}

/// Of the breaches behind one of this order the first.
fn first_behind(breaches: &[Breach], order: u64) -> Option<&Breach> {
    let mut least = u64::MAX;
    let mut first = None;
    for breach in breaches {
        let next = order_of(breach.rule, &breach.name);
        if order < next && next < least {
            least = next;
            first = Some(breach);
        }
    }
    first
}

/// Tells these breaches in the order of the text, besides the one of an order that is told; and that there may be more, where not all are.
fn tell_breaches(
    notes: &mut Notes<'_>,
    spec: &Spec,
    breaches: &[Breach],
    told: u64,
) -> Result<(), NoMemory> {
    let mut order: u64 = 0;
    let mut others: usize = 0;
    for _ in 0..breaches.len() {
        let Some(breach) = first_behind(breaches, order) else {
            return Ok(());
        };
        if others == MOST {
            notes.say("more may be wrong than this: mend what is told first");
            return Ok(());
        }
        order = order_of(breach.rule, &breach.name);
        let count = notes.count();
        if order != told {
            tell_broken(notes, spec, breach.rule, &breach.name)?;
        }
        // What only follows from another breach is not told.
        if notes.count() > count {
            others = others.saturating_add(1);
        }
    }
    Ok(())
}

/// Tells the breaches of a specification besides the one of this rule at this name.
pub fn tell_others(
    notes: &mut Notes<'_>,
    spec: &Spec,
    rule: u8,
    name: &Text,
) -> Result<(), NoMemory> {
    let breaches = first_breaches(notes.alloc(), spec)?;
    tell_breaches(notes, spec, breaches.as_slice(), order_of(rule, name))
}
