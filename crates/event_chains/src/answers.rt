//! What is found of the external events.
ghost use Rattle.std.specs.Prelude.{◌≡◌, ◌<◌, ◌++◌, IfOk, OnOk};
ghost use Rattle.std.specs.Option.{option_to_list};
ghost use Rattle.rsml_meaning.specs.Words.{Instance};
ghost use Rattle.ground_members.specs.Members.{IsEvent};
ghost use Rattle.event_chains.specs.Draws.{Draws};
ghost use Rattle.event_chains.specs.Found.{AreExternals, Shows};

use crate::external::External;
use event_graph::Chains;
use rsml_syntax::{Checked, NoMemory};
use std::alloc::Global;

/// The external events of a specification, in order, with what is found of each.
pub fn externals(
    alloc: Global,
    checked: &Checked,
    chains: &Chains,
) -> Result<Vec<External>, NoMemory>
    requires { Draws checked.now chains.now }
    ensures { IfOk result (λ rows. AreExternals checked.now rows.items) }
{
    let mut rows = Vec::new(alloc);
    for event in 0..chains.graph().count() {
        push_any(&mut rows, external(checked, chains, event))?;
    }
    Ok(rows)
}

// What is found of an event, if it is external.
fn external(checked: &Checked, chains: &Chains, event: u32) -> Option<External>
    requires draws { Draws checked.now chains.now }
    requires event { event < chains.now.count }
    ensures { (e : Instance) → IsEvent checked.now e event → Shows checked.now e result }
{
    let _ = checked.spec();
    if !chains.graph().is_start(event) {
        return None;
    }
    Some(External {
        event,
        length: chains.length(event),
        clash: chains.clash(event),
    })
}

// Puts a row at the end, if there is one.
fn push_any(rows: &mut Vec<External>, row: Option<External>) -> Result<(), NoMemory>
    ensures { OnOk result (rows.new.items ≡ rows.old.items ++ option_to_list row) }
{
    if let Some(row) = row {
        rows.push(row)?;
    }
    Ok(())
}
