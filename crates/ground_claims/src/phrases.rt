ghost use Rattle.std.specs.Prelude.{IfOk, IsTrue, Some};
ghost use Rattle.rsml_syntax.specs.rules.Globals.{many, up_to};
ghost use Rattle.rsml_meaning.specs.Instances.{globals_of};
ghost use Rattle.rsml_meaning.specs.Truth.{within, quantified};
ghost use Rattle.rsml_ground.specs.Scoped.{SimpleIsScoped, QuantifiedIsScoped};
ghost use Rattle.claim_syntax.specs.OfStates.{asks_a_state};
ghost use Rattle.ground_claims.specs.StandsFor.{StateIs, StatesAre, PhraseIs};
ghost use Rattle.ground_claims.specs.Scoped.{AskedStatesAreScoped};

use crate::phrase::StatePhrase;
use phrase_builder::{Here, Lookup};
use rsml_syntax::{Amount, List, NoMemory, Phrase, Simple, Text};
use std::alloc::Global;

/// The state that a phrase without a quantifier asks for.
fn ground_state(
    alloc: Global,
    lookup: &Lookup<'_, '_>,
    here: &Here<'_>,
    simple: &Simple,
) -> Result<u32, NoMemory>
    requires asks { IsTrue (asks_a_state simple.now) }
    requires scoped { SimpleIsScoped lookup.now 0 here.now simple.now }
    ensures { IfOk result (λ node. StateIs lookup.now here.now simple.now node) }
{
    match simple {
        Simple::In(path) => {
            let node = lookup.node(alloc, here, path.as_slice())?;
            Ok(node)
        }
        _ => unreachable!(),
    }
}

/// The states that it asks for at the values of a variable, 1 to the bound.
fn ground_states(
    alloc: Global,
    lookup: &Lookup<'_, '_>,
    variable: &Text,
    bound: &Amount,
    simple: &Simple,
) -> Result<List<u32>, NoMemory>
    requires asks { IsTrue (asks_a_state simple.now) }
    requires scoped { QuantifiedIsScoped lookup.now 0 (quantified (within 0) variable.now) bound.now simple.now }
    ensures { IfOk result (λ nodes. StatesAre lookup.now (quantified (within 0) variable.now) simple.now (up_to (many (globals_of lookup.now) (Some bound.now))) nodes) }
{
    let count = lookup.many(Some(bound)) as u8;
    let mut nodes = List::new(alloc);
    for before in 0..count {
        let here = Here::quantified(0, variable, before + 1);
        let node = ground_state(alloc, lookup, &here, simple)?;
        nodes.push(node)?;
    }
    Ok(nodes)
}

/// A phrase over the numbers of the states that it asks for.
pub fn ground_phrase(
    alloc: Global,
    lookup: &Lookup<'_, '_>,
    phrase: &Phrase,
) -> Result<StatePhrase, NoMemory>
    requires { AskedStatesAreScoped lookup.now phrase.now }
    ensures { IfOk result (λ x. PhraseIs lookup.now phrase.now x) }
{
    match phrase {
        Phrase::Plain(simple) => {
            let here = Here::within(0);
            let node = ground_state(alloc, lookup, &here, simple)?;
            let mut nodes = List::new(alloc);
            nodes.push(node)?;
            Ok(StatePhrase::Every(nodes))
        }
        Phrase::Any {
            variable,
            bound,
            body,
        } => {
            let nodes = ground_states(alloc, lookup, variable, bound, body)?;
            Ok(StatePhrase::Any(nodes))
        }
        Phrase::Every {
            variable,
            bound,
            body,
        } => {
            let nodes = ground_states(alloc, lookup, variable, bound, body)?;
            Ok(StatePhrase::Every(nodes))
        }
    }
}
