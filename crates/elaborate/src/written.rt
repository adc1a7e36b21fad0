ghost use Rattle.std.specs.Prelude.{◌≡◌, IfOk};
ghost use Rattle.rsml_ground.specs.Grounded.{IsGrounded, IsShort};
ghost use Rattle.elaborate.specs.Machine.{StandsFor, of_parts};

use ground_members::{SharedSendCase, SharedTransition, ground_send_cases, ground_transitions};
use phrase_builder::{Built, Lookup, build};
use rsml_ground::{Definition, Phrases};
use rsml_syntax::{Checked, NoMemory};
use state_arrays::Names;
use state_tree::Tree;
use std::alloc::Global;

/// What a specification says over numbers.
#[derive(Drop)]
pub struct Written {
    pub phrases: Phrases,
    pub definitions: Vec<Definition>,
    pub transitions: Vec<SharedTransition>,
    pub send_cases: Vec<SharedSendCase>,
}

// The transitions and the cases of sends, over these phrases and definitions.
fn with_members(
    alloc: Global,
    lookup: &Lookup<'_, '_>,
    tree: &Tree<'_>,
    built: Built,
) -> Result<Written, NoMemory>
    requires before { IsGrounded (record { spec = lookup.now; phrases = built.phrases; definitions = built.definitions.items }) }
    requires tree { tree.now ≡ lookup.now }
    ensures { IfOk result (λ w. StandsFor (of_parts lookup.now w.phrases w.definitions.items w.transitions.items w.send_cases.items)) }
{
    let Built {
        mut phrases,
        definitions,
    } = built;
    let transitions = ground_transitions(
        alloc,
        lookup,
        tree,
        definitions.as_slice(),
        &mut phrases,
    )?;
    let send_cases = ground_send_cases(alloc, lookup, definitions.as_slice(), &mut phrases)?;
    Ok(Written {
        phrases,
        definitions,
        transitions,
        send_cases,
    })
}

/// What a checked specification says over numbers.
pub fn write(
    alloc: Global,
    checked: &Checked,
    names: &Names<'_>,
    tree: &Tree<'_>,
) -> Result<Written, NoMemory>
    requires names { names.now ≡ checked.now }
    requires tree { tree.now ≡ checked.now }
    requires short { IsShort checked.now }
    ensures { IfOk result (λ w. StandsFor (of_parts checked.now w.phrases w.definitions.items w.transitions.items w.send_cases.items)) }
{
    let lookup = Lookup::new(alloc, checked, names)?;
    let built = build(alloc, &lookup)?;
    with_members(alloc, &lookup, tree, built)
}
