ghost use Rattle.std.specs.Prelude.{◌≡◌, ◌<◌, ◌∷◌, [], All, IfOk, IfSome, flat_map, length, map};
ghost use Rattle.std.specs.List.{list_all, list_any};
ghost use Rattle.rsml_syntax.specs.declared.world.World.{World};
ghost use Rattle.rsml_meaning.specs.Instances.{states};
ghost use Rattle.rsml_meaning.specs.Worlds.{IsWorld};
ghost use Rattle.and_or_tables.specs.Ground.{known};
ghost use Rattle.rsml_ground.specs.Truths.{is_active, truths_in};
ghost use Rattle.rsml_ground.specs.Choices.{AreOfComponents, are_chosen};
ghost use Rattle.macros.specs.StatePhrases.{AreWays, IsStatePhrase, IsWay, some_chosen};

use crate::Macros;
use rsml_ground::{Choice, GroundPhrase, choices_around};
use rsml_syntax::NoMemory;
use state_tree::Tree;
use std::alloc::Global;

/// A phrase that is about states alone: it is true where the component of each choice of one of these lists has its child.
#[derive(Drop)]
pub struct StatePhrase {
    pub phrase: u32,
    pub ways: Vec<Vec<Choice>>,
}

/// The state of a number, where there is one.
fn there(tree: &Tree<'_>, node: u32) -> Option<u32>
    ensures is { IfSome result (λ found. found ≡ node) }
    ensures there { IfSome result (λ found. found < length (states tree.now)) }
{
    if node < tree.nodes() {
        Some(node)
    } else {
        None
    }
}

/// The state that a phrase says to be active. None for other phrases.
fn state_of(macros: &Macros<'_>, tree: &Tree<'_>, phrase: u32) -> Option<u32>
    requires tree { tree.now ≡ macros.now.spec }
    requires phrase { phrase < length macros.now.phrases }
    ensures there { IfSome result (λ node. node < length (states tree.now)) }
    ensures says { IfSome result (λ node. (w : World)
        → is_active macros.now.spec w node ≡ known (truths_in macros.now w) phrase) }
{
    let _ = macros.spec();
    match macros.phrase(phrase) {
        GroundPhrase::In(node) => there(tree, *node),
        _ => None,
    }
}

/// The choices with which the state of a phrase is active. None where it says no state to be active.
fn way(
    alloc: Global,
    macros: &Macros<'_>,
    tree: &Tree<'_>,
    phrase: u32,
) -> Result<Option<Vec<Choice>>, NoMemory>
    requires tree { tree.now ≡ macros.now.spec }
    requires phrase { phrase < length macros.now.phrases }
    ensures { IfOk result (λ found. IfSome found (λ choices. IsWay macros.now phrase choices.items)) }
{
    let _ = macros.spec();
    let Some(node) = state_of(macros, tree, phrase) else {
        return Ok(None);
    };
    let choices = choices_around(alloc, tree, node)?;
    Ok(Some(choices))
}

/// A way for each of these phrases. None where one of them says no state to be active.
fn each_way(
    alloc: Global,
    macros: &Macros<'_>,
    tree: &Tree<'_>,
    numbers: &[u32],
) -> Result<Option<Vec<Vec<Choice>>>, NoMemory>
    requires tree { tree.now ≡ macros.now.spec }
    requires numbers { All (λ k. k < length macros.now.phrases) numbers.now }
    ensures components { IfOk result (λ found. IfSome found (λ ways.
        All (AreOfComponents macros.now.spec) (map (λ c. c.items) ways.items))) }
    ensures some { IfOk result (λ found. IfSome found (λ ways. (w : World) → IsWorld macros.now.spec w
        → some_chosen w.choices (map (λ c. c.items) ways.items) ≡ list_any (known (truths_in macros.now w)) numbers.now)) }
    ensures every { IfOk result (λ found. IfSome found (λ ways. (w : World) → IsWorld macros.now.spec w
        → list_all (are_chosen w.choices) (map (λ c. c.items) ways.items) ≡ list_all (known (truths_in macros.now w)) numbers.now)) }
{
    let mut ways = Vec::with_capacity(alloc, numbers.len())?;
    for number in numbers {
        let Some(one) = way(alloc, macros, tree, *number)? else {
            return Ok(None);
        };
        ways.push(one)?;
    }
    Ok(Some(ways))
}

/// The choices of all these ways, as one way alone.
fn joined(alloc: Global, ways: &[Vec<Choice>]) -> Result<Vec<Vec<Choice>>, NoMemory>
    ensures { IfOk result (λ one. map (λ c. c.items) one.items ≡ flat_map (λ c. c.items) ways.now ∷ []) }
{
    let mut choices = Vec::new(alloc);
    for way in ways {
        choices.extend_from_slice(way.as_slice())?;
    }
    let mut one = Vec::with_capacity(alloc, 1)?;
    one.push(choices)?;
    Ok(one)
}

/// The one way in which each of these phrases is true. None where one of them says no state to be active.
fn way_to_every(
    alloc: Global,
    macros: &Macros<'_>,
    tree: &Tree<'_>,
    numbers: &[u32],
) -> Result<Option<Vec<Vec<Choice>>>, NoMemory>
    requires tree { tree.now ≡ macros.now.spec }
    requires numbers { All (λ k. k < length macros.now.phrases) numbers.now }
    ensures components { IfOk result (λ found. IfSome found (λ ways.
        All (AreOfComponents macros.now.spec) (map (λ c. c.items) ways.items))) }
    ensures right { IfOk result (λ found. IfSome found (λ ways. (w : World) → IsWorld macros.now.spec w
        → some_chosen w.choices (map (λ c. c.items) ways.items) ≡ list_all (known (truths_in macros.now w)) numbers.now)) }
{
    let Some(ways) = each_way(alloc, macros, tree, numbers)? else {
        return Ok(None);
    };
    let one = joined(alloc, ways.as_slice())?;
    Ok(Some(one))
}

/// The ways in which a phrase is true that is about states alone. None for another.
fn ways(
    alloc: Global,
    macros: &Macros<'_>,
    tree: &Tree<'_>,
    phrase: u32,
) -> Result<Option<Vec<Vec<Choice>>>, NoMemory>
    requires tree { tree.now ≡ macros.now.spec }
    requires phrase { phrase < length macros.now.phrases }
    ensures { IfOk result (λ found. IfSome found (λ ways. AreWays macros.now phrase (map (λ c. c.items) ways.items))) }
{
    let _ = macros.spec();
    match macros.phrase(phrase) {
        GroundPhrase::In(_) => each_way(alloc, macros, tree, &[phrase]),
        GroundPhrase::Any(numbers) => each_way(alloc, macros, tree, numbers.as_slice()),
        GroundPhrase::Every(numbers) => way_to_every(alloc, macros, tree, numbers.as_slice()),
        _ => Ok(None),
    }
}

/// A phrase that is about states alone, with its ways. None where it is another phrase.
pub fn state_phrase(
    alloc: Global,
    macros: &Macros<'_>,
    tree: &Tree<'_>,
    phrase: u32,
) -> Result<Option<StatePhrase>, NoMemory>
    requires tree { tree.now ≡ macros.now.spec }
    requires phrase { phrase < length macros.now.phrases }
    ensures { IfOk result (λ found. IfSome found (IsStatePhrase macros.now)) }
{
    let Some(ways) = ways(alloc, macros, tree, phrase)? else {
        return Ok(None);
    };
    Ok(Some(StatePhrase { phrase, ways }))
}
