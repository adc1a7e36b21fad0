ghost use Rattle.std.specs.Prelude.{IfOk, Some, length};
ghost use Rattle.rsml_syntax.specs.rules.Globals.{many, up_to};
ghost use Rattle.rsml_meaning.specs.Cells.{cells};
ghost use Rattle.rsml_meaning.specs.Instances.{globals_of};
ghost use Rattle.rsml_meaning.specs.Truth.{within, quantified};
ghost use Rattle.rsml_ground.specs.Rests.{Rest};
ghost use Rattle.rsml_ground.specs.StandsFor.{SimpleIs, NumberIs, NumbersAre, PhraseIs};
ghost use Rattle.rsml_ground.specs.Scoped.{SimpleIsScoped, QuantifiedIsScoped, PhraseIsScoped};
ghost use Rattle.phrase_builder.specs.Grown.{Grew, SimpleFits};

use crate::here::Here;
use crate::site::Site;
use crate::sums::{constant, ground_sum};
use rsml_ground::{GroundPhrase, Phrases};
use rsml_syntax::{Amount, List, NoMemory, Phrase, Simple, Text};
use std::alloc::Global;

// What a phrase without a quantifier stands for.
fn ground_simple(
    alloc: Global,
    site: &Site<'_, '_, '_>,
    here: &Here<'_>,
    simple: &Simple,
) -> Result<GroundPhrase, NoMemory>
    requires { SimpleIsScoped site.now.lookup.now (length site.now.definitions.now) here.now simple.now }
    ensures is { IfOk result (λ p. SimpleIs site.now.lookup.now here.now simple.now p) }
    ensures fits { IfOk result (λ p. SimpleFits (length (cells site.now.lookup.now)) (length site.now.definitions.now) p) }
{
    match simple {
        Simple::In(path) => {
            let node = site.lookup.node(alloc, here, path.as_slice())?;
            Ok(GroundPhrase::In(node))
        }
        Simple::Macro(mention) => {
            let number = site.lookup.definition(here, mention);
            Ok(GroundPhrase::Macro(number))
        }
        Simple::Compare {
            left,
            relation,
            right,
        } => {
            let left = ground_sum(alloc, site.lookup, here, left)?;
            let right = ground_sum(alloc, site.lookup, here, right)?;
            Ok(GroundPhrase::Compare {
                left,
                relation: *relation,
                right,
            })
        }
        Simple::Function {
            function,
            relation,
            right,
        } => {
            let number = site.lookup.definition(here, function);
            let relation = *relation;
            let right = ground_sum(alloc, site.lookup, here, right)?;
            Ok(GroundPhrase::Function {
                function: number,
                relation,
                constant: constant(&right),
            })
        }
    }
}

// The number of a phrase without a quantifier.
#[tactic(auto, using(crate::proofs::Growing::same_grew))]
fn simple_number(
    alloc: Global,
    site: &Site<'_, '_, '_>,
    phrases: &mut Phrases,
    here: &Here<'_>,
    simple: &Simple,
) -> Result<u32, NoMemory>
    requires rest { Rest (length (cells site.now.lookup.now)) site.now.definitions.now phrases.old }
    requires scoped { SimpleIsScoped site.now.lookup.now (length site.now.definitions.now) here.now simple.now }
    ensures grew { Grew (length (cells site.now.lookup.now)) site.now.definitions.now phrases.old phrases.new }
    ensures is { IfOk result (λ k. NumberIs phrases.new site.now.lookup.now here.now simple.now k) }
{
    let simple = ground_simple(alloc, site, here, simple)?;
    let number = phrases.add(simple)?;
    Ok(number)
}

// The numbers of a phrase for the values of a variable, 1 to the bound.
fn numbers(
    alloc: Global,
    site: &Site<'_, '_, '_>,
    phrases: &mut Phrases,
    variable: &Text,
    bound: &Amount,
    body: &Simple,
) -> Result<List<u32>, NoMemory>
    requires rest { Rest (length (cells site.now.lookup.now)) site.now.definitions.now phrases.old }
    requires scoped { QuantifiedIsScoped site.now.lookup.now (length site.now.definitions.now) (quantified (within site.now.this) variable.now) bound.now body.now }
    ensures grew { Grew (length (cells site.now.lookup.now)) site.now.definitions.now phrases.old phrases.new }
    ensures are { IfOk result (λ ks. NumbersAre phrases.new site.now.lookup.now (quantified (within site.now.this) variable.now) body.now (up_to (many (globals_of site.now.lookup.now) (Some bound.now))) ks) }
{
    let count = site.lookup.many(Some(bound)) as u8;
    let mut found = List::new(alloc);
    for before in 0..count {
        let here = Here::quantified(site.this, variable, before + 1);
        let number = simple_number(alloc, site, phrases, &here, body)?;
        found.push(number)?;
    }
    Ok(found)
}

/// The number of a phrase. It is added where it has none yet.
pub fn phrase_number(
    alloc: Global,
    site: &Site<'_, '_, '_>,
    phrases: &mut Phrases,
    phrase: &Phrase,
) -> Result<u32, NoMemory>
    requires rest { Rest (length (cells site.now.lookup.now)) site.now.definitions.now phrases.old }
    requires scoped { PhraseIsScoped site.now.lookup.now (length site.now.definitions.now) (within site.now.this) phrase.now }
    ensures grew { Grew (length (cells site.now.lookup.now)) site.now.definitions.now phrases.old phrases.new }
    ensures is { IfOk result (λ k. PhraseIs phrases.new site.now.lookup.now (within site.now.this) phrase.now k) }
{
    match phrase {
        Phrase::Plain(body) => {
            let here = Here::within(site.this);
            let number = simple_number(alloc, site, phrases, &here, body)?;
            Ok(number)
        }
        Phrase::Any {
            variable,
            bound,
            body,
        } => {
            let found = numbers(alloc, site, phrases, variable, bound, body)?;
            let number = phrases.add(GroundPhrase::Any(found))?;
            Ok(number)
        }
        Phrase::Every {
            variable,
            bound,
            body,
        } => {
            let found = numbers(alloc, site, phrases, variable, bound, body)?;
            let number = phrases.add(GroundPhrase::Every(found))?;
            Ok(number)
        }
    }
}
