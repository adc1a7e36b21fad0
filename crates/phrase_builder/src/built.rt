ghost use Rattle.std.specs.Prelude.{◌≡◌, IfOk};
ghost use Rattle.rsml_meaning.specs.Interfaces.{definitions};
ghost use Rattle.rsml_ground.specs.Grounded.{IsGrounded};
ghost use Rattle.rsml_ground.specs.Scoped.{PhrasesAreScoped};
ghost use Rattle.phrase_builder.specs.Sources.{all_defined_by};

use crate::definitions::definition;
use crate::lookup::Lookup;
use crate::sources::{Source, sources};
use rsml_ground::{Definition, Phrases, rules_scope_phrases};
use rsml_syntax::NoMemory;
use std::alloc::Global;

/// The phrases and the definitions of a specification.
#[derive(Drop)]
pub struct Built {
    pub phrases: Phrases,
    pub definitions: Vec<Definition>,
}

// The phrases and the definitions of these instances.
fn build_from(
    alloc: Global,
    lookup: &Lookup<'_, '_>,
    sources: &[Source<'_>],
) -> Result<Built, NoMemory>
    requires scoped { PhrasesAreScoped lookup.now }
    requires all { all_defined_by sources.now ≡ definitions lookup.now }
    ensures { IfOk result (λ b. IsGrounded (record { spec = lookup.now; phrases = b.phrases; definitions = b.definitions.items })) }
{
    let _ = lookup.spec();
    let mut phrases = Phrases::new(alloc);
    let mut definitions = Vec::new(alloc);
    for source in sources {
        let definition = definition(alloc, lookup, definitions.as_slice(), &mut phrases, source)?;
        definitions.push(definition)?;
    }
    let _ = phrases.len();
    Ok(Built {
        phrases,
        definitions,
    })
}

/// The phrases and the definitions of a checked specification. Equal phrases share a number.
pub fn build(alloc: Global, lookup: &Lookup<'_, '_>) -> Result<Built, NoMemory>
    ensures { IfOk result (λ b. IsGrounded (record { spec = lookup.now; phrases = b.phrases; definitions = b.definitions.items })) }
{
    let _ = lookup.spec();
    rules_scope_phrases();
    let sources = sources(alloc, lookup)?;
    build_from(alloc, lookup, sources.as_slice())
}
