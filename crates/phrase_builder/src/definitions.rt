ghost use Rattle.std.specs.Prelude.{IfOk, length};
ghost use Rattle.rsml_meaning.specs.Cells.{cells};
ghost use Rattle.rsml_ground.specs.Rests.{Rest};
ghost use Rattle.rsml_ground.specs.StandsFor.{DefinitionIs};
ghost use Rattle.rsml_ground.specs.Scoped.{DefinitionIsScoped};
ghost use Rattle.phrase_builder.specs.Grown.{Grew};
ghost use Rattle.phrase_builder.specs.Sources.{defined_by};

use crate::lookup::Lookup;
use crate::site::Site;
use crate::sources::{Content, Source};
use crate::tables::{ground_cases, ground_table};
use rsml_ground::{Definition, Phrases};
use rsml_syntax::NoMemory;
use std::alloc::Global;

/// The definition of an instance of a macro or of a function.
#[tactic(auto, using(crate::proofs::Cases::cases_are))]
pub fn definition(
    alloc: Global,
    lookup: &Lookup<'_, '_>,
    definitions: &[Definition],
    phrases: &mut Phrases,
    source: &Source<'_>,
) -> Result<Definition, NoMemory>
    requires rest { Rest (length (cells lookup.now)) definitions.now phrases.old }
    requires scoped { DefinitionIsScoped lookup.now (length definitions.now) (defined_by source.now) }
    ensures grew { Grew (length (cells lookup.now)) definitions.now phrases.old phrases.new }
    ensures is { IfOk result (λ x. DefinitionIs phrases.new lookup.now (defined_by source.now) x) }
{
    let site = Site {
        lookup,
        definitions,
        this: source.index,
    };
    match source.content {
        Content::Table(rows) => {
            let table = ground_table(alloc, &site, phrases, rows)?;
            Ok(Definition::Macro(table))
        }
        Content::Cases(cases) => {
            let cases = ground_cases(alloc, &site, phrases, cases)?;
            Ok(Definition::Function(cases))
        }
    }
}
