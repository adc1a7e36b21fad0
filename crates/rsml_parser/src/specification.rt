ghost use Rattle.std.specs.Prelude.{◌≡◌, ℕ, ◌≤◌, length, IfOk};
ghost use Rattle.rsml_parser.specs.Answers.{Answers, answer, token_place, room};
ghost use Rattle.rsml_parser.specs.Parsers as parsers;
ghost use Rattle.rsml_parser.specs.Parsers.{Gives};
ghost use Rattle.rsml_parser.specs.States as spec;
ghost use Rattle.rsml_parser.specs.declared.specification.TheConstants.{MOST_TOKENS};
ghost use Rattle.rsml_syntax.specs.text.Lexing.{bare};
ghost use Rattle.rsml_syntax.specs.grammar.Places.{IsTokensOf, IsSyntaxFault, IsDepthPlace};
ghost use Rattle.rsml_syntax.specs.text.Tokens.{AreTokens};
ghost use Rattle.rsml_syntax.specs.declared.edition.Edition.TheVariants as editions;
ghost use Rattle.rsml_syntax.specs.declared.syntax.Spec.{Spec as Tree};

use crate::declarations::declaration;
use crate::error::ParseError;
use crate::list::{Item, Listed, many};
use crate::reader::{Fault, Reader};
use crate::states::body;
use rsml_syntax::{Decl, Mark, Placed, Spec, Word};
use std::alloc::Global;

/// How many tokens there may be.
pub const MOST_TOKENS: usize = 1_048_576;

/// How many states may be nested in the top state.
const ROOM: usize = 15;

impl Item for Decl {
    ghost use Rattle.rsml_parser.specs.Declarations.{declaration};

    ghost parser = { declaration };

    fn read(alloc: Global, reader: &mut Reader<'_>) -> Result<Decl, Fault> {
        declaration(alloc, reader)
    }
}

impl Listed for Decl {
    ghost begins = { spec.opens_declaration };

    fn begins(reader: &Reader<'_>) -> bool {
        reader.left() != 0 && !reader.sees_word(Word::State)
    }
}

fn specification(alloc: Global, reader: &mut Reader<'_>) -> Result<Spec, Fault>
    ensures { Gives (spec.specification room reader.old) result reader.new }
{
    reader.word(Word::Specification)?;
    let name = reader.name(alloc)?;
    reader.mark(Mark::Semicolon)?;
    let decls = many(alloc, reader)?;
    reader.word(Word::State)?;
    let top = reader.name(alloc)?;
    let body = body(alloc, reader, ROOM)?;
    Ok(Spec {
        name,
        decls,
        top,
        body,
    })
}

/// A specification that is all of the tokens.
#[tactic(auto, unfolding(crate::specs::Parsers::and_then, crate::specs::States::whole))]
fn whole(alloc: Global, reader: &mut Reader<'_>) -> Result<Spec, Fault>
    ensures { Gives (spec.whole room reader.old) result reader.new }
{
    let spec = specification(alloc, reader)?;
    reader.end()?;
    Ok(spec)
}

/// The place of the first token that is left, counted from 1.
#[tactic(auto, using(crate::proofs::CodeLemmas::length_bare))]
pub fn place(tokens: &[Placed], reader: &Reader<'_>) -> u32
    requires few { length tokens.now ≤ MOST_TOKENS }
    requires left { length reader.now ≤ length tokens.now }
    ensures { result ≡ token_place (bare tokens.now) reader.now }
{
    (tokens.len() - reader.left() + 1) as u32
}

/// What reading all of the tokens gives, with the place of the fault.
#[tactic(auto, using(crate::proofs::CodeLemmas::length_bare, crate::proofs::CodeLemmas::left_within))]
pub fn read_tokens(alloc: Global, tokens: &[Placed]) -> Result<Spec, ParseError>
    requires { length tokens.now ≤ MOST_TOKENS }
    ensures { Answers result (answer (bare tokens.now) (spec.whole room (bare tokens.now))) }
{
    let mut reader = Reader::new(tokens);
    match whole(alloc, &mut reader) {
        Ok(spec) => Ok(spec),
        Err(Fault::Syntax) => Err(ParseError::Syntax {
            token: place(tokens, &reader),
        }),
        Err(Fault::TooDeep) => Err(ParseError::TooDeep {
            token: place(tokens, &reader),
        }),
        Err(Fault::NoMemory) => Err(ParseError::NoMemory),
    }
}

/// The specification that the tokens are, which nests at most 16 states. Else the first fault: where tokens stop
/// beginning a specification, unless a state opens inside 16 others before.
pub fn parse(alloc: Global, tokens: &[Placed]) -> Result<Spec, ParseError>
    requires few { length tokens.now ≤ MOST_TOKENS }
    requires fit { AreTokens editions.Second (bare tokens.now) }
    ensures ok { IfOk result (λ s. IsTokensOf (bare tokens.now) s) }
    ensures only { (s : Tree) → IsTokensOf (bare tokens.now) s → Answers result (Ok s) }

    // The fault of syntax is at this place, and is answered where there is one.
    ensures syntax { (place : ℕ) → result ≡ Err (ParseError.Syntax place) → IsSyntaxFault (bare tokens.now) place }
    ensures syntax_only { (place : ℕ) → IsSyntaxFault (bare tokens.now) place
        → Answers result (Err (ParseError.Syntax place)) }

    // So is the token that opens a state too many.
    ensures deep { (place : ℕ) → result ≡ Err (ParseError.TooDeep place) → IsDepthPlace (bare tokens.now) place }
    ensures deep_only { (place : ℕ) → IsDepthPlace (bare tokens.now) place
        → Answers result (Err (ParseError.TooDeep place)) }
{
    read_tokens(alloc, tokens)
}
