ghost use Rattle.std.specs.Prelude.{◌≡◌, ℕ, ◌≤◌, List as Items, length, IfOk};
ghost use Rattle.rsml_parser.specs.Claims as spec;
ghost use Rattle.rsml_parser.specs.Claims.{GivesItems, AnswersClaims, claims_answer};
ghost use Rattle.rsml_parser.specs.Parsers.{Gives};
ghost use Rattle.rsml_parser.specs.declared.specification.TheConstants.{MOST_TOKENS};
ghost use Rattle.claim_syntax.specs.Grammar.{AreClaimsOf};
ghost use Rattle.claim_syntax.specs.Places.{IsClaimsFault};
ghost use Rattle.claim_syntax.specs.declared.claim.Claim.{Claim as Written};
ghost use Rattle.rsml_syntax.specs.text.Lexing.{bare};
ghost use Rattle.rsml_syntax.specs.text.Tokens.{AreTokens};
ghost use Rattle.rsml_syntax.specs.declared.edition.Edition.TheVariants as editions;

use crate::reader::{Fault, Reader};
use crate::specification::place;
use crate::tables::table;
use claim_syntax::Claim;
use rsml_syntax::{Placed, Word};
use std::alloc::Global;
use thiserror::Error;

/// Why tokens are no claims. They are counted from 1; a place one past the last token is the end.
#[derive(Clone, Copy, Debug, PartialEq, Eq, Error)]
pub enum ClaimsError {
    /// No claims go on with this token, or none end here.
    #[error("syntax fault at token {token}")]
    Syntax { token: u32 },
    #[error("out of memory")]
    NoMemory,
}

fn claim(alloc: Global, reader: &mut Reader<'_>) -> Result<Claim, Fault>
    ensures { Gives (spec.claim reader.old) result reader.new }
{
    reader.word(Word::Macro)?;
    let name = reader.name(alloc)?;
    let rows = table(alloc, reader)?;
    Ok(Claim { name, rows })
}

/// The claims that follow.
fn claims(alloc: Global, reader: &mut Reader<'_>) -> Result<Vec<Claim>, Fault>
    ensures { GivesItems (spec.claims reader.old) result reader.new }
{
    let mut found = Vec::new(alloc);
    for _turn in 0..reader.left() {
        if !reader.sees_word(Word::Macro) {
            break;
        }
        match claim(alloc, reader) {
            Ok(claim) => found.push(claim)?,
            Err(fault) => return Err(fault),
        }
    }
    Ok(found)
}

/// Claims that are all of the tokens.
#[tactic(auto, unfolding(crate::specs::Parsers::and_then, crate::specs::Claims::whole_claims))]
fn whole_claims(alloc: Global, reader: &mut Reader<'_>) -> Result<Vec<Claim>, Fault>
    ensures { GivesItems (spec.whole_claims reader.old) result reader.new }
{
    let claims = claims(alloc, reader)?;
    reader.end()?;
    Ok(claims)
}

/// What reading all of the tokens gives, with the place of the fault.
#[tactic(auto, using(crate::proofs::CodeLemmas::length_bare, crate::proofs::ClaimForms::claims_left_within))]
fn read_claims(alloc: Global, tokens: &[Placed]) -> Result<Vec<Claim>, ClaimsError>
    requires { length tokens.now ≤ MOST_TOKENS }
    ensures { AnswersClaims result (claims_answer (bare tokens.now) (spec.whole_claims (bare tokens.now))) }
{
    let mut reader = Reader::new(tokens);
    match whole_claims(alloc, &mut reader) {
        Ok(claims) => Ok(claims),
        // No state opens in a claim, so none opens too many.
        Err(Fault::Syntax | Fault::TooDeep) => Err(ClaimsError::Syntax {
            token: place(tokens, &reader),
        }),
        Err(Fault::NoMemory) => Err(ClaimsError::NoMemory),
    }
}

/// The claims that the tokens are. Else the place of the fault: where tokens stop beginning claims.
pub fn parse_claims(alloc: Global, tokens: &[Placed]) -> Result<Vec<Claim>, ClaimsError>
    requires few { length tokens.now ≤ MOST_TOKENS }
    requires fit { AreTokens editions.Second (bare tokens.now) }
    ensures ok { IfOk result (λ v. AreClaimsOf (bare tokens.now) v.items) }
    ensures only { (cs : Items Written) → AreClaimsOf (bare tokens.now) cs → AnswersClaims result (Ok cs) }

    // The fault is at this place, and is answered where there is one.
    ensures syntax { (place : ℕ) → result ≡ Err (ClaimsError.Syntax place)
        → IsClaimsFault (bare tokens.now) place }
    ensures syntax_only { (place : ℕ) → IsClaimsFault (bare tokens.now) place
        → AnswersClaims result (Err (ClaimsError.Syntax place)) }
{
    read_claims(alloc, tokens)
}
