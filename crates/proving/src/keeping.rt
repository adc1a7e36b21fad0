//! Claims that can be looked at beside a specification.
ghost use Rattle.std.specs.Prelude.{◌≡◌, ◌≤◌, List, ℕ, IfOk, length};
ghost use Rattle.claim_syntax.specs.Grammar.{AreClaimsOf, AreWellFormed};
ghost use Rattle.claim_syntax.specs.Joined as spec;
ghost use Rattle.claim_syntax.specs.declared.claim.Claim.{Claim as Written};
ghost use Rattle.judging.specs.Texts.{IsTextOf, greatest_text};
ghost use Rattle.rsml_lexer.specs.declared.lexing.TheConstants.{GREATEST_TEXT};
ghost use Rattle.rsml_syntax.specs.declared.edition.Edition.TheVariants as editions;
ghost use Rattle.rsml_syntax.specs.declared.syntax.Spec.{Spec as Specification};
ghost use Rattle.rsml_syntax.specs.grammar.WellFormed.{WellFormed};
ghost use Rattle.rsml_syntax.specs.text.Lexing.{Lexes, bare};
ghost use Rattle.rsml_syntax.specs.text.Tokens.{AreTokens};
ghost use Rattle.answering.specs.declared.status.Status.TheVariants as status;
ghost use Rattle.proving.specs.ClaimTexts.{AreOfText};
ghost use Rattle.proving.specs.ProveText as texts;
ghost use Rattle.proving.specs.Steps.{AreJudged, TellsBroken, TellsOther};

use answering::Status;
use claim_syntax::{Claim, first_other, joined};
use judging::{ReadText, lexical_fault, parse_fault, read_text, rule_fault};
use rsml_base::put;
use rsml_lexer::{GREATEST_TEXT, lex};
use rsml_parser::{
    ClaimsError, ParseError, at_most_one_specification, claims_are_unambiguous,
    joined_is_well_formed, parse_claims,
};
use rsml_rules::check_rules;
use rsml_syntax::{NoMemory, Placed, Spec};
use std::alloc::Global;

/// What a text of claims is beside a specification.
#[derive(Drop)]
pub(crate) enum KeptClaims {
    /// The line that tells why the claims cannot be looked at, and the status that goes with it.
    Unfit { status: Status, line: Vec<u8> },
    /// The claims ask for states alone, and with them the specification keeps the rules and the limits.
    Kept(Vec<Claim>),
}

/// `fault C1`, and the name of a claim that asks for more than states.
#[tactic(auto, using(std::proofs::lemmas::List::append_assoc))]
fn other_line(alloc: Global, claim: &Claim) -> Result<Vec<u8>, NoMemory>
    ensures { IfOk result (λ line. line.items ≡ texts.other_line claim.now) }
{
    let mut line = Vec::from_slice(alloc, b"fault C1 ")?;
    put(&mut line, claim.name.bytes())?;
    put(&mut line, b"\n")?;
    Ok(line)
}

/// The line on the first claim that asks for more than states.
fn other_fault(alloc: Global, claims: &[Claim]) -> Result<Option<Vec<u8>>, NoMemory>
    ensures { IfOk result (TellsOther claims.now) }
{
    match first_other(claims) {
        Some(claim) => Ok(Some(other_line(alloc, claim)?)),
        None => Ok(None),
    }
}

/// The line on the rule or limit that a specification breaks with claims.
fn broken_fault(
    alloc: Global,
    specification: Spec,
    claims: Vec<Claim>,
) -> Result<Option<Vec<u8>>, NoMemory>
    requires { WellFormed (spec.joined specification claims.items) }
    ensures { IfOk result (TellsBroken (spec.joined specification claims.items)) }
{
    let whole = joined(specification, claims)?;
    match check_rules(alloc, whole) {
        Ok(_) => Ok(None),
        Err(error) => Ok(Some(rule_fault(alloc, error)?)),
    }
}

/// The same on the specification that a text reads as: it is read once more, since it is joined by value.
fn joined_fault(alloc: Global, text: &[u8], claims: Vec<Claim>) -> Result<Option<Vec<u8>>, NoMemory>
    requires short { length text.now ≤ GREATEST_TEXT }
    requires claims { AreWellFormed claims.items }
    ensures { (s : Specification) → IsTextOf text.now s → IfOk result (TellsBroken (spec.joined s claims.items)) }
{
    at_most_one_specification();
    joined_is_well_formed();
    match read_text(alloc, text)? {
        ReadText::Specification(specification) => broken_fault(alloc, specification, claims),
        // The text reads as a specification.
        ReadText::Fault(_) => Err(NoMemory),
    }
}

/// The claims that tokens are. They are read once more, since they are joined by value.
fn claims_again(alloc: Global, tokens: &[Placed]) -> Result<Vec<Claim>, NoMemory>
    requires few { length tokens.now ≤ GREATEST_TEXT }
    requires fit { AreTokens editions.Second (bare tokens.now) }
    ensures { (cs : List Written) → AreClaimsOf (bare tokens.now) cs → IfOk result (λ again. again.items ≡ cs) }
{
    claims_are_unambiguous();
    match parse_claims(alloc, tokens) {
        Ok(claims) => Ok(claims),
        // The tokens are those of claims.
        Err(_) => Err(NoMemory),
    }
}

/// A line that tells a fault of claims.
fn unfit(line: Vec<u8>) -> KeptClaims
    ensures { result ≡ KeptClaims.Unfit status.SpecFault line }
{
    KeptClaims::Unfit {
        status: Status::SpecFault,
        line,
    }
}

/// What the claims that tokens are come to beside the specification that a text reads as.
fn claims_kept(
    alloc: Global,
    text: &[u8],
    tokens: &[Placed],
    claims: Vec<Claim>,
) -> Result<KeptClaims, NoMemory>
    requires short { length text.now ≤ GREATEST_TEXT }
    requires few { length tokens.now ≤ GREATEST_TEXT }
    requires fit { AreTokens editions.Second (bare tokens.now) }
    requires claims { AreClaimsOf (bare tokens.now) claims.items }
    ensures { (s : Specification) (bytes : List ℕ) → IsTextOf text.now s → AreOfText bytes claims.items → IfOk result (AreJudged s bytes) }
{
    if let Some(line) = other_fault(alloc, claims.as_slice())? {
        return Ok(unfit(line));
    }
    if let Some(line) = joined_fault(alloc, text, claims)? {
        return Ok(unfit(line));
    }
    let claims = claims_again(alloc, tokens)?;
    Ok(KeptClaims::Kept(claims))
}

/// What tokens come to beside the specification that a text reads as.
fn tokens_kept(alloc: Global, text: &[u8], tokens: &[Placed]) -> Result<KeptClaims, NoMemory>
    requires short { length text.now ≤ GREATEST_TEXT }
    requires few { length tokens.now ≤ GREATEST_TEXT }
    requires fit { AreTokens editions.Second (bare tokens.now) }
    ensures { (s : Specification) (bytes : List ℕ) → IsTextOf text.now s → length bytes ≤ greatest_text → Lexes editions.Second bytes tokens.now
        → IfOk result (AreJudged s bytes) }
{
    match parse_claims(alloc, tokens) {
        Ok(claims) => claims_kept(alloc, text, tokens, claims),
        Err(ClaimsError::Syntax { token }) => {
            let line = parse_fault(alloc, ParseError::Syntax { token })?;
            Ok(unfit(line))
        }
        Err(ClaimsError::NoMemory) => Err(NoMemory),
    }
}

/// What a text of claims is beside the specification that a text reads as.
pub(crate) fn kept_claims(alloc: Global, text: &[u8], claims: &[u8]) -> Result<KeptClaims, NoMemory>
    requires { length text.now ≤ GREATEST_TEXT }
    ensures { (s : Specification) → IsTextOf text.now s → IfOk result (AreJudged s claims.now) }
{
    if claims.len() > GREATEST_TEXT {
        let line = Vec::from_slice(alloc, b"fault long\n")?;
        return Ok(KeptClaims::Unfit {
            status: Status::TooLong,
            line,
        });
    }
    match lex(alloc, claims) {
        Ok(tokens) => tokens_kept(alloc, text, tokens.as_slice()),
        Err(error) => {
            let line = lexical_fault(alloc, error)?;
            Ok(unfit(line))
        }
    }
}
