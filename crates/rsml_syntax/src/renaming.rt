//! Renames what is a name in the first edition and a reserved word in the second.
ghost use Rattle.std.specs.Prelude.{◌≡◌, ℕ, List, IfOk, OnOk, IsTrue, if◌then◌else◌, length, map};
ghost use Rattle.std.specs.List.{list_any};
ghost use Rattle.rsml_syntax.specs.declared.edition.Edition.TheVariants as editions;
ghost use Rattle.rsml_syntax.specs.declared.token.Token.TheVariants as variants;
ghost use Rattle.rsml_syntax.specs.text.Lexing.{bare};
ghost use Rattle.rsml_syntax.specs.text.Names.{Name, same, is_in};
ghost use Rattle.rsml_syntax.specs.text.Tokens.{AreTokens, IsFreeName};
ghost use Rattle.rsml_syntax.specs.text.Renaming.{names_of, IsLeastFree, IsRenamed, rename};
ghost use Rattle.rsml_syntax.specs.text.Renaming as spec;

use crate::token::{Placed, Token, Word};
use indexmap::IndexSet;
use rsml_base::{NoMemory, Text, put, put_number};
use std::alloc::Global;

#[tactic(auto, unfolding(crate::specs::text::Words::spelling))]
fn is_previous(token: &Token) -> bool
    ensures { result ≡ spec.is_previous token.now }
{
    match token {
        Token::Name(name) => name.bytes() == Word::Previous.spelling(),
        _ => false,
    }
}

fn has_previous(tokens: &[Placed]) -> bool
    ensures { result ≡ spec.has_previous tokens.now }
{
    tokens.iter().any(|placed| is_previous(&placed.token))
}

fn copied(alloc: Global, token: &Token) -> Result<Token, NoMemory>
    ensures { IfOk result (λ t. t ≡ token.now) }
{
    Ok(match token {
        Token::Word(word) => Token::Word(*word),
        Token::Name(name) => Token::Name(name.copy(alloc)?),
        Token::Number(number) => Token::Number(*number),
        Token::Mark(mark) => Token::Mark(*mark),
    })
}

/// A copy of a token, with a name in place of `previous`.
fn renamed_token(alloc: Global, name: &[u8], token: &Token) -> Result<Token, NoMemory>
    ensures { IfOk result (λ t. t ≡ (if spec.is_previous token.now then variants.Name name.now else token.now)) }
{
    if is_previous(token) {
        Ok(Token::Name(Text::new(alloc, name)?))
    } else {
        copied(alloc, token)
    }
}

/// Copies of the tokens, with a name in place of each `previous`.
fn each_renamed(alloc: Global, name: &[u8], tokens: &[Placed]) -> Result<Vec<Placed>, NoMemory>
    ensures { IfOk result (λ v. v.items ≡ map (rename name.now) tokens.now) }
{
    let mut renamed = Vec::with_capacity(alloc, tokens.len())?;
    for placed in tokens {
        let token = renamed_token(alloc, name, &placed.token)?;
        renamed.push(Placed {
            token,
            at: placed.at,
        })?;
    }
    Ok(renamed)
}

/// The names of the tokens. About every second token of a text with many names is one.
fn names<'a>(alloc: Global, tokens: &'a [Placed]) -> Result<IndexSet<&'a [u8]>, NoMemory>
    ensures { IfOk result (λ set. (name : Name) →
        list_any (λ x. same name x.now) set.keys ≡ is_in name (names_of tokens.now)) }
{
    let mut names = IndexSet::with_capacity(alloc, tokens.len() / 2)?;
    for placed in tokens {
        if let Token::Name(name) = &placed.token {
            names.insert(name.bytes())?;
        }
    }
    Ok(names)
}

/// Writes a numbered name in place of what the buffer holds.
fn write_numbered_name(name: &mut Vec<u8>, number: u64) -> Result<(), NoMemory>
    ensures { OnOk result (name.new.items ≡ spec.numbered_name number) }
{
    name.clear();
    put(name, b"previous_")?;
    put_number(name, number)?;
    Ok(())
}

/// The first numbered name that no token is. There is one, since `previous` itself is among the names.
fn unused_name(alloc: Global, tokens: &[Placed]) -> Result<Vec<u8>, NoMemory>
    requires { IsTrue (spec.has_previous tokens.now) }
    ensures least { IfOk result (λ v. (k : ℕ) × IsLeastFree tokens.now k × (v.items ≡ spec.numbered_name k)) }
    ensures name { IfOk result (λ v. IsFreeName editions.Second v.items) }
{
    let names = names(alloc, tokens)?;
    let mut name = Vec::new(alloc);
    let mut number = 1;
    loop {
        write_numbered_name(&mut name, number)?;
        if !names.contains(name.as_slice()) {
            return Ok(name);
        }
        number += 1;
    }
}

/// The tokens of a text of the first edition as tokens of the second: the name `previous`, which the second edition
/// reserves, becomes the first of `previous_1`, `previous_2`, .. that is no name of the text.
pub fn renamed(alloc: Global, tokens: &[Placed]) -> Result<Vec<Placed>, NoMemory>
    requires { AreTokens editions.First (bare tokens.now) }
    ensures renamed { IfOk result (λ v. IsRenamed tokens.now v.items) }
    ensures tokens { IfOk result (λ v. AreTokens editions.Second (bare v.items)) }
    ensures length { IfOk result (λ v. length v.items ≡ length tokens.now) }
{
    if has_previous(tokens) {
        let name = unused_name(alloc, tokens)?;
        each_renamed(alloc, name.as_slice(), tokens)
    } else {
        // No token becomes another.
        each_renamed(alloc, Word::Previous.spelling(), tokens)
    }
}
