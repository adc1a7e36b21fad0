ghost use Rattle.std.specs.Prelude.{◌≡◌};
ghost use Rattle.std.specs.Option.{option_copied};
ghost use Rattle.rsml_meaning.specs.EventLines.{before_close, in_brackets};

/// What stands before `]` at the end.
#[tactic(auto, using(crate::proofs::BracketLemmas::no_text, crate::proofs::BracketLemmas::closed, crate::proofs::BracketLemmas::unclosed))]
fn before_close(text: &[u8]) -> Option<&[u8]>
    ensures { option_copied result ≡ before_close text.now }
{
    let (last, front) = text.split_last()?;
    if *last == b']' { Some(front) } else { None }
}

/// What stands between `[` and `]`.
#[tactic(auto, using(crate::proofs::BracketLemmas::no_brackets, crate::proofs::BracketLemmas::unbracketed, crate::proofs::BracketLemmas::bracketed))]
pub fn in_brackets(text: &[u8]) -> Option<&[u8]>
    ensures { option_copied result ≡ in_brackets text.now }
{
    let (first, rest) = text.split_first()?;
    if *first == b'[' {
        before_close(rest)
    } else {
        None
    }
}
