ghost use Rattle.std.specs.Prelude.{◌≡◌};
ghost use Rattle.std.specs.Option.{option_copied};
ghost use Rattle.rsml_syntax.specs.rules.Globals as globals;
ghost use Rattle.rsml_syntax.specs.grammar.Written as written;

use rsml_syntax::{Amount, Answer, Decl, Guard, Phrase, Row, Signed, Simple, Text, Value};

/// The number that is written with its sign.
pub fn number_of(signed: &Signed) -> i64
    ensures { result ≡ globals.signed signed.now }
{
    let digits = i64::from(signed.digits);
    if signed.minus { -digits } else { digits }
}

/// The name that a declaration declares first.
pub fn name_of(decl: &Decl) -> &Text
    ensures { result.now ≡ globals.name_of decl.now }
{
    match decl {
        Decl::Enumeration { name, .. } => name,
        Decl::Range { name, .. } => name,
        Decl::Constant { name, .. } => name,
        Decl::Input { name, .. } => name,
        Decl::Event { name, .. } => name,
        Decl::Macro { name, .. } => name,
        Decl::Function { name, .. } => name,
        Decl::Receive { name, .. } => name,
        Decl::Send { name, .. } => name,
    }
}

/// The values of an enumeration.
pub fn values_of(decl: &Decl) -> &[Text]
    ensures { result.now ≡ globals.values_of decl.now }
{
    match decl {
        Decl::Enumeration { values, .. } => values.as_slice(),
        _ => &[],
    }
}

/// The size that a name was declared with.
pub fn size_of(decl: &Decl) -> Option<&Amount>
    ensures { option_copied result ≡ globals.size_of decl.now }
{
    match decl {
        Decl::Input { size, .. } => size.as_ref(),
        Decl::Event { size, .. } => size.as_ref(),
        Decl::Macro { size, .. } => size.as_ref(),
        Decl::Function { size, .. } => size.as_ref(),
        Decl::Receive { size, .. } => size.as_ref(),
        Decl::Send { size, .. } => size.as_ref(),
        _ => None,
    }
}

/// The rows of a guard's table.
pub fn rows_of(guard: &Guard) -> &[Row]
    ensures { result.now ≡ written.rows_of guard.now }
{
    match guard {
        Guard::Always => &[],
        Guard::Table(rows) => rows.as_slice(),
    }
}

/// What a phrase says, its quantifier taken off.
pub fn simple_of(phrase: &Phrase) -> &Simple
    ensures { result.now ≡ written.simple_of phrase.now }
{
    match phrase {
        Phrase::Plain(body) => body,
        Phrase::Any { body, .. } => body,
        Phrase::Every { body, .. } => body,
    }
}

/// The values that an answer gives.
pub fn answered(answer: &Answer) -> &[Value]
    ensures { result.now ≡ written.values_in answer.now }
{
    match answer {
        Answer::Quiet => &[],
        Answer::Values(values) => values.as_slice(),
    }
}
