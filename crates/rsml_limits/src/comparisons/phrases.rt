ghost use Rattle.std.specs.Prelude.{◌≡◌, OnOk, Some, flat_map};
ghost use Rattle.rsml_syntax.specs.limits.Comparisons as spec;
ghost use Rattle.rsml_syntax.specs.grammar.Written as written;
ghost use Rattle.rsml_limits.specs.comparisons.Searched.{searched};

use crate::comparisons::ask::{Ask, Left};
use crate::comparisons::indices::Indices;
use crate::comparisons::search::Search;
use crate::comparisons::sums::terms_of;
use rsml_names::{Guarded, rows_of};
use rsml_syntax::{Amount, Mention, NoMemory, Phrase, Relation, Row, Simple, Sum, Text};
use std::alloc::Global;

/// Goes through the comparisons of guards in the instance of this index.
pub fn each_guard<'a, G: Guarded>(
    alloc: Global,
    search: &mut Search<'_, 'a>,
    guarded: &'a [G],
    this: u64,
) -> Result<(), NoMemory>
    ensures { OnOk result (search.new
        ≡ searched search.old (λ g.
        spec.rows_comparisons g (flat_map (λ x. written.rows_of (G.guard_of x)) guarded.now) this)) }
{
    for each in guarded {
        rows(alloc, search, rows_of(each.guard()), this)?;
    }
    Ok(())
}

/// Goes through the comparisons of rows in the instance of this index.
pub fn rows<'a>(
    alloc: Global,
    search: &mut Search<'_, 'a>,
    rows: &'a [Row],
    this: u64,
) -> Result<(), NoMemory>
    ensures { OnOk result (search.new
        ≡ searched search.old (λ g. spec.rows_comparisons g rows.now this)) }
{
    for row in rows {
        phrase(alloc, search, &row.phrase, this)?;
    }
    Ok(())
}

// A phrase, which is read for each value of its quantifier's variable.
fn phrase<'a>(
    alloc: Global,
    search: &mut Search<'_, 'a>,
    phrase: &'a Phrase,
    this: u64,
) -> Result<(), NoMemory>
    ensures { OnOk result (search.new
        ≡ searched search.old (λ g. spec.phrase_comparisons g this phrase.now)) }
{
    match phrase {
        Phrase::Plain(body) => simple(alloc, search, &Indices::plain(this), body),
        Phrase::Any {
            variable,
            bound,
            body,
        }
        | Phrase::Every {
            variable,
            bound,
            body,
        } => each_value(alloc, search, variable, bound, body, this),
    }
}

// What a quantifier stands before, for each value of its variable.
fn each_value<'a>(
    alloc: Global,
    search: &mut Search<'_, 'a>,
    variable: &'a Text,
    bound: &Amount,
    body: &'a Simple,
    this: u64,
) -> Result<(), NoMemory>
    ensures { OnOk result (search.new
        ≡ searched search.old (λ g. spec.phrase_comparisons g this
        (Phrase.Any variable.now bound.now body.now))) }
{
    let count = search.globals().many(Some(bound));
    for below in 0..count {
        let indices = Indices::quantified(this, variable, below + 1);
        simple(alloc, search, &indices, body)?;
    }
    Ok(())
}

// A phrase without a quantifier.
fn simple<'a>(
    alloc: Global,
    search: &mut Search<'_, 'a>,
    indices: &Indices<'_>,
    simple: &'a Simple,
) -> Result<(), NoMemory>
    ensures { OnOk result (search.new
        ≡ searched search.old (λ g. spec.comparisons_in g indices.now simple.now)) }
{
    match simple {
        Simple::In(_) => Ok(()),
        Simple::Macro(_) => Ok(()),
        Simple::Compare {
            left,
            relation,
            right,
        } => compared(alloc, search, indices, left, *relation, right),
        Simple::Function {
            function,
            relation,
            right,
        } => function_compared(alloc, search, indices, function, *relation, right),
    }
}

// A comparison of sums.
fn compared<'a>(
    alloc: Global,
    search: &mut Search<'_, 'a>,
    indices: &Indices<'_>,
    left: &'a Sum,
    relation: Relation,
    right: &'a Sum,
) -> Result<(), NoMemory>
    ensures { OnOk result (search.new
        ≡ searched search.old (λ g. spec.comparisons_in g indices.now
        (Simple.Compare left.now relation right.now))) }
{
    search.ask(Ask {
        left: Left::Sum(terms_of(alloc, search.globals(), indices, left)?),
        relation,
        right: terms_of(alloc, search.globals(), indices, right)?,
    })
}

// A comparison of a function with a sum.
#[tactic(auto, using(crate::proofs::Asking::asked_function))]
fn function_compared<'a>(
    alloc: Global,
    search: &mut Search<'_, 'a>,
    indices: &Indices<'_>,
    function: &'a Mention,
    relation: Relation,
    right: &'a Sum,
) -> Result<(), NoMemory>
    ensures { OnOk result (search.new
        ≡ searched search.old (λ g. spec.comparisons_in g indices.now
        (Simple.Function function.now relation right.now))) }
{
    let at = indices.index(search.globals(), function.index.as_ref());
    search.ask(Ask {
        left: Left::Function {
            name: &function.name,
            at,
        },
        relation,
        right: terms_of(alloc, search.globals(), indices, right)?,
    })
}
