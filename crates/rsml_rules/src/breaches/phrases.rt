//! Phrases and guards: S1 and S5 at variables, S15 at compared functions, and what they use.
ghost use Rattle.std.specs.Prelude.{◌≡◌, flat_map};
ghost use Rattle.rsml_syntax.specs.rules.Uses as uses;
ghost use Rattle.rsml_rules.specs.breaches.Noting.{noted};

use crate::breaches::indices::is_amount;
use crate::breaches::paths::path_used;
use crate::breaches::setting::Setting;
use crate::breaches::uses::{amount_used, mentioned, sum_used};
use crate::breaches::worst::Worst;
use rsml_names::{Globals, NameTables, Scope, rows_of};
use rsml_syntax::{Amount, Guard, Operand, Phrase, Row, Simple, Sum, Text, Want};

/// A number, a constant or a value of an enumeration.
fn is_constant_operand(globals: &Globals<'_>, operand: &Operand) -> bool
    ensures { result ≡ uses.is_constant_operand globals.now operand.now }
{
    match operand {
        Operand::Number(_) => true,
        Operand::Mention(mention) => match globals.meaning(&mention.name) {
            Some(known) => !known.is_input(),
            None => true,
        },
        Operand::Previous(_) => false,
    }
}

fn is_constant(globals: &Globals<'_>, sum: &Sum) -> bool
    ensures { result ≡ uses.is_constant globals.now sum.now }
{
    sum.terms
        .as_slice()
        .iter()
        .all(|term| is_constant_operand(globals, &term.operand))
}

/// What a phrase says, without its quantifier.
fn simple_used<'a>(
    setting: &Setting<'a, '_>,
    scope: &Scope<'a>,
    simple: &'a Simple,
    worst: &mut Worst<'a>,
)
    ensures { worst.new ≡ noted worst.old
        (uses.simple_used setting.now.tables scope.now simple.now) }
{
    let tables = setting.tables();
    match simple {
        Simple::In(path) => path_used(setting, scope, path.as_slice(), worst),
        Simple::Macro(mention) => mentioned(tables, scope, Want::Macro, mention, worst),
        Simple::Compare { left, right, .. } => {
            sum_used(tables, scope, left, worst);
            sum_used(tables, scope, right, worst);
        }
        Simple::Function {
            function,
            right,
            ..
        } => {
            mentioned(tables, scope, Want::Function, function, worst);
            let constant = is_constant(&tables.globals, right);
            worst.note(15, &function.name, !constant);
            sum_used(tables, scope, right, worst);
        }
    }
}

/// Whether a variable is the name of an earlier declaration, or of the one it stands in.
fn is_declared_before(tables: &NameTables<'_>, scope: &Scope<'_>, variable: &Text) -> bool
    ensures { result ≡ uses.is_declared_before tables.now scope.now variable.now }
{
    match tables.globals.place(variable) {
        Some(place) => place <= scope.before,
        None => false,
    }
}

/// Where the body of a quantified phrase stands.
fn within<'a>(
    tables: &NameTables<'a>,
    scope: &Scope<'a>,
    variable: &'a Text,
    bound: &Amount,
) -> Scope<'a>
    ensures { result ≡ uses.within tables.now scope.now variable.now bound.now }
{
    let bound = tables.globals.amount(bound);
    Scope {
        before: scope.before,
        this: scope.this,
        variable: match bound {
            Some(bound) => Some((variable, bound)),
            None => None,
        },
    }
}

/// A quantified phrase.
fn quantified<'a>(
    setting: &Setting<'a, '_>,
    scope: &Scope<'a>,
    variable: &'a Text,
    bound: &'a Amount,
    body: &'a Simple,
    worst: &mut Worst<'a>,
)
    ensures { worst.new ≡ noted worst.old
        (uses.quantified setting.now.tables scope.now variable.now bound.now body.now) }
{
    let tables = setting.tables();
    worst.note(1, variable, is_declared_before(tables, scope, variable));
    worst.note(5, variable, !is_amount(tables, bound));
    amount_used(tables, scope, bound, worst);
    simple_used(
        setting,
        &within(tables, scope, variable, bound),
        body,
        worst,
    );
}

fn phrase_used<'a>(
    setting: &Setting<'a, '_>,
    scope: &Scope<'a>,
    phrase: &'a Phrase,
    worst: &mut Worst<'a>,
)
    ensures { worst.new ≡ noted worst.old
        (uses.phrase_used setting.now.tables scope.now phrase.now) }
{
    match phrase {
        Phrase::Plain(body) => simple_used(setting, scope, body, worst),
        Phrase::Any {
            variable,
            bound,
            body,
        }
        | Phrase::Every {
            variable,
            bound,
            body,
        } => quantified(setting, scope, variable, bound, body, worst),
    }
}

/// The rows of a table.
pub fn rows_used<'a>(
    setting: &Setting<'a, '_>,
    scope: &Scope<'a>,
    rows: &'a [Row],
    worst: &mut Worst<'a>,
)
    ensures { worst.new ≡ noted worst.old
        (flat_map (λ row. uses.phrase_used setting.now.tables scope.now row.phrase) rows.now) }
{
    for row in rows {
        phrase_used(setting, scope, &row.phrase, worst);
    }
}

/// A guard.
pub fn guard_used<'a>(
    setting: &Setting<'a, '_>,
    scope: &Scope<'a>,
    guard: &'a Guard,
    worst: &mut Worst<'a>,
)
    ensures { worst.new ≡ noted worst.old (uses.guard_used setting.now.tables scope.now guard.now) }
{
    rows_used(setting, scope, rows_of(guard), worst);
}
