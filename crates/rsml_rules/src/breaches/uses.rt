//! Names where they are used: S2, S3, S5 and S6.
ghost use Rattle.std.specs.Prelude.{◌≡◌, false, true, flat_map};
ghost use Rattle.std.specs.Option.{option_map_or, option_copied};
ghost use Rattle.rsml_syntax.specs.rules.Globals.{meaning};
ghost use Rattle.rsml_syntax.specs.rules.Uses as uses;
ghost use Rattle.rsml_rules.specs.breaches.Noting.{noted};

use crate::breaches::indices::{is_amount, is_indexed};
use crate::breaches::worst::Worst;
use rsml_names::{Known, NameTables, Scope};
use rsml_syntax::{Amount, Decl, Mention, Operand, Sum, Text, Want};

/// Whether it is a macro or a function.
fn is_definition(known: &Known<'_>) -> bool
    ensures { result ≡ uses.is_definition known.now }
{
    matches!(known.decl, Decl::Macro { .. } | Decl::Function { .. })
}

/// Whether a name is that of a macro or of a function.
fn names_definition(tables: &NameTables<'_>, name: &Text) -> bool
    ensures { result ≡ uses.names_definition tables.now name.now }
{
    match tables.globals.meaning(name) {
        Some(known) => is_definition(known),
        None => false,
    }
}

/// Whether a name is declared before the place of use.
fn is_before(tables: &NameTables<'_>, scope: &Scope<'_>, name: &Text) -> bool
    ensures { result ≡ uses.is_before tables.now scope.now name.now }
{
    match tables.globals.place(name) {
        Some(place) => place < scope.before,
        None => false,
    }
}

/// Whether a name is declared, and before its use where it is that of a macro or a function.
fn is_declared(tables: &NameTables<'_>, scope: &Scope<'_>, name: &Text) -> bool
    ensures { result ≡ uses.is_declared tables.now scope.now name.now }
{
    if names_definition(tables, name) {
        is_before(tables, scope, name)
    } else {
        tables.globals.place(name).is_some()
    }
}

/// Whether a place may name a value of an enumeration.
fn value_fits(want: Want) -> bool
    ensures { result ≡ uses.value_fits want }
{
    matches!(want, Want::Initial | Want::Operand)
}

/// Whether a place may name what this declares.
fn declaration_fits(want: Want, decl: &Decl) -> bool
    ensures { result ≡ uses.declaration_fits want decl.now }
{
    match decl {
        Decl::Constant { .. } => matches!(want, Want::Constant | Want::Initial | Want::Operand),
        Decl::Enumeration { .. } => matches!(want, Want::Type),
        Decl::Range { .. } => matches!(want, Want::Type),
        Decl::Input { .. } => matches!(want, Want::Input | Want::Operand),
        Decl::Event { .. } => matches!(want, Want::Event),
        Decl::Macro { .. } => matches!(want, Want::Macro),
        Decl::Function { .. } => matches!(want, Want::Function),
        Decl::Receive { .. } => false,
        Decl::Send { .. } => false,
    }
}

/// Whether a place may name this.
fn fits(want: Want, known: &Known<'_>) -> bool
    ensures { result ≡ uses.fits want known.now }
{
    match known.value {
        Some(_) => value_fits(want),
        None => declaration_fits(want, known.decl),
    }
}

/// Whether a place may name this, as far as it is declared.
fn may_name(tables: &NameTables<'_>, want: Want, name: &Text) -> bool
    ensures { result ≡ option_map_or (uses.fits want) (meaning tables.now.globals name.now) true }
{
    match tables.globals.meaning(name) {
        Some(known) => fits(want, known),
        None => true,
    }
}

/// A name that is used.
pub fn used<'a>(
    tables: &NameTables<'a>,
    scope: &Scope<'a>,
    want: Want,
    name: &'a Text,
    worst: &mut Worst<'a>,
)
    ensures { worst.new ≡ noted worst.old (uses.used tables.now scope.now want name.now) }
{
    worst.note(2, name, !is_declared(tables, scope, name));
    worst.note(3, name, !may_name(tables, want, name));
}

/// Whether the index of a mention is right, as far as its name is declared.
fn has_index(tables: &NameTables<'_>, scope: &Scope<'_>, mention: &Mention) -> bool
    ensures { result ≡ option_map_or (uses.is_indexed_for tables.now scope.now mention.now)
        (meaning tables.now.globals mention.now.name) true }
{
    match tables.globals.meaning(&mention.name) {
        Some(known) => {
            let size = tables.globals.size(known.size());
            is_indexed(&tables.globals, scope, size, &mention.index)
        }
        None => true,
    }
}

/// A mention of a global name.
pub fn mentioned<'a>(
    tables: &NameTables<'a>,
    scope: &Scope<'a>,
    want: Want,
    mention: &'a Mention,
    worst: &mut Worst<'a>,
)
    ensures { worst.new ≡ noted worst.old (uses.mentioned tables.now scope.now want mention.now) }
{
    used(tables, scope, want, &mention.name, worst);
    worst.note(6, &mention.name, !has_index(tables, scope, mention));
}

/// Mentions of global names.
pub fn each_mentioned<'a>(
    tables: &NameTables<'a>,
    scope: &Scope<'a>,
    want: Want,
    mentions: &'a [Mention],
    worst: &mut Worst<'a>,
)
    ensures { worst.new ≡ noted worst.old
        (flat_map (uses.mentioned tables.now scope.now want) mentions.now) }
{
    for mention in mentions {
        mentioned(tables, scope, want, mention, worst);
    }
}

/// The name of a constant in a size or as a bound.
pub fn amount_used<'a>(
    tables: &NameTables<'a>,
    scope: &Scope<'a>,
    amount: &'a Amount,
    worst: &mut Worst<'a>,
)
    ensures { worst.new ≡ noted worst.old (uses.amount_used tables.now scope.now amount.now) }
{
    match amount {
        Amount::Number(_) => {}
        Amount::Name(name) => used(tables, scope, Want::Constant, name, worst),
    }
}

/// A name that is declared with a size.
pub fn sized<'a>(
    tables: &NameTables<'a>,
    scope: &Scope<'a>,
    name: &'a Text,
    size: Option<&'a Amount>,
    worst: &mut Worst<'a>,
)
    ensures { worst.new ≡ noted worst.old
        (uses.sized tables.now scope.now name.now (option_copied size.entry)) }
{
    if let Some(size) = size {
        worst.note(5, name, !is_amount(tables, size));
        amount_used(tables, scope, size, worst);
    }
}

/// An operand of a sum.
fn operand_used<'a>(
    tables: &NameTables<'a>,
    scope: &Scope<'a>,
    operand: &'a Operand,
    worst: &mut Worst<'a>,
)
    ensures { worst.new ≡ noted worst.old (uses.operand_used tables.now scope.now operand.now) }
{
    match operand {
        Operand::Number(_) => {}
        Operand::Mention(mention) => mentioned(tables, scope, Want::Operand, mention, worst),
        Operand::Previous(mention) => mentioned(tables, scope, Want::Input, mention, worst),
    }
}

/// A sum.
pub fn sum_used<'a>(tables: &NameTables<'a>, scope: &Scope<'a>, sum: &'a Sum, worst: &mut Worst<'a>)
    ensures { worst.new ≡ noted worst.old (uses.sum_used tables.now scope.now sum.now) }
{
    for term in sum.terms.as_slice() {
        operand_used(tables, scope, &term.operand, worst);
    }
}
