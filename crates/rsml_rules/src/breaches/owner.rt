//! The owner of tables and sums (S7, S8, S16): a macro, a function, a send, or the source of a
//! transition.
ghost use Rattle.std.specs.Prelude.{◌≡◌, [], ◌∷◌, flat_map, length, map, nat_eq};
ghost use Rattle.std.specs.List.{list_all, list_any};
ghost use Rattle.rsml_syntax.specs.declared.syntax.Guard.TheVariants as guards;
ghost use Rattle.rsml_syntax.specs.rules.Kinds as kinds;
ghost use Rattle.rsml_syntax.specs.rules.Owners as owners;
ghost use Rattle.rsml_syntax.specs.grammar.Written as written;
ghost use Rattle.rsml_rules.specs.breaches.Noting.{noted};
ghost use Rattle.rsml_rules.specs.breaches.Owned as spec;

use crate::breaches::kinds::{has_kind, kinds_match};
use crate::breaches::setting::Setting;
use crate::breaches::worst::Worst;
use rsml_names::{answered, simple_of};
use rsml_syntax::{Case, Guard, Row, SendCase, Simple, Sum, Text, Value};

/// The greatest number of rows of a table.
const MOST_ROWS: usize = 64;

/// The greatest number of cells of a row.
const MOST_CELLS: usize = 32;

/// The greatest number of terms of a sum.
const MOST_TERMS: usize = 8;

/// Whether the kinds in rows are right.
fn rows_match(setting: &Setting<'_, '_>, rows: &[Row]) -> bool
    ensures { result ≡ owners.guard_kinds_match setting.now.tables.globals (guards.Table rows.now) }
{
    rows.iter()
        .all(|row| kinds_match(setting, simple_of(&row.phrase)))
}

/// Whether each row has so many cells.
fn have_cells(rows: &[Row], cells: usize) -> bool
    ensures { result ≡ list_all (λ row. nat_eq (length row.cells) cells) rows.now }
{
    rows.iter().all(|row| row.cells.len() == cells)
}

/// Whether rows are a table: 1 to 64 of them with 1 to 32 cells each, all as many.
fn is_table(rows: &[Row]) -> bool
    ensures { result ≡ owners.is_table rows.now }
{
    match rows.split_first() {
        Some((first, rest)) => {
            let cells = first.cells.len();
            rows.len() <= MOST_ROWS && 1 <= cells && cells <= MOST_CELLS && have_cells(rest, cells)
        }
        None => false,
    }
}

/// Whether a sum has more than 8 terms.
fn is_long(sum: &Sum) -> bool
    ensures { result ≡ owners.is_long sum.now }
{
    MOST_TERMS < sum.terms.len()
}

/// Whether a phrase compares a sum of more than 8 terms.
fn simple_is_long(simple: &Simple) -> bool
    ensures { result ≡ list_any owners.is_long (written.sums_in simple.now) }
{
    match simple {
        Simple::In(_) => false,
        Simple::Macro(_) => false,
        Simple::Compare { left, right, .. } => is_long(left) || is_long(right),
        Simple::Function { right, .. } => is_long(right),
    }
}

/// Whether rows have a sum of more than 8 terms.
fn rows_are_long(rows: &[Row]) -> bool
    ensures { result ≡ owners.guard_is_long (guards.Table rows.now) }
{
    rows.iter()
        .any(|row| simple_is_long(simple_of(&row.phrase)))
}

/// What is seen of an owner's tables and sums.
#[derive(Clone, Copy)]
pub struct Owner {
    kinds_match: bool,
    are_tables: bool,
    is_long: bool,
}

impl Owner {
    /// Without tables and sums.
    pub fn new() -> Owner
        ensures { result ≡ spec.bare }
    {
        Owner {
            kinds_match: true,
            are_tables: true,
            is_long: false,
        }
    }

    /// With one more table.
    pub fn with_table(self, setting: &Setting<'_, '_>, rows: &[Row]) -> Owner
        ensures { result
            ≡ spec.with_all setting.now.tables.globals self (guards.Table rows.now ∷ []) [] }
    {
        Owner {
            kinds_match: self.kinds_match && rows_match(setting, rows),
            are_tables: self.are_tables && is_table(rows),
            is_long: self.is_long || rows_are_long(rows),
        }
    }

    /// With one more guard.
    pub fn with_guard(self, setting: &Setting<'_, '_>, guard: &Guard) -> Owner
        ensures { result ≡ spec.with_all setting.now.tables.globals self (guard.now ∷ []) [] }
    {
        match guard {
            Guard::Always => self,
            Guard::Table(rows) => self.with_table(setting, rows.as_slice()),
        }
    }

    /// With one more sum beside the guards.
    fn with_sum(self, setting: &Setting<'_, '_>, sum: &Sum) -> Owner
        ensures { result ≡ spec.with_all setting.now.tables.globals self [] (sum.now ∷ []) }
    {
        Owner {
            kinds_match: self.kinds_match && has_kind(&setting.tables().globals, sum),
            are_tables: self.are_tables,
            is_long: self.is_long || is_long(sum),
        }
    }

    /// With the cases of a function.
    pub fn with_cases(self, setting: &Setting<'_, '_>, cases: &[Case]) -> Owner
        ensures { result ≡ spec.with_all setting.now.tables.globals self
            (map (λ c. c.guard) cases.now) (map (λ c. c.value) cases.now) }
    {
        let mut owner = self;
        for case in cases {
            owner = owner.with_case(setting, case);
        }
        owner
    }

    /// With a case of a function.
    fn with_case(self, setting: &Setting<'_, '_>, case: &Case) -> Owner
        ensures { result ≡ spec.with_all setting.now.tables.globals self
            (case.now.guard ∷ []) (case.now.value ∷ []) }
    {
        self.with_guard(setting, &case.guard)
            .with_sum(setting, &case.value)
    }

    /// With the values of an answer.
    fn with_values(self, setting: &Setting<'_, '_>, values: &[Value]) -> Owner
        ensures { result ≡ spec.with_all setting.now.tables.globals self []
            (flat_map written.sum_of_value values.now) }
    {
        let mut owner = self;
        for value in values {
            owner = owner.with_value(setting, value);
        }
        owner
    }

    /// With a value of an answer.
    fn with_value(self, setting: &Setting<'_, '_>, value: &Value) -> Owner
        ensures { result
            ≡ spec.with_all setting.now.tables.globals self [] (written.sum_of_value value.now) }
    {
        match value {
            Value::Sum(sum) => self.with_sum(setting, sum),
            Value::Function(_) => self,
        }
    }

    /// With the cases of a send.
    pub fn with_send_cases(self, setting: &Setting<'_, '_>, cases: &[SendCase]) -> Owner
        ensures { result
            ≡ spec.with_all setting.now.tables.globals self (map (λ c. c.guard) cases.now)
            (flat_map (λ c. flat_map written.sum_of_value (written.values_in c.answer)) cases.now) }
    {
        let mut owner = self;
        for case in cases {
            owner = owner.with_send_case(setting, case);
        }
        owner
    }

    /// With a case of a send.
    fn with_send_case(self, setting: &Setting<'_, '_>, case: &SendCase) -> Owner
        ensures { result ≡ spec.with_all setting.now.tables.globals self (case.now.guard ∷ [])
            (flat_map written.sum_of_value (written.values_in case.now.answer)) }
    {
        self.with_guard(setting, &case.guard)
            .with_values(setting, answered(&case.answer))
    }

    /// Takes note of what is wrong, at the owner's name.
    pub fn note<'a>(self, name: &'a Text, worst: &mut Worst<'a>)
        ensures { worst.new ≡ noted worst.old (spec.shown name.now self) }
    {
        worst.note(7, name, !self.kinds_match);
        worst.note(8, name, !self.are_tables);
        worst.note(16, name, self.is_long);
    }
}
