ghost use Rattle.std.specs.Prelude.{◌≡◌, IfOk, IfSome, map};
ghost use Rattle.std.specs.Option.{option_map};
ghost use Rattle.rsml_syntax.specs.limits.Thresholds.{type_ends};
ghost use Rattle.rsml_syntax.specs.rules.Globals.{values_of};
ghost use Rattle.rsml_syntax.specs.text.Names.{place_of};
ghost use Rattle.rsml_meaning.specs.Cells.{no_type};
ghost use Rattle.rsml_meaning.specs.EventLines.{value_number};
ghost use Rattle.rsml_meaning.specs.Words.{Each};
ghost use Rattle.event_lines.specs.helpers.Capped.{capped_signed};
ghost use Rattle.event_lines.specs.helpers.Declared.{type_of};
ghost use Rattle.event_lines.specs.helpers.Kept.{IsPlaced};
ghost use Rattle.event_lines.specs.helpers.Values.{read_value};

use crate::digits::signed_number;
use crate::known::{Known, MOST, kept};
use crate::line_fault::LineFault;
use rsml_names::{NameList, number_of, values_of};
use rsml_syntax::{Decl, NoMemory, Text};
use std::alloc::Global;
use std::marker::Model;

/// A type of inputs: its least and its greatest number, and for an enumeration the names of 0, 1, 2
/// and so on, the first of them at hand.
pub struct ValueType<'a> {
    low: i64,
    high: i64,
    names: NameList<'a>,
    first: Vec<Known<'a>>,
}

impl Drop for ValueType<'_> {
    fn drop(self) {
        let Self {
            low: _,
            high: _,
            names: _,
            first: _,
        } = self;
    }
}

impl<'a> Model for ValueType<'a> {
    ghost use Rattle.rsml_meaning.specs.Cells.{InputType, new_type};
    ghost use Rattle.rsml_meaning.specs.Words.{Each};
    ghost use Rattle.event_lines.specs.helpers.Kept.{IsPlaced};

    ghost Value = { InputType };

    ghost view = { λ t. new_type (t.low, t.high) t.names };

    ghost invariant = { λ t. Each (IsPlaced t.names) t.first.items };
}

/// The least and the greatest number of the type that a declaration makes. NoMemory where it has
/// more names than a `u32` counts.
fn ends(decl: &Decl) -> Result<(i64, i64), NoMemory>
    ensures { IfOk result (λ ends. ends ≡ type_ends (record { decl = decl.now; value = None })) }
{
    match decl {
        Decl::Range { low, high, .. } => Ok((number_of(low), number_of(high))),
        Decl::Enumeration { values, .. } => match u32::try_from(values.len()) {
            Ok(count) => Ok((0, i64::from(count) - 1)),
            Err(_) => Err(NoMemory),
        },
        _ => Ok((0, 0)),
    }
}

/// These names.
#[tactic(auto, using(rsml_names::proofs::Gathering::names_turn))]
fn list_of<'a>(alloc: Global, names: &'a [Text]) -> Result<NameList<'a>, NoMemory>
    ensures { IfOk result (λ list. list ≡ names.now) }
{
    let mut list = NameList::new(alloc);
    for name in names {
        list.add(name.bytes())?;
    }
    Ok(list)
}

/// A name with its place in a list.
fn placed<'a>(list: &NameList<'a>, name: &'a Text) -> Option<Known<'a>>
    ensures { IfSome result (IsPlaced list.now) }
{
    let name = name.bytes();
    let number = list.find(name)?;
    Some(Known { name, number })
}

/// The first names with their places in a list.
fn first_of<'a>(
    alloc: Global,
    list: &NameList<'a>,
    names: &'a [Text],
) -> Result<Vec<Known<'a>>, NoMemory>
    ensures { IfOk result (λ first. Each (IsPlaced list.now) first.items) }
{
    let mut first = Vec::new(alloc);
    for name in names {
        if first.len() == MOST {
            break;
        }
        if let Some(known) = placed(list, name) {
            first.push(known)?;
        }
    }
    Ok(first)
}

impl<'a> ValueType<'a> {
    /// That of what is no type.
    pub fn none(alloc: Global) -> ValueType<'a>
        ensures { result ≡ no_type }
    {
        ValueType {
            low: 0,
            high: 0,
            names: NameList::new(alloc),
            first: Vec::new(alloc),
        }
    }

    /// The type that a declaration makes.
    pub fn new(alloc: Global, decl: &'a Decl) -> Result<ValueType<'a>, NoMemory>
        ensures { IfOk result (λ t. t ≡ type_of decl.now) }
    {
        let (low, high) = ends(decl)?;
        let names = list_of(alloc, values_of(decl))?;
        let first = first_of(alloc, &names, values_of(decl))?;
        Ok(ValueType {
            low,
            high,
            names,
            first,
        })
    }

    /// The place of a name.
    fn place(&self, name: &[u8]) -> Option<usize>
        ensures { result ≡ place_of name.now self.now.names }
    {
        match kept(self.first.as_slice(), name) {
            Some(place) => Some(place),
            None => self.names.find(name),
        }
    }

    /// The number that a text writes, in the form that the type asks for.
    fn written(&self, text: &[u8]) -> Option<i128>
        ensures { result ≡ option_map capped_signed (value_number (self.now, text.now)) }
    {
        if self.names.count() == 0 {
            signed_number(text)
        } else {
            let place = self.place(text)?;
            Some(i128::from(place as u64))
        }
    }

    /// The number of the type that a text writes.
    pub fn read(&self, text: &[u8]) -> Result<i64, LineFault>
        ensures { result ≡ read_value self.now text.now }
    {
        match self.written(text) {
            None => Err(LineFault::NotAValue),
            Some(number) => {
                if i128::from(self.low) <= number && number <= i128::from(self.high) {
                    Ok(number as i64)
                } else {
                    Err(LineFault::OutOfRange)
                }
            }
        }
    }
}
