ghost use Rattle.std.specs.Prelude.{◌≡◌, [], ◌∷◌};
ghost use Rattle.rsml_parser.specs.Parsers as spec;
ghost use Rattle.rsml_parser.specs.Parsers.{Gives};

use crate::reader::{Fault, Reader};
use rsml_syntax::{List, Mark};
use std::alloc::Global;

/// What a list holds.
pub trait Item: Drop {
    ghost use Rattle.rsml_parser.specs.Parsers.{Parser};

    ghost parser: { Parser Self };

    fn read(alloc: Global, reader: &mut Reader<'_>) -> Result<Self, Fault>
        ensures { Gives (parser reader.old) result reader.new };
}

/// What a list holds without marks between.
pub trait Listed: Item {
    ghost use Rattle.std.specs.Prelude.{Bool};
    ghost use Rattle.rsml_syntax.specs.declared.token.Token.{Token};

    ghost begins: { Token → Bool };

    /// Whether an item begins here.
    fn begins(reader: &Reader<'_>) -> bool
        ensures { result ≡ spec.first begins reader.now };
}

/// The items that are found, and those that follow.
fn and_more<T: Listed>(
    alloc: Global,
    reader: &mut Reader<'_>,
    mut found: List<T>,
) -> Result<List<T>, Fault>
    ensures { Gives (spec.and_more (spec.first T.begins) T.parser found reader.old) result reader.new }
{
    for _turn in 0..reader.left() {
        if !T::begins(reader) {
            break;
        }
        match T::read(alloc, reader) {
            Ok(item) => found.push(item)?,
            Err(fault) => return Err(fault),
        }
    }
    Ok(found)
}

/// The items that follow.
pub fn many<T: Listed>(alloc: Global, reader: &mut Reader<'_>) -> Result<List<T>, Fault>
    ensures { Gives (spec.many (spec.first T.begins) T.parser reader.old) result reader.new }
{
    and_more(alloc, reader, List::new(alloc))
}

/// An item that was read, and those that follow.
pub fn many_after<T: Listed>(
    alloc: Global,
    reader: &mut Reader<'_>,
    first: T,
) -> Result<List<T>, Fault>
    ensures { Gives (spec.and_more (spec.first T.begins) T.parser (first ∷ []) reader.old) result reader.new }
{
    let mut found = List::new(alloc);
    found.push(first)?;
    and_more(alloc, reader, found)
}

/// An item, and others while the mark stands between.
pub fn separated<T: Item>(
    alloc: Global,
    reader: &mut Reader<'_>,
    mark: Mark,
) -> Result<List<T>, Fault>
    ensures { Gives (spec.separated mark T.parser reader.old) result reader.new }
{
    let first = T::read(alloc, reader)?;
    let mut found = List::new(alloc);
    found.push(first)?;
    for _turn in 0..reader.left() {
        if !reader.sees_mark(mark) {
            break;
        }
        reader.skip();
        match T::read(alloc, reader) {
            Ok(item) => found.push(item)?,
            Err(fault) => return Err(fault),
        }
    }
    Ok(found)
}

/// Items up to the mark that closes the list.
pub fn until<T: Listed>(
    alloc: Global,
    reader: &mut Reader<'_>,
    mark: Mark,
) -> Result<List<T>, Fault>
    requires { T.begins ≡ spec.is_not mark }
    ensures { Gives (spec.until mark T.parser reader.old) result reader.new }
{
    let found = many(alloc, reader)?;
    reader.mark(mark)?;
    Ok(found)
}

/// Items in parentheses, with commas between.
pub fn in_parentheses<T: Item>(alloc: Global, reader: &mut Reader<'_>) -> Result<List<T>, Fault>
    ensures { Gives (spec.in_parentheses T.parser reader.old) result reader.new }
{
    reader.mark(Mark::OpenParen)?;
    if reader.sees_mark(Mark::CloseParen) {
        reader.mark(Mark::CloseParen)?;
        return Ok(List::new(alloc));
    }
    let found = separated(alloc, reader, Mark::Comma)?;
    reader.mark(Mark::CloseParen)?;
    Ok(found)
}
