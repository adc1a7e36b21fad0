ghost use Rattle.std.specs.Prelude.{◌≡◌};
ghost use Rattle.rsml_parser.specs.Parsers as parsers;
ghost use Rattle.rsml_parser.specs.Parsers.{Gives};
ghost use Rattle.rsml_parser.specs.States as spec;
ghost use Rattle.rsml_syntax.specs.grammar.Layout.{is_the_word};
ghost use Rattle.rsml_syntax.specs.declared.token.Mark.TheVariants as marks;
ghost use Rattle.rsml_syntax.specs.declared.token.Word.TheVariants as words;

use crate::list::{Item, Listed, many, separated, until};
use crate::mentions::{bracketed_amount, mention};
use crate::reader::{Fault, Reader};
use crate::tables::when_guard;
use rsml_syntax::{Body, Bus, List, Mark, Mention, StateDecl, Text, Transition, Word};
use std::alloc::Global;

fn bus(alloc: Global, reader: &mut Reader<'_>) -> Result<Bus, Fault>
    ensures { Gives (spec.bus reader.old) result reader.new }
{
    reader.word(Word::Bus)?;
    let name = reader.name(alloc)?;
    reader.mark(Mark::OpenBrace)?;
    let members = separated(alloc, reader, Mark::Comma)?;
    reader.mark(Mark::CloseBrace)?;
    Ok(Bus { name, members })
}

impl Item for Bus {
    ghost parser = { spec.bus };

    fn read(alloc: Global, reader: &mut Reader<'_>) -> Result<Bus, Fault> {
        bus(alloc, reader)
    }
}

impl Listed for Bus {
    ghost begins = { is_the_word words.Bus };

    fn begins(reader: &Reader<'_>) -> bool {
        reader.sees_word(Word::Bus)
    }
}

/// The source of a transition, and its target if it has one.
fn movement(alloc: Global, reader: &mut Reader<'_>) -> Result<(Text, Option<List<Text>>), Fault>
    ensures { Gives (spec.movement reader.old) result reader.new }
{
    if reader.sees_word(Word::Move) {
        reader.word(Word::Move)?;
        let source = reader.name(alloc)?;
        reader.mark(Mark::Arrow)?;
        let target = separated(alloc, reader, Mark::Dot)?;
        return Ok((source, Some(target)));
    }
    reader.word(Word::Stay)?;
    let source = reader.name(alloc)?;
    Ok((source, None))
}

fn raises(alloc: Global, reader: &mut Reader<'_>) -> Result<List<Mention>, Fault>
    ensures { Gives (spec.raises reader.old) result reader.new }
{
    if reader.sees_word(Word::Raise) {
        reader.word(Word::Raise)?;
        return separated(alloc, reader, Mark::Comma);
    }
    Ok(List::new(alloc))
}

fn transition(alloc: Global, reader: &mut Reader<'_>) -> Result<Transition, Fault>
    ensures { Gives (spec.transition reader.old) result reader.new }
{
    let (source, target) = movement(alloc, reader)?;
    reader.word(Word::On)?;
    let trigger = mention(alloc, reader)?;
    let guard = when_guard(alloc, reader)?;
    let raises = raises(alloc, reader)?;
    reader.mark(Mark::Semicolon)?;
    Ok(Transition {
        source,
        target,
        trigger,
        guard,
        raises,
    })
}

impl Item for Transition {
    ghost parser = { spec.transition };

    fn read(alloc: Global, reader: &mut Reader<'_>) -> Result<Transition, Fault> {
        transition(alloc, reader)
    }
}

impl Listed for Transition {
    ghost begins = { parsers.is_not marks.CloseBrace };

    fn begins(reader: &Reader<'_>) -> bool {
        reader.goes_on(Mark::CloseBrace)
    }
}

/// Whether a state opens here.
fn opens_state(reader: &Reader<'_>) -> bool
    ensures { result ≡ parsers.first spec.opens_state reader.now }
{
    reader.sees_word(Word::State) || reader.sees_word(Word::Array)
}

/// A body, in which at most so many states may be nested.
#[cycle(body)]
pub fn body(alloc: Global, reader: &mut Reader<'_>, room: usize) -> Result<Body, Fault>
    ensures { Gives (spec.body room reader.old) result reader.new }
{
    if reader.sees_mark(Mark::Semicolon) {
        reader.mark(Mark::Semicolon)?;
        return Ok(Body::Basic);
    }
    if reader.sees_word(Word::One) {
        return one_of(alloc, reader, room);
    }
    all_of(alloc, reader, room)
}

#[cycle(body)]
fn one_of(alloc: Global, reader: &mut Reader<'_>, room: usize) -> Result<Body, Fault>
    ensures { Gives (spec.one_of (spec.children room) reader.old) result reader.new }
{
    reader.word(Word::One)?;
    reader.mark(Mark::OpenBrace)?;
    reader.word(Word::Default)?;
    let first = reader.name(alloc)?;
    reader.mark(Mark::Semicolon)?;
    let children = children(alloc, reader, room)?;
    let buses = many(alloc, reader)?;
    let transitions = until(alloc, reader, Mark::CloseBrace)?;
    Ok(Body::One {
        first,
        children,
        buses,
        transitions,
    })
}

#[cycle(body)]
fn all_of(alloc: Global, reader: &mut Reader<'_>, room: usize) -> Result<Body, Fault>
    ensures { Gives (spec.all_of (spec.children room) reader.old) result reader.new }
{
    reader.word(Word::All)?;
    reader.mark(Mark::OpenBrace)?;
    let children = children(alloc, reader, room)?;
    reader.mark(Mark::CloseBrace)?;
    Ok(Body::All { children })
}

/// Children, where no state may open.
fn no_children(alloc: Global, reader: &mut Reader<'_>) -> Result<List<StateDecl>, Fault>
    ensures { Gives (spec.no_children reader.old) result reader.new }
{
    if opens_state(reader) {
        return Err(Fault::TooDeep);
    }
    Ok(List::new(alloc))
}

/// Children, in which at most so many states may be nested.
#[tactic(auto, unfolding(crate::specs::States::children))]
#[cycle(body)]
fn children(alloc: Global, reader: &mut Reader<'_>, room: usize) -> Result<List<StateDecl>, Fault>
    ensures { Gives (spec.children room reader.old) result reader.new }
{
    if room == 0 {
        return no_children(alloc, reader);
    }
    some_children(alloc, reader, room - 1)
}

/// Children, in each of whose bodies at most so many states may be nested.
#[cycle(body)]
fn some_children(
    alloc: Global,
    reader: &mut Reader<'_>,
    room: usize,
) -> Result<List<StateDecl>, Fault>
    ensures { let children = parsers.many (parsers.first spec.opens_state) (spec.child (spec.body room)) in
        Gives (children reader.old) result reader.new }
{
    let mut found = List::new(alloc);
    for _turn in 0..reader.left() {
        if !opens_state(reader) {
            break;
        }
        match child(alloc, reader, room) {
            Ok(item) => found.push(item)?,
            Err(fault) => return Err(fault),
        }
    }
    Ok(found)
}

#[cycle(body)]
fn child(alloc: Global, reader: &mut Reader<'_>, room: usize) -> Result<StateDecl, Fault>
    ensures { Gives (spec.child (spec.body room) reader.old) result reader.new }
{
    if reader.sees_word(Word::Array) {
        return array_of_states(alloc, reader, room);
    }
    plain_state(alloc, reader, room)
}

#[cycle(body)]
fn array_of_states(alloc: Global, reader: &mut Reader<'_>, room: usize) -> Result<StateDecl, Fault>
    ensures { Gives (spec.array_of_states (spec.body room) reader.old) result reader.new }
{
    reader.word(Word::Array)?;
    let name = reader.name(alloc)?;
    let size = bracketed_amount(alloc, reader)?;
    let body = body(alloc, reader, room)?;
    Ok(StateDecl {
        name,
        size: Some(size),
        body,
    })
}

#[cycle(body)]
fn plain_state(alloc: Global, reader: &mut Reader<'_>, room: usize) -> Result<StateDecl, Fault>
    ensures { Gives (spec.plain_state (spec.body room) reader.old) result reader.new }
{
    reader.word(Word::State)?;
    let name = reader.name(alloc)?;
    let body = body(alloc, reader, room)?;
    Ok(StateDecl {
        name,
        size: None,
        body,
    })
}
