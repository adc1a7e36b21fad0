ghost use Rattle.std.specs.Prelude.{OnOk};
ghost use Rattle.rsml_syntax.specs.declared.token.Mark.TheVariants as marks;
ghost use Rattle.rsml_syntax.specs.declared.token.Word.TheVariants as words;
ghost use Rattle.rsml_syntax.specs.grammar.Grammar as grammar;
ghost use Rattle.rsml_syntax.specs.helpers.Printing.{Writes};

use super::items::{Print, print_each, print_members, print_separated};
use super::printer::Printer;
use super::sums::print_size;
use crate::syntax::{Body, Bus, Mention, StateDecl, Transition};
use crate::token::{Mark, Word};
use rsml_base::{List, NoMemory, Text};

impl Print for Bus {
    ghost tokens = { grammar.bus };

    fn print(&self, printer: &mut Printer) -> Result<(), NoMemory> {
        printer.word(Word::Bus)?;
        printer.name(&self.name)?;
        print_members(self.members.as_slice(), printer)
    }
}

fn print_movement(
    source: &Text,
    target: &Option<List<Text>>,
    printer: &mut Printer,
) -> Result<(), NoMemory>
    ensures { OnOk result (Writes printer.old printer.new (grammar.movement source.now target.now)) }
{
    match target {
        Some(target) => {
            printer.word(Word::Move)?;
            printer.name(source)?;
            printer.mark(Mark::Arrow)?;
            print_separated(Mark::Dot, target.as_slice(), printer)
        }
        None => {
            printer.word(Word::Stay)?;
            printer.name(source)
        }
    }
}

/// The word `raise` and the mentions, if there are some.
fn print_raises(raises: &[Mention], printer: &mut Printer) -> Result<(), NoMemory>
    ensures { OnOk result (Writes printer.old printer.new (grammar.raises raises.now)) }
{
    if !raises.is_empty() {
        printer.word(Word::Raise)?;
        print_separated(Mark::Comma, raises, printer)?;
    }
    Ok(())
}

impl Print for Transition {
    ghost tokens = { grammar.transition };

    fn print(&self, printer: &mut Printer) -> Result<(), NoMemory> {
        print_movement(&self.source, &self.target, printer)?;
        printer.word(Word::On)?;
        self.trigger.print(printer)?;
        self.guard.print(printer)?;
        print_raises(self.raises.as_slice(), printer)?;
        printer.mark(Mark::Semicolon)
    }
}

fn print_default(child: &Text, printer: &mut Printer) -> Result<(), NoMemory>
    ensures { OnOk result (Writes printer.old printer.new (λ rest.
        grammar.word words.Default (grammar.name child.now (grammar.mark marks.Semicolon rest)))) }
{
    printer.word(Word::Default)?;
    printer.name(child)?;
    printer.mark(Mark::Semicolon)
}

/// The buses, the transitions, and the brace after them.
fn print_transitions(
    buses: &[Bus],
    transitions: &[Transition],
    printer: &mut Printer,
) -> Result<(), NoMemory>
    ensures { OnOk result (Writes printer.old printer.new (λ rest.
        grammar.each grammar.bus buses.now (grammar.each grammar.transition transitions.now (grammar.mark marks.CloseBrace rest)))) }
{
    print_each(buses, printer)?;
    print_each(transitions, printer)?;
    printer.mark(Mark::CloseBrace)
}

#[cycle(states)]
#[tactic(auto, using(crate::proofs::BodyLemmas::body_all, crate::proofs::BodyLemmas::body_one))]
pub(crate) fn print_body(body: &Body, printer: &mut Printer) -> Result<(), NoMemory>
    ensures { OnOk result (Writes printer.old printer.new (grammar.body body.now)) }
{
    match body {
        Body::Basic => printer.mark(Mark::Semicolon),
        Body::One {
            first,
            children,
            buses,
            transitions,
        } => {
            printer.word(Word::One)?;
            printer.mark(Mark::OpenBrace)?;
            print_default(first, printer)?;
            print_states(children.as_slice(), printer)?;
            print_transitions(buses.as_slice(), transitions.as_slice(), printer)
        }
        Body::All { children } => {
            printer.word(Word::All)?;
            printer.mark(Mark::OpenBrace)?;
            print_states(children.as_slice(), printer)?;
            printer.mark(Mark::CloseBrace)
        }
    }
}

#[cycle(states)]
fn print_states(states: &[StateDecl], printer: &mut Printer) -> Result<(), NoMemory>
    ensures { OnOk result (Writes printer.old printer.new (grammar.each grammar.state states.now)) }
{
    for state in states {
        printer.word(if state.size.is_some() {
            Word::Array
        } else {
            Word::State
        })?;
        printer.name(&state.name)?;
        print_size(&state.size, printer)?;
        print_body(&state.body, printer)?;
    }
    Ok(())
}
