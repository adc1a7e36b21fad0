ghost use Rattle.std.specs.Prelude.{◌≡◌, ◌<◌, IfOk, Some, length, slice_get};
ghost use Rattle.rsml_meaning.specs.Groups.{Group, groups};
ghost use Rattle.rsml_meaning.specs.Report.{finding};
ghost use Rattle.text_writer.specs.Writes.{Writes};
ghost use Rattle.finding_texts.specs.Verdicts.{verdict_of, TellsWorld};

use crate::found::{put_double, put_missing};
use crate::verdict::Verdict;
use and_or_tables::Truths;
use elaborate::Machine;
use instance_texts::Texts;
use rsml_syntax::{Checked, NoMemory};
use std::alloc::Global;
use std::marker::Model;
use text_writer::Writer;

/// The texts of what is found of the groups of a machine. Only `new` takes memory. Contracts see the machine.
pub struct Findings<'m, 'a> {
    machine: &'m Machine<'a>,
    texts: Texts<'a>,
    truths: Truths,
}

impl Drop for Findings<'_, '_> {
    fn drop(self) {
        let Self {
            machine: _,
            texts: _,
            truths: _,
        } = self;
    }
}

impl<'m, 'a> Model for Findings<'m, 'a> {
    ghost use Rattle.std.specs.Prelude.{◌≡◌, length};
    ghost use Rattle.std.specs.Coded.{codes};
    ghost use Rattle.rsml_syntax.specs.contracts.syntax.Body as bodies;
    ghost use Rattle.elaborate.specs.Machine.{GroundMachine};

    ghost Value = { GroundMachine };

    ghost coded = { Prim.hlevel (codes, bodies.the_row.coded) };

    ghost view = { λ f. f.machine.now };

    ghost invariant = { λ f. (f.texts ≡ f.machine.now.base.spec)
        × (length f.truths ≡ length f.machine.now.base.phrases) };
}

impl<'m, 'a> Findings<'m, 'a> {
    /// For the groups of a machine of this specification.
    pub fn new(
        alloc: Global,
        checked: &'a Checked,
        machine: &'m Machine<'a>,
    ) -> Result<Findings<'m, 'a>, NoMemory>
        requires { machine.now.base.spec ≡ checked.now }
        ensures { IfOk result (λ f. f ≡ machine.now) }
    {
        let texts = Texts::build(alloc, checked)?;
        let truths = Truths::new(alloc, machine.macros().phrases())?;
        Ok(Findings {
            machine,
            texts,
            truths,
        })
    }

    /// Writes what is found of a group, nothing where it is sound.
    pub fn put<W: Writer>(&mut self, writer: &mut W, group: u32, verdict: &Verdict)
        requires group { group < length (groups self.old.base.spec) }
        requires world { TellsWorld self.old.base.spec verdict.now }
        ensures same { self.new ≡ self.old }
        ensures text { (g : Group) → slice_get (groups self.old.base.spec) group ≡ Some g
            → Writes (W.state writer.old) (W.text writer.old) (finding self.old.base.spec (g, verdict_of verdict.now))
            (W.state writer.new) (W.text writer.new) }
    {
        let machine = self.machine;
        match verdict {
            Verdict::Sound => {}
            Verdict::Missing(world) => put_missing(writer, machine, &self.texts, group, world),
            Verdict::Double(world) => {
                machine
                    .macros()
                    .fill(machine.tree(), world, &mut self.truths);
                put_double(writer, machine, &self.texts, &self.truths, group, world);
            }
        }
    }
}
