//! The whole text.
ghost use Rattle.std.specs.Prelude.{◌≡◌, ◌≤◌, ◌++◌, IfOk, codes, decimal, length};
ghost use Rattle.rsml_meaning.specs.Texts.{text_line};
ghost use Rattle.text_writer.specs.Writes.{Writes};
ghost use Rattle.gap_texts.specs.Fitting.{AreOfGroups};
ghost use Rattle.gap_texts.specs.GapText as spec;

use crate::gap_groups::put_groups;
use elaborate::Machine;
use instance_texts::Texts;
use rsml_syntax::NoMemory;
use std::alloc::Global;
use text_writer::{Draft, Writer, put_line_end, put_number};
use world_columns::GroupGaps;

// Whether a group is not sound.
fn is_unsound(told: &GroupGaps) -> bool
    ensures { result ≡ spec.is_unsound told.now }
{
    !matches!(told, GroupGaps::Sound)
}

/// How many groups are not sound.
pub fn unsound(told: &[GroupGaps]) -> usize
    ensures { result ≡ spec.unsound told.now }
{
    let mut count = 0;
    for one in told {
        if is_unsound(one) {
            count += 1;
        }
    }
    count
}

// Writes the line of a specification's name.
fn put_name<W: Writer>(writer: &mut W, name: &[u8])
    ensures { Writes (W.state writer.old) (W.text writer.old)
        (text_line (codes "specification " ++ name.now)) (W.state writer.new) (W.text writer.new) }
{
    writer.put(b"specification ");
    writer.put(name);
    put_line_end(writer);
}

// Writes the last line.
fn put_count<W: Writer>(writer: &mut W, count: u64)
    ensures { Writes (W.state writer.old) (W.text writer.old)
        (text_line (codes "gaps " ++ decimal count)) (W.state writer.new) (W.text writer.new) }
{
    writer.put(b"gaps ");
    put_number(writer, count);
    put_line_end(writer);
}

/// The text of what is told of each group of a machine by columns. The only error is out of memory.
pub fn gap_text(
    alloc: Global,
    machine: &Machine<'_>,
    texts: &Texts<'_>,
    told: &[GroupGaps],
) -> Result<Vec<u8>, NoMemory>
    requires texts { texts.now ≡ machine.now.base.spec }
    requires groups { AreOfGroups machine.now.base.spec told.now }
    ensures { IfOk result (λ t. t.items ≡ spec.gaps_text machine.now.base.spec told.now) }
{
    let mut draft = Draft::new(alloc);
    put_name(&mut draft, machine.name());
    put_groups(&mut draft, machine, texts, told);
    put_count(&mut draft, unsound(told) as u64);
    draft.finish()
}
