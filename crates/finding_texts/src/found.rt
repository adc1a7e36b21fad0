//! What is found of a group that is not sound.
ghost use Rattle.std.specs.Prelude.{◌≡◌, ◌<◌, ◌++◌, Some, length, slice_get};
ghost use Rattle.rsml_meaning.specs.Findings.{none, two};
ghost use Rattle.rsml_meaning.specs.Groups.{Group, groups};
ghost use Rattle.rsml_meaning.specs.Texts.{text_line};
ghost use Rattle.rsml_meaning.specs.Report.{confirmed, finding, group_text, world_text};
ghost use Rattle.rsml_meaning.specs.Worlds.{IsWorld};
ghost use Rattle.rsml_ground.specs.Truths.{truths_in};
ghost use Rattle.text_writer.specs.Writes.{Writes};

use crate::cells::put_cells;
use crate::choices::put_choices;
use crate::groups::put_group;
use crate::members::put_enabled;
use and_or_tables::Truths;
use elaborate::Machine;
use instance_texts::Texts;
use rsml_syntax::World;
use text_writer::{Writer, put_line_end};

/// Writes a line of a word and of what a group is.
pub fn put_head<W: Writer>(
    writer: &mut W,
    word: &[u8],
    machine: &Machine<'_>,
    texts: &Texts<'_>,
    group: u32,
)
    requires texts { texts.now ≡ machine.now.base.spec }
    requires group { group < length (groups machine.now.base.spec) }
    ensures { (g : Group) → slice_get (groups machine.now.base.spec) group ≡ Some g
        → Writes (W.state writer.old) (W.text writer.old) (text_line (word.now ++ group_text g))
        (W.state writer.new) (W.text writer.new) }
{
    writer.put(word);
    put_group(writer, machine, texts, group);
    put_line_end(writer);
}

/// Writes what of a world is not least: the rows of a finding.
pub fn put_world<W: Writer>(writer: &mut W, machine: &Machine<'_>, texts: &Texts<'_>, world: &World)
    requires texts { texts.now ≡ machine.now.base.spec }
    requires world { IsWorld machine.now.base.spec world.now }
    ensures { Writes (W.state writer.old) (W.text writer.old)
        (world_text machine.now.base.spec world.now)
        (W.state writer.new) (W.text writer.new) }
{
    put_choices(writer, machine.tree(), world.choices.as_slice());
    put_cells(writer, machine, texts, world.cells.as_slice());
}

// Writes the last line of a finding.
fn put_confirmed<W: Writer>(writer: &mut W)
    ensures { Writes (W.state writer.old) (W.text writer.old) confirmed
        (W.state writer.new) (W.text writer.new) }
{
    writer.put(b"  confirmed");
    put_line_end(writer);
}

/// Writes that no member of a group is enabled in a world.
pub fn put_missing<W: Writer>(
    writer: &mut W,
    machine: &Machine<'_>,
    texts: &Texts<'_>,
    group: u32,
    world: &World,
)
    requires texts { texts.now ≡ machine.now.base.spec }
    requires group { group < length (groups machine.now.base.spec) }
    requires world { IsWorld machine.now.base.spec world.now }
    ensures { (g : Group) → slice_get (groups machine.now.base.spec) group ≡ Some g
        → Writes (W.state writer.old) (W.text writer.old)
        (finding machine.now.base.spec (g, none world.now))
        (W.state writer.new) (W.text writer.new) }
{
    put_head(writer, b"none ", machine, texts, group);
    put_world(writer, machine, texts, world);
    put_confirmed(writer);
}

/// Writes that two members of a group or more are enabled in a world, and which, by the truths there of all phrases.
pub fn put_double<W: Writer>(
    writer: &mut W,
    machine: &Machine<'_>,
    texts: &Texts<'_>,
    truths: &Truths,
    group: u32,
    world: &World,
)
    requires texts { texts.now ≡ machine.now.base.spec }
    requires group { group < length (groups machine.now.base.spec) }
    requires world { IsWorld machine.now.base.spec world.now }
    requires truths { truths.now ≡ truths_in machine.now.base world.now }
    ensures { (g : Group) → slice_get (groups machine.now.base.spec) group ≡ Some g
        → Writes (W.state writer.old) (W.text writer.old)
        (finding machine.now.base.spec (g, two world.now))
        (W.state writer.new) (W.text writer.new) }
{
    put_head(writer, b"two ", machine, texts, group);
    put_world(writer, machine, texts, world);
    put_enabled(writer, machine, world, truths, group);
    put_confirmed(writer);
}
