//! The groups that are not sound.
ghost use Rattle.std.specs.Prelude.{◌≡◌, ◌<◌, Some, flat_map, length, slice_get, zip};
ghost use Rattle.rsml_meaning.specs.Groups.{Group, groups};
ghost use Rattle.text_writer.specs.Writes.{Writes};
ghost use Rattle.gap_texts.specs.Fitting.{AreOfGroups, FitsGroup};
ghost use Rattle.gap_texts.specs.GapText.{group_gaps_text};

use crate::columns::put_gaps;
use elaborate::Machine;
use finding_texts::put_head;
use instance_texts::Texts;
use text_writer::Writer;
use world_columns::GroupGaps;

// Writes what is told of a group by columns, nothing where it is sound.
fn put_group<W: Writer>(
    writer: &mut W,
    machine: &Machine<'_>,
    texts: &Texts<'_>,
    group: u32,
    told: &GroupGaps,
)
    requires texts { texts.now ≡ machine.now.base.spec }
    requires group { group < length (groups machine.now.base.spec) }
    requires columns { FitsGroup machine.now.base.spec told.now }
    ensures { (g : Group) → slice_get (groups machine.now.base.spec) group ≡ Some g
        → Writes (W.state writer.old) (W.text writer.old) (group_gaps_text machine.now.base.spec (g, told.now))
        (W.state writer.new) (W.text writer.new) }
{
    match told {
        GroupGaps::Sound => {}
        GroupGaps::Missing(gaps) => {
            put_head(writer, b"none ", machine, texts, group);
            put_gaps(writer, machine, texts, gaps);
        }
        GroupGaps::Double(gaps) => {
            put_head(writer, b"two ", machine, texts, group);
            put_gaps(writer, machine, texts, gaps);
        }
    }
}

/// Writes what is told of each group by columns, nothing of those that are sound.
pub fn put_groups<W: Writer>(
    writer: &mut W,
    machine: &Machine<'_>,
    texts: &Texts<'_>,
    told: &[GroupGaps],
)
    requires texts { texts.now ≡ machine.now.base.spec }
    requires groups { AreOfGroups machine.now.base.spec told.now }
    ensures { Writes (W.state writer.old) (W.text writer.old)
        (flat_map (group_gaps_text machine.now.base.spec) (zip (groups machine.now.base.spec) told.now))
        (W.state writer.new) (W.text writer.new) }
{
    for group in 0..machine.groups().count() {
        put_group(writer, machine, texts, group, &told[group as usize]);
    }
}
