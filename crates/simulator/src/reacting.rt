ghost use Rattle.std.specs.Prelude.{◌≡◌, ◌∷◌, [], Some, slice_get};
ghost use Rattle.rsml_meaning.specs.Interfaces.{ReceiveInstance, receives};
ghost use Rattle.reactions.specs.Stepping.{IsExternal};
ghost use Rattle.simulator.specs.helpers.Reacting.{EventIsWritten, StepIsWritten};

use crate::course::Course;
use text_writer::Writer;

/// Does the rounds of the event that is present, until none is left, and writes each with its number. There are no more of them than there
/// are events, as none loops.
fn put_rounds<W: Writer>(course: &mut Course<'_, '_>, out: &mut W)
    requires { IsExternal course.old.spec course.old.present }
    ensures none { course.new.present ≡ [] }
    ensures step { StepIsWritten course.old.spec course.old.world course.old.present course.new.world
        (W.state out.old) (W.text out.old) (W.state out.new) (W.text out.new) }
    ensures rest { course.new ≡ record course.old {
      world = course.new.world;
      present = course.new.present;
      last = course.new.last;
    } }
{
    course.law();
    let count = course.most_rounds();
    for before in 0..count {
        if !course.round() {
            return;
        }
        course.put_round(out, before + 1);
    }
}

/// Writes the line of the event that came by a receive, does its rounds, and writes these.
pub fn put_reaction<W: Writer>(course: &mut Course<'_, '_>, out: &mut W, receive: u32)
    requires { (x : ReceiveInstance) × (slice_get (receives course.old.spec) receive ≡ Some x)
        × (course.old.present ≡ x.raised ∷ []) }
    ensures none { course.new.present ≡ [] }
    ensures written { (x : ReceiveInstance) → slice_get (receives course.old.spec) receive ≡ Some x →
        EventIsWritten course.old.spec course.old.events x course.old.world course.old.present course.new.world
        (W.state out.old) (W.text out.old) (W.state out.new) (W.text out.new) }
    ensures rest { course.new ≡ record course.old {
      world = course.new.world;
      present = course.new.present;
      last = course.new.last;
    } }
{
    course.put_event(out, receive);
    put_rounds(course, out);
}
