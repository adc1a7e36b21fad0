//! What is found of the groups.
ghost use Rattle.std.specs.Prelude.{◌≡◌, flat_map, length, map, zip};
ghost use Rattle.std.specs.List.{AllZip};
ghost use Rattle.rsml_meaning.specs.Findings.{IsVerdict};
ghost use Rattle.rsml_meaning.specs.Groups.{groups};
ghost use Rattle.rsml_meaning.specs.Report.{finding};
ghost use Rattle.finding_texts.specs.Verdicts.{verdict_of};
ghost use Rattle.text_writer.specs.Writes.{Writes};

use finding_texts::{Findings, Verdict};
use text_writer::Writer;

/// Writes what is found of each of so many groups.
pub fn put_findings<W: Writer>(
    writer: &mut W,
    findings: &mut Findings<'_, '_>,
    count: u32,
    verdicts: &[Verdict],
)
    requires groups { count ≡ length (groups findings.old.base.spec) }
    requires verdicts { AllZip (IsVerdict findings.old.base.spec) (groups findings.old.base.spec) (map verdict_of verdicts.now) }
    ensures { Writes (W.state writer.old) (W.text writer.old)
        (flat_map (finding findings.old.base.spec) (zip (groups findings.old.base.spec) (map verdict_of verdicts.now)))
        (W.state writer.new) (W.text writer.new) }
{
    for group in 0..count {
        findings.put(writer, group, &verdicts[group as usize]);
    }
}
