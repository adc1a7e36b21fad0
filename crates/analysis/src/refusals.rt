//! How many refusals a report has.
ghost use Rattle.std.specs.Prelude.{◌≡◌, ◌<◌, ◌≤◌, ◌^◌, filter, length};
ghost use Rattle.analysis.specs.Refusals as spec;

use crate::found::Found;
use finding_texts::Verdict;

// Whether a group is not sound.
fn is_finding(verdict: &Verdict) -> bool
    ensures { result ≡ spec.is_found verdict.now }
{
    !matches!(verdict, Verdict::Sound)
}

// How many groups are not sound.
fn findings(verdicts: &[Verdict]) -> usize
    ensures count { result ≡ length (filter spec.is_found verdicts.now) }
    ensures few { result ≤ length verdicts.now }
{
    let mut count = 0;
    for verdict in verdicts {
        if is_finding(verdict) {
            count += 1;
        }
    }
    count
}

/// How many events loop, external events clash, and groups are not sound.
pub fn refusals(found: &Found<'_>) -> u64
    requires loops { length found.now.loops.now ≤ 1024 }
    requires clashes { length found.now.clashes.now ≤ 1024 }
    requires verdicts { length found.now.verdicts.now < 2 ^ 32 }
    ensures { result ≡ spec.refusals_of found.now.loops.now found.now.clashes.now found.now.verdicts.now }
{
    (found.loops.len() + found.clashes.len() + findings(found.verdicts)) as u64
}
