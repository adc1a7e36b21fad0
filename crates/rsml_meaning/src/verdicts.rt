ghost use Rattle.rsml_meaning.specs.RunLaws.{LastLineIsVerdict};

/// A right report on a specification that keeps the rules counts no refusal exactly where the
/// specification is certified: so its last line is then `certified`, and only then.
pub fn last_lines_tell_the_verdict()
    ensures last_line_is_verdict { LastLineIsVerdict }
{}
