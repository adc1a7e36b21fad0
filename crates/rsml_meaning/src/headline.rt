ghost use Rattle.rsml_meaning.specs.RunLaws.{CertifiedIsDeterministic};

/// A specification that keeps the rules and is certified is deterministic: in every world exactly one
/// transition is enabled on each lowest active line for each event, every well-formed event file has
/// exactly one run, and each step ends within the length of its event.
pub fn certified_specifications_are_deterministic()
    ensures { CertifiedIsDeterministic }
{}
