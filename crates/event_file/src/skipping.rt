ghost use Rattle.std.specs.Prelude.{◌≡◌, find, not};
ghost use Rattle.std.specs.Option.{option_copied};
ghost use Rattle.rsml_meaning.specs.EventLines.{is_blank, is_skipped};

/// A space or a tab.
fn is_blank(byte: u8) -> bool
    ensures { result ≡ is_blank byte }
{
    byte == b' ' || byte == b'\t'
}

/// The first byte that is no space or tab.
fn first_other(line: &[u8]) -> Option<&u8>
    ensures { option_copied result ≡ find (λ c. not (is_blank c)) line.now }
{
    line.iter().find(|byte| !is_blank(**byte))
}

/// Whether a line is empty but for spaces and tabs, or its first other byte is `#`.
#[tactic(auto, using(crate::proofs::SkippedLemmas::by_first_other))]
pub fn skipped(line: &[u8]) -> bool
    ensures { result ≡ is_skipped line.now }
{
    match first_other(line) {
        Some(byte) => *byte == b'#',
        None => true,
    }
}
