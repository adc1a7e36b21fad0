/// The report on a specification.
#[derive(Drop)]
pub struct Report {
    /// Its text. `docs/formats.md` has the lines.
    pub text: Vec<u8>,
    /// Whether the specification is certified: no event loops, there is no clash, and all groups are sound.
    pub certified: bool,
}
