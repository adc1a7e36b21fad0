use and_or_tables::Truths;
use finding_texts::Verdict;
use rsml_syntax::World;

/// A group that is not sound: a world in which no member is enabled, or more than one, the truths of phrases in it, and the verdicts on
/// all groups.
#[derive(Clone, Copy)]
pub struct Finding<'f> {
    pub group: u32,
    pub is_double: bool,
    pub world: &'f World,
    pub truths: &'f Truths,
    pub verdicts: &'f [Verdict],
}
