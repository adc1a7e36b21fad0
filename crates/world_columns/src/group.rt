use crate::column::Gaps;

/// What is told of a group: that it is sound, or the columns of the worlds in which it enables no member, or else two members or more.
#[derive(Debug, Drop)]
pub enum GroupGaps {
    Sound,
    Missing(Gaps),
    Double(Gaps),
}
