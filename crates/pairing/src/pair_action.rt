/// What a command does with two texts.
#[derive(Clone, Copy, Debug, PartialEq, Eq)]
pub enum PairAction {
    /// Writes whether claims of states are inductive in a specification.
    Prove,
    /// Does the same, and writes comment lines behind it.
    ExplainProve,
    /// Writes whether two specifications behave alike.
    Same,
    /// Does the same, and writes comment lines behind it.
    ExplainSame,
}
