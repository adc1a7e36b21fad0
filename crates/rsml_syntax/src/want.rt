/// What a place wants of the global name that stands there.
#[derive(Clone, Copy, Debug, PartialEq, Eq)]
pub enum Want {
    /// In a size or as a quantifier's bound: a constant.
    Constant,
    /// After the colon of an input: an enumeration or a range.
    Type,
    /// As an initial value: a constant, or a value of an enumeration.
    Initial,
    /// In the list of a receive, or after `previous`.
    Input,
    /// As a trigger, or raised.
    Event,
    /// In a sum: an input, a constant, or a value of an enumeration.
    Operand,
    /// After `macro`.
    Macro,
    /// After `function`.
    Function,
}
