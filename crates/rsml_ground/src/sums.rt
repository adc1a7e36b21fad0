use rsml_syntax::List;

/// A number, or the cell at a place among the cells.
#[derive(Clone, Copy, Debug, PartialEq, Eq, Hash)]
pub enum GroundOperand {
    Number(i64),
    Cell(u32),
}

/// An operand with its sign.
#[derive(Clone, Copy, Debug, PartialEq, Eq, Hash)]
pub struct GroundTerm {
    pub minus: bool,
    pub operand: GroundOperand,
}

/// A sum of signed terms.
#[derive(Debug, Drop, PartialEq, Eq, Hash)]
pub struct GroundSum {
    pub terms: List<GroundTerm>,
}
