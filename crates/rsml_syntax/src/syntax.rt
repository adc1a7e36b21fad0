use rsml_base::{List, Text};

/// A specification as it is written: one component of a system.
pub struct Spec {
    pub name: Text,
    pub decls: List<Decl>,
    /// The name of the top state.
    pub top: Text,
    pub body: Body,
}

impl Drop for Spec {
    fn drop(self) {
        let Self {
            name: _,
            decls: _,
            top: _,
            body: _,
        } = self;
    }
}

/// A whole number as it is written: `-0` and `0` are two texts of one number.
#[derive(Debug, Drop, PartialEq, Eq)]
pub struct Signed {
    pub minus: bool,
    pub digits: u32,
}

/// A size, or the bound of a quantifier.
#[derive(Debug, PartialEq, Eq)]
pub enum Amount {
    Number(u32),
    /// A constant.
    Name(Text),
}

impl Drop for Amount {
    fn drop(self) {
        match self {
            Self::Number(_) => {}
            Self::Name(_) => {}
        }
    }
}

/// What stands in the brackets after a name.
#[derive(Debug, PartialEq, Eq, Hash)]
pub enum Index {
    Number(u32),
    /// The variable of a quantifier, or a constant.
    Name(Text),
    /// The index of what the name stands in.
    This,
}

impl Drop for Index {
    fn drop(self) {
        match self {
            Self::Number(_) => {}
            Self::Name(_) => {}
            Self::This => {}
        }
    }
}

/// A name at its place of use.
#[derive(Debug, PartialEq, Eq, Hash)]
pub struct Mention {
    pub name: Text,
    pub index: Option<Index>,
}

impl Drop for Mention {
    fn drop(self) {
        let Self { name: _, index: _ } = self;
    }
}

/// The value that an input has before the first event.
#[derive(Debug, PartialEq, Eq)]
pub enum Initial {
    Number(Signed),
    /// A constant, or a value of an enumeration.
    Name(Text),
}

impl Drop for Initial {
    fn drop(self) {
        match self {
            Self::Number(_) => {}
            Self::Name(_) => {}
        }
    }
}

/// A declaration. A size makes as many of what is declared, with indices from 1.
#[derive(Debug)]
pub enum Decl {
    Enumeration {
        name: Text,
        values: List<Text>,
    },
    Range {
        name: Text,
        low: Signed,
        high: Signed,
    },
    Constant {
        name: Text,
        value: Signed,
    },
    Input {
        name: Text,
        size: Option<Amount>,
        kind: Text,
        initial: Initial,
    },
    Event {
        name: Text,
        size: Option<Amount>,
    },
    Macro {
        name: Text,
        size: Option<Amount>,
        rows: List<Row>,
    },
    Function {
        name: Text,
        size: Option<Amount>,
        cases: List<Case>,
    },
    Receive {
        name: Text,
        size: Option<Amount>,
        inputs: List<Mention>,
        raised: Mention,
    },
    Send {
        name: Text,
        size: Option<Amount>,
        fields: List<Text>,
        cases: List<SendCase>,
    },
}

impl Drop for Decl {
    fn drop(self) {
        match self {
            Self::Enumeration { name: _, values: _ } => {}
            Self::Range {
                name: _,
                low: _,
                high: _,
            } => {}
            Self::Constant { name: _, value: _ } => {}
            Self::Input {
                name: _,
                size: _,
                kind: _,
                initial: _,
            } => {}
            Self::Event { name: _, size: _ } => {}
            Self::Macro {
                name: _,
                size: _,
                rows: _,
            } => {}
            Self::Function {
                name: _,
                size: _,
                cases: _,
            } => {}
            Self::Receive {
                name: _,
                size: _,
                inputs: _,
                raised: _,
            } => {}
            Self::Send {
                name: _,
                size: _,
                fields: _,
                cases: _,
            } => {}
        }
    }
}

/// A case of a function.
#[derive(Debug)]
pub struct Case {
    pub value: Sum,
    pub guard: Guard,
}

impl Drop for Case {
    fn drop(self) {
        let Self { value: _, guard: _ } = self;
    }
}

/// A case of an output interface.
#[derive(Debug)]
pub struct SendCase {
    pub trigger: Mention,
    pub guard: Guard,
    pub answer: Answer,
}

impl Drop for SendCase {
    fn drop(self) {
        let Self {
            trigger: _,
            guard: _,
            answer: _,
        } = self;
    }
}

/// What an output interface does in a case.
#[derive(Debug, PartialEq, Eq)]
pub enum Answer {
    /// Nothing is sent.
    Quiet,
    /// One value for each field.
    Values(List<Value>),
}

impl Drop for Answer {
    fn drop(self) {
        match self {
            Self::Quiet => {}
            Self::Values(_) => {}
        }
    }
}

#[derive(Debug, PartialEq, Eq)]
pub enum Value {
    Sum(Sum),
    Function(Mention),
}

impl Drop for Value {
    fn drop(self) {
        match self {
            Self::Sum(_) => {}
            Self::Function(_) => {}
        }
    }
}

/// A state, or with a size an array of states.
#[cycle(state)]
#[derive(Drop)]
pub struct StateDecl {
    pub name: Text,
    pub size: Option<Amount>,
    pub body: Body,
}

/// What a state is made of.
#[cycle(state)]
#[derive(Drop)]
pub enum Body {
    Basic,
    /// Exactly one child is active, at first the one named `first`.
    One {
        first: Text,
        children: List<StateDecl>,
        buses: List<Bus>,
        transitions: List<Transition>,
    },
    /// All children are active.
    All {
        children: List<StateDecl>,
    },
}

/// A group of children from which transitions lead together.
#[derive(Debug, PartialEq, Eq)]
pub struct Bus {
    pub name: Text,
    pub members: List<Text>,
}

impl Drop for Bus {
    fn drop(self) {
        let Self {
            name: _,
            members: _,
        } = self;
    }
}

/// A transition: a `move` where it has a target, else a `stay`.
#[derive(Debug)]
pub struct Transition {
    pub source: Text,
    pub target: Option<List<Text>>,
    pub trigger: Mention,
    pub guard: Guard,
    pub raises: List<Mention>,
}

impl Drop for Transition {
    fn drop(self) {
        let Self {
            source: _,
            target: _,
            trigger: _,
            guard: _,
            raises: _,
        } = self;
    }
}

#[derive(Debug)]
pub enum Guard {
    Always,
    /// An AND/OR table: true where some column is.
    Table(List<Row>),
}

impl Drop for Guard {
    fn drop(self) {
        match self {
            Self::Always => {}
            Self::Table(_) => {}
        }
    }
}

#[derive(Debug)]
pub struct Row {
    pub phrase: Phrase,
    pub cells: List<Cell>,
}

impl Drop for Row {
    fn drop(self) {
        let Self {
            phrase: _,
            cells: _,
        } = self;
    }
}

/// What a column asks of a row's phrase.
#[derive(Clone, Copy, Debug, PartialEq, Eq)]
pub enum Cell {
    /// That it is true.
    T,
    /// That it is false.
    F,
    /// Nothing.
    Dot,
}

#[derive(Debug)]
pub enum Phrase {
    Plain(Simple),
    /// Written `some`: true where the body is for some value of the variable, from 1 to the bound.
    Any {
        variable: Text,
        bound: Amount,
        body: Simple,
    },
    /// True where the body is for every value of the variable, from 1 to the bound.
    Every {
        variable: Text,
        bound: Amount,
        body: Simple,
    },
}

impl Drop for Phrase {
    fn drop(self) {
        match self {
            Self::Plain(_) => {}
            Self::Any {
                variable: _,
                bound: _,
                body: _,
            } => {}
            Self::Every {
                variable: _,
                bound: _,
                body: _,
            } => {}
        }
    }
}

#[derive(Debug)]
pub enum Simple {
    /// The state at the end of this path is active.
    In(List<Mention>),
    Macro(Mention),
    Compare {
        left: Sum,
        relation: Relation,
        right: Sum,
    },
    Function {
        function: Mention,
        relation: Relation,
        right: Sum,
    },
}

impl Drop for Simple {
    fn drop(self) {
        match self {
            Self::In(_) => {}
            Self::Macro(_) => {}
            Self::Compare {
                left: _,
                relation: _,
                right: _,
            } => {}
            Self::Function {
                function: _,
                relation: _,
                right: _,
            } => {}
        }
    }
}

#[derive(Clone, Copy, Debug, PartialEq, Eq, Hash)]
pub enum Relation {
    Equal,
    NotEqual,
    Less,
    LessEqual,
    Greater,
    GreaterEqual,
}

#[derive(Debug, Drop, PartialEq, Eq)]
pub struct Sum {
    pub terms: List<Term>,
}

#[derive(Debug, Drop, PartialEq, Eq)]
pub struct Term {
    pub minus: bool,
    pub operand: Operand,
}

#[derive(Debug, PartialEq, Eq)]
pub enum Operand {
    Number(u32),
    /// An input, a constant, or a value of an enumeration.
    Mention(Mention),
    /// The number that an input had before its last event.
    Previous(Mention),
}

impl Drop for Operand {
    fn drop(self) {
        match self {
            Self::Number(_) => {}
            Self::Mention(_) => {}
            Self::Previous(_) => {}
        }
    }
}
