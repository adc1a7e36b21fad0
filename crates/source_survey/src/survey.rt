//! What stands in a specification, as lists in the order of the text.

use rsml_base::{NoMemory, Text};
use rsml_names::{answered, buses_of, name_of, size_of, transitions_of, values_of};
use rsml_syntax::{
    Amount, Body, Case, Decl, Guard, Index, Initial, Mention, Operand, Phrase, Row, SendCase,
    Simple, Spec, StateDecl, Sum, Transition, Value, Want,
};
use std::alloc::Global;

/// A name with the number of what it stands for, or of the values of a variable.
#[derive(Clone, Copy)]
pub struct Sized<'a> {
    pub name: &'a Text,
    pub size: &'a Amount,
}

/// What is around a place.
#[derive(Clone, Copy)]
pub struct Around<'a> {
    /// What `this` is an index of.
    pub array: Option<Sized<'a>>,
    /// The variable of the quantifier.
    pub variable: Option<Sized<'a>>,
}

/// A global name where it is used.
#[derive(Clone, Copy)]
pub struct Use<'a> {
    pub name: &'a Text,
    pub mention: Option<&'a Mention>,
    pub want: Want,
    pub around: Around<'a>,
}

/// A table, and the name that owns it.
#[derive(Clone, Copy)]
pub struct Table<'a> {
    pub owner: &'a Text,
    pub rows: &'a [Row],
}

/// A sum beside the tables, and the name that owns it.
#[derive(Clone, Copy)]
pub struct OwnedSum<'a> {
    pub owner: &'a Text,
    pub sum: &'a Sum,
}

/// The path of an `in` phrase.
#[derive(Clone, Copy)]
pub struct InPath<'a> {
    pub steps: &'a [Mention],
    pub around: Around<'a>,
}

/// A state; its parent by its place among the states.
#[derive(Clone, Copy)]
pub struct StateAt<'a> {
    pub name: &'a Text,
    pub size: Option<&'a Amount>,
    pub body: &'a Body,
    pub parent: Option<usize>,
}

/// A transition, and the place of its component among the states.
#[derive(Clone, Copy)]
pub struct TransitionAt<'a> {
    pub transition: &'a Transition,
    pub state: usize,
}

/// What a name is declared as.
#[derive(Clone, Copy, PartialEq, Eq)]
pub enum Sort {
    Enumeration,
    EnumerationValue,
    Range,
    Constant,
    Input,
    Event,
    Macro,
    Function,
    Receive,
    Send,
    Field,
    Variable,
    State,
    Array,
    Bus,
}

impl Sort {
    pub fn words(self) -> &'static str {
        match self {
            Sort::Enumeration => "an enumeration",
            Sort::EnumerationValue => "a value of an enumeration",
            Sort::Range => "a range",
            Sort::Constant => "a constant",
            Sort::Input => "an input",
            Sort::Event => "an event",
            Sort::Macro => "a macro",
            Sort::Function => "a function",
            Sort::Receive => "a receive",
            Sort::Send => "a send",
            Sort::Field => "a field",
            Sort::Variable => "the variable of a quantifier",
            Sort::State => "a state",
            Sort::Array => "an array",
            Sort::Bus => "a bus",
        }
    }
}

/// Where a name may be declared once.
#[derive(Clone, Copy, PartialEq, Eq)]
pub enum Space {
    Global,
    /// The send whose name stands at this offset.
    Send(u32),
    /// The state with this place among the states.
    State(usize),
}

/// A name where it is declared.
#[derive(Clone, Copy)]
pub struct Declared<'a> {
    pub name: &'a Text,
    pub sort: Sort,
    pub space: Space,
    pub size: Option<&'a Amount>,
}

/// What stands in a specification.
pub struct Survey<'a> {
    pub declared: Vec<Declared<'a>>,
    pub uses: Vec<Use<'a>>,
    pub tables: Vec<Table<'a>>,
    pub sums: Vec<OwnedSum<'a>>,
    pub paths: Vec<InPath<'a>>,
    pub states: Vec<StateAt<'a>>,
    pub transitions: Vec<TransitionAt<'a>>,
    /// Whether memory was refused: then something is missing.
    is_refused: bool,
}

impl Drop for Survey<'_> {
    fn drop(self) {
        let Self {
            declared: _,
            uses: _,
            tables: _,
            sums: _,
            paths: _,
            states: _,
            transitions: _,
            is_refused: _,
        } = self;
    }
}

/// What a declaration declares.
pub fn sort_of(decl: &Decl) -> Sort {
    match decl {
        Decl::Enumeration { .. } => Sort::Enumeration,
        Decl::Range { .. } => Sort::Range,
        Decl::Constant { .. } => Sort::Constant,
        Decl::Input { .. } => Sort::Input,
        Decl::Event { .. } => Sort::Event,
        Decl::Macro { .. } => Sort::Macro,
        Decl::Function { .. } => Sort::Function,
        Decl::Receive { .. } => Sort::Receive,
        Decl::Send { .. } => Sort::Send,
    }
}

/// What a name stands for that has a size.
fn with_size<'a>(name: &'a Text, size: Option<&'a Amount>) -> Option<Sized<'a>> {
    match size {
        Some(size) => Some(Sized { name, size }),
        None => None,
    }
}

/// What is around a place outside quantifiers.
fn inside<'a>(array: Option<Sized<'a>>) -> Around<'a> {
    Around {
        array,
        variable: None,
    }
}

impl<'a> Survey<'a> {
    /// What stands in a specification.
    pub fn new(alloc: Global, spec: &'a Spec) -> Result<Survey<'a>, NoMemory> {
        let mut survey = Survey {
            declared: Vec::new(alloc),
            uses: Vec::new(alloc),
            tables: Vec::new(alloc),
            sums: Vec::new(alloc),
            paths: Vec::new(alloc),
            states: Vec::new(alloc),
            transitions: Vec::new(alloc),
            is_refused: false,
        };
        survey.specification(spec);
        if survey.is_refused {
            return Err(NoMemory);
        }
        Ok(survey)
    }

    fn declare(&mut self, declared: Declared<'a>) {
        if self.declared.push(declared).is_err() {
            self.is_refused = true;
        }
    }

    fn used(&mut self, used: Use<'a>) {
        if self.uses.push(used).is_err() {
            self.is_refused = true;
        }
    }

    fn own_sum(&mut self, owned: OwnedSum<'a>) {
        if self.sums.push(owned).is_err() {
            self.is_refused = true;
        }
    }

    fn own_table(&mut self, table: Table<'a>) {
        if self.tables.push(table).is_err() {
            self.is_refused = true;
        }
    }

    fn path(&mut self, path: InPath<'a>) {
        if self.paths.push(path).is_err() {
            self.is_refused = true;
        }
    }

    fn own_state(&mut self, state: StateAt<'a>) {
        if self.states.push(state).is_err() {
            self.is_refused = true;
        }
    }

    fn own_transition(&mut self, at: TransitionAt<'a>) {
        if self.transitions.push(at).is_err() {
            self.is_refused = true;
        }
    }

    fn specification(&mut self, spec: &'a Spec) {
        for decl in spec.decls.as_slice() {
            self.declaration(decl);
        }
        let top = StateAt {
            name: &spec.top,
            size: None,
            body: &spec.body,
            parent: None,
        };
        self.state(top, &spec.body, None);
    }

    /// Names without size.
    fn plain_names(&mut self, names: &'a [Text], sort: Sort, space: Space) {
        for name in names {
            self.declare(Declared {
                name,
                sort,
                space,
                size: None,
            });
        }
    }

    fn named(&mut self, name: &'a Text, want: Want, around: Around<'a>) {
        self.used(Use {
            name,
            mention: None,
            want,
            around,
        });
    }

    fn mentioned(&mut self, mention: &'a Mention, want: Want, around: Around<'a>) {
        self.used(Use {
            name: &mention.name,
            mention: Some(mention),
            want,
            around,
        });
    }

    fn each_mentioned(&mut self, mentions: &'a [Mention], want: Want, around: Around<'a>) {
        for mention in mentions {
            self.mentioned(mention, want, around);
        }
    }

    fn amount(&mut self, amount: &'a Amount, around: Around<'a>) {
        match amount {
            Amount::Number(_) => {}
            Amount::Name(name) => self.named(name, Want::Constant, around),
        }
    }

    fn operand(&mut self, operand: &'a Operand, around: Around<'a>) {
        match operand {
            Operand::Number(_) => {}
            Operand::Mention(mention) => self.mentioned(mention, Want::Operand, around),
            Operand::Previous(mention) => self.mentioned(mention, Want::Input, around),
        }
    }

    fn sum(&mut self, sum: &'a Sum, around: Around<'a>) {
        for term in sum.terms.as_slice() {
            self.operand(&term.operand, around);
        }
    }

    fn simple(&mut self, simple: &'a Simple, around: Around<'a>) {
        match simple {
            Simple::In(path) => self.path(InPath {
                steps: path.as_slice(),
                around,
            }),
            Simple::Macro(mention) => self.mentioned(mention, Want::Macro, around),
            Simple::Compare { left, right, .. } => {
                self.sum(left, around);
                self.sum(right, around);
            }
            Simple::Function {
                function,
                right,
                ..
            } => {
                self.mentioned(function, Want::Function, around);
                self.sum(right, around);
            }
        }
    }

    fn quantified(&mut self, variable: Sized<'a>, body: &'a Simple, around: Around<'a>) {
        self.declare(Declared {
            name: variable.name,
            sort: Sort::Variable,
            space: Space::Global,
            size: Some(variable.size),
        });
        self.amount(variable.size, around);
        let around = Around {
            array: around.array,
            variable: Some(variable),
        };
        self.simple(body, around);
    }

    fn phrase(&mut self, phrase: &'a Phrase, around: Around<'a>) {
        let (name, size, body) = match phrase {
            Phrase::Plain(body) => return self.simple(body, around),
            Phrase::Any {
                variable,
                bound,
                body,
            } => (variable, bound, body),
            Phrase::Every {
                variable,
                bound,
                body,
            } => (variable, bound, body),
        };
        self.quantified(Sized { name, size }, body, around);
    }

    fn table(&mut self, owner: &'a Text, rows: &'a [Row], around: Around<'a>) {
        self.own_table(Table { owner, rows });
        for row in rows {
            self.phrase(&row.phrase, around);
        }
    }

    fn guard(&mut self, owner: &'a Text, guard: &'a Guard, around: Around<'a>) {
        match guard {
            Guard::Always => {}
            Guard::Table(rows) => self.table(owner, rows.as_slice(), around),
        }
    }

    fn owned_sum(&mut self, owner: &'a Text, sum: &'a Sum, around: Around<'a>) {
        self.own_sum(OwnedSum { owner, sum });
        self.sum(sum, around);
    }

    fn cases(&mut self, owner: &'a Text, cases: &'a [Case], around: Around<'a>) {
        for case in cases {
            self.owned_sum(owner, &case.value, around);
            self.guard(owner, &case.guard, around);
        }
    }

    fn value(&mut self, owner: &'a Text, value: &'a Value, around: Around<'a>) {
        match value {
            Value::Sum(sum) => self.owned_sum(owner, sum, around),
            Value::Function(function) => self.mentioned(function, Want::Function, around),
        }
    }

    fn send_case(&mut self, owner: &'a Text, case: &'a SendCase, around: Around<'a>) {
        self.mentioned(&case.trigger, Want::Event, around);
        self.guard(owner, &case.guard, around);
        for value in answered(&case.answer) {
            self.value(owner, value, around);
        }
    }

    fn send_cases(&mut self, owner: &'a Text, cases: &'a [SendCase], around: Around<'a>) {
        for case in cases {
            self.send_case(owner, case, around);
        }
    }

    fn initial(&mut self, initial: &'a Initial, around: Around<'a>) {
        match initial {
            Initial::Number(_) => {}
            Initial::Name(name) => self.named(name, Want::Initial, around),
        }
    }

    fn contents(&mut self, decl: &'a Decl, around: Around<'a>) {
        match decl {
            Decl::Input { kind, initial, .. } => {
                self.named(kind, Want::Type, around);
                self.initial(initial, around);
            }
            Decl::Macro { name, rows, .. } => self.table(name, rows.as_slice(), around),
            Decl::Function { name, cases, .. } => self.cases(name, cases.as_slice(), around),
            Decl::Receive { inputs, raised, .. } => {
                self.each_mentioned(inputs.as_slice(), Want::Input, around);
                self.mentioned(raised, Want::Event, around);
            }
            Decl::Send {
                name,
                fields,
                cases,
                ..
            } => {
                self.plain_names(fields.as_slice(), Sort::Field, Space::Send(name.at()));
                self.send_cases(name, cases.as_slice(), around);
            }
            _ => {}
        }
    }

    fn declaration(&mut self, decl: &'a Decl) {
        let name = name_of(decl);
        let size = size_of(decl);
        self.declare(Declared {
            name,
            sort: sort_of(decl),
            space: Space::Global,
            size,
        });
        self.plain_names(values_of(decl), Sort::EnumerationValue, Space::Global);
        let around = inside(with_size(name, size));
        if let Some(size) = size {
            self.amount(size, around);
        }
        self.contents(decl, around);
    }

    fn transition(&mut self, at: TransitionAt<'a>, around: Around<'a>) {
        let transition = at.transition;
        self.own_transition(at);
        self.mentioned(&transition.trigger, Want::Event, around);
        self.guard(&transition.source, &transition.guard, around);
        self.each_mentioned(transition.raises.as_slice(), Want::Event, around);
    }

    /// The buses and the transitions of the state at a place.
    fn component(&mut self, body: &'a Body, state: usize, around: Around<'a>) {
        for bus in buses_of(body) {
            self.declare(Declared {
                name: &bus.name,
                sort: Sort::Bus,
                space: Space::State(state),
                size: None,
            });
        }
        for transition in transitions_of(body) {
            self.transition(TransitionAt { transition, state }, around);
        }
    }

    /// A state with all that is in it: this is its body.
    #[cycle(survey)]
    fn state(&mut self, state: StateAt<'a>, body: &'a Body, array: Option<Sized<'a>>) {
        let place = self.states.len();
        self.own_state(state);
        let array = with_size(state.name, state.size).or(array);
        let around = inside(array);
        if let Some(size) = state.size {
            self.amount(size, around);
        }
        match body {
            Body::Basic => {}
            Body::All { children } => self.children(children.as_slice(), place, array),
            Body::One { children, .. } => self.children(children.as_slice(), place, array),
        }
        self.component(body, place, around);
    }

    #[cycle(survey)]
    fn children(&mut self, children: &'a [StateDecl], place: usize, array: Option<Sized<'a>>) {
        for child in children {
            let size = child.size.as_ref();
            self.declare(Declared {
                name: &child.name,
                sort: if size.is_some() {
                    Sort::Array
                } else {
                    Sort::State
                },
                space: Space::State(place),
                size,
            });
            let state = StateAt {
                name: &child.name,
                size,
                body: &child.body,
                parent: Some(place),
            };
            self.state(state, &child.body, array);
        }
    }
}

/// The index of a mention.
pub fn index_of(mention: &Mention) -> Option<&Index> {
    mention.index.as_ref()
}
