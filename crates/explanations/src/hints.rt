//! Hints at what is meant where another notation has a token: a table, of which the first that fits is told.

use crate::hints::Test::{
    After, AfterMacro, Before, BeforeNamed, Can, Cannot, First, Here, Named, Near, Only,
};
use crate::site::{Fault, declares_macro};
use crate::token_kind::TokenKind::{Mark, Name, Number, Word};
use crate::token_kind::{DECLARATIONS, RELATIONS, TokenKind, has_kind};
use rsml_syntax::Mark::{
    Arrow, Bar, CloseBrace, CloseBracket, CloseParen, Colon, Comma, Dot, DotDot, Equal, Greater,
    Less, LessEqual, Minus, OpenBrace, OpenBracket, OpenParen, Semicolon,
};
use rsml_syntax::Word::{
    All, Always, Array, Bus, Default, Enumeration, Every, Function, In, Move, On, One, Raise,
    Range, Specification, State, Stay, T, This, When,
};

/// What is asked of a place where a token cannot stand.
#[derive(Clone, Copy)]
enum Test {
    /// The token there is of one of these kinds.
    Here(&'static [TokenKind]),
    /// So is the one before it.
    Before(&'static [TokenKind]),
    /// So is the one behind it.
    After(&'static [TokenKind]),
    /// So is the one so many places behind it, or before it.
    Near(isize, &'static [TokenKind]),
    /// Nothing stands before it.
    First,
    /// A token of one of these kinds can stand there.
    Can(&'static [TokenKind]),
    /// None of these can.
    Cannot(&'static [TokenKind]),
    /// This kind alone can.
    Only(TokenKind),
    /// The token there is one of these names.
    Named(&'static [&'static str]),
    /// So is the one before it.
    BeforeNamed(&'static [&'static str]),
    /// The one before it is the name of a macro.
    AfterMacro,
}

/// What is said where all tests hold.
struct Hint {
    tests: &'static [Test],
    words: &'static str,
}

/// How phrases are joined by "or".
const OR: &str = "the columns of a table are joined by \"or\": write a column of cells for each";

/// What stands for a case that holds where the others do not.
const ELSE: &str = "there is no `else`: the last case has a table of its own";

/// How a range is written.
const RANGE: &str = "a range is written with `..`, as in `0 .. 9`";

/// How a state with children begins.
const HEAD: &str = "a state with children is written `state NAME one {` or `state NAME all {`";

/// How all of something are asked for.
const EVERY: &str = "`every NAME of BOUND : PHRASE` asks for all";

/// How equality is written.
const EQUAL: &str = "the relation is written `=`";

/// How a text begins.
const SPECIFICATION: &str = "a text begins with `specification NAME;`";

/// What can stand in brackets.
const INDEX: &[TokenKind] = &[Name, Number, Word(This)];

/// The names of other notations for the case that holds where the others do not.
const ELSES: &[&str] = &["else", "otherwise", "ELSE"];

/// Words and marks that other notations have.
const OTHER_WORDS: &[Hint] = &[
    Hint {
        tests: &[BeforeNamed(&["not", "NOT"]), Can(&[Mark(LessEqual)])],
        words: "a cell `F` asks that a phrase is false",
    },
    Hint {
        tests: &[
            Here(&[Mark(Bar)]),
            BeforeNamed(ELSES),
            Can(&[Mark(LessEqual)]),
        ],
        words: ELSE,
    },
    Hint {
        tests: &[
            Here(&[Name]),
            BeforeNamed(&["prev", "pre", "last", "old"]),
            Can(&[Mark(LessEqual)]),
        ],
        words: "an earlier value is written `previous NAME`",
    },
    Hint {
        tests: &[
            Here(&[Name]),
            BeforeNamed(&["any", "exists"]),
            Can(&[Mark(LessEqual)]),
        ],
        words: "`some NAME of BOUND : PHRASE` asks for one",
    },
    Hint {
        tests: &[
            Here(&[Name]),
            BeforeNamed(&["all", "each", "for", "forall"]),
            Can(&[Mark(LessEqual)]),
        ],
        words: EVERY,
    },
    Hint {
        tests: &[Named(ELSES)],
        words: ELSE,
    },
    Hint {
        tests: &[Named(&["true", "TRUE", "True"]), Can(&[Word(Always)])],
        words: "write `always` for a guard that is always true",
    },
    Hint {
        tests: &[Named(&["transition", "trans"]), Can(&[Word(Move)])],
        words: "a transition is a `move` to another state or a `stay`",
    },
    Hint {
        tests: &[
            Named(&["and", "AND", "parallel", "concurrent"]),
            Can(&[Word(All)]),
            Can(&[Word(One)]),
        ],
        words: "write `all` for a state of which all children are active",
    },
    Hint {
        tests: &[
            Named(&["or", "xor", "OR", "XOR"]),
            Can(&[Word(All)]),
            Can(&[Word(One)]),
        ],
        words: "write `one` for a state of which one child is active",
    },
    Hint {
        tests: &[
            Here(&[Name, Mark(OpenBrace)]),
            Can(&[Word(All)]),
            Can(&[Word(One)]),
        ],
        words: HEAD,
    },
    Hint {
        tests: &[Named(&["type", "typedef"]), Can(&[Word(Enumeration)])],
        words: "a type is declared by `enumeration` or `range`",
    },
    Hint {
        tests: &[Named(&["var", "variable"]), Can(&[Word(Enumeration)])],
        words: "what comes from outside is declared by `input`; what is kept is a state",
    },
    Hint {
        tests: &[Named(&["out", "output"]), Can(&[Word(Enumeration)])],
        words: "what goes out is declared by `send`",
    },
    Hint {
        tests: &[
            Here(&[Mark(OpenBrace), Mark(OpenBracket), Mark(Minus), Number]),
            Before(&[Mark(Colon)]),
            Only(Name),
        ],
        words: "a type has a name: it is declared by `range NAME 0 .. 9;` or `enumeration NAME { A, B }`",
    },
    Hint {
        tests: &[Near(-2, &[Mark(Colon)]), Only(Mark(Equal))],
        words: "an input has an initial value: `input NAME : TYPE = VALUE;`",
    },
    Hint {
        tests: &[Here(&[Mark(OpenBracket)]), Near(-2, &[Word(Range)])],
        words: RANGE,
    },
    Hint {
        tests: &[
            Here(&[Mark(Minus)]),
            Can(&[Mark(DotDot)]),
            Cannot(&[Word(T)]),
        ],
        words: RANGE,
    },
    Hint {
        tests: &[
            Here(&[Mark(Minus)]),
            After(&[Mark(Minus)]),
            Cannot(&[Word(T)]),
        ],
        words: "a comment begins with `#`",
    },
];

/// What is meant where no other token mends the fault.
const HINTS: &[Hint] = &[
    Hint {
        tests: &[Here(&[Mark(DotDot)]), Can(&[Word(T)])],
        words: "cells need a space between them: `. .`, since `..` is a mark of its own",
    },
    Hint {
        tests: &[Here(&[Mark(Bar)]), Before(&[Mark(Bar)]), Can(&[Word(T)])],
        words: OR,
    },
    Hint {
        tests: &[Can(&[Word(T)])],
        words: "a cell is `T`, `F` or `.`",
    },
    Hint {
        tests: &[Can(&[Mark(DotDot)])],
        words: RANGE,
    },
    Hint {
        tests: &[Here(&[Mark(Equal)]), Before(&[Mark(Equal)])],
        words: EQUAL,
    },
    Hint {
        tests: &[Here(&[Mark(Greater)]), Before(&[Mark(Equal)])],
        words: "the relation is written `>=`",
    },
    Hint {
        tests: &[Here(&[Mark(Less)]), Before(&[Mark(Equal)])],
        words: "the relation is written `<=`",
    },
    Hint {
        tests: &[Here(&[Mark(Greater)]), Before(&[Mark(Less)])],
        words: "the relation is written `!=`",
    },
    Hint {
        tests: &[Can(&[Mark(Arrow)])],
        words: "a move is written `move SOURCE -> TARGET on EVENT when GUARD;`",
    },
    Hint {
        tests: &[Here(&[Word(When)]), Can(&[Word(On)])],
        words: "the event stands before the guard: `on EVENT when GUARD`",
    },
    Hint {
        tests: &[Here(&[Mark(Arrow)]), Can(&[Word(On)]), Cannot(&[Mark(Dot)])],
        words: "a `stay` has no target; a change of state is a `move`",
    },
    Hint {
        tests: &[Here(&[Mark(Comma)]), Can(&[Word(When)])],
        words: "a transition is on one event: write one for each",
    },
    Hint {
        tests: &[Here(&[Word(Raise)]), Can(&[Word(When)])],
        words: "the guard comes before `raise`; `when always` is the guard that is always true",
    },
    Hint {
        tests: &[Here(&[Mark(Semicolon)]), Can(&[Word(When)])],
        words: "`when always` is the guard that is always true",
    },
    Hint {
        tests: &[Here(DECLARATIONS), Can(&[Word(State), Word(Move)])],
        words: "declarations stand before the top state",
    },
    Hint {
        tests: &[Here(&[Word(Default)]), Can(&[Word(State), Word(Move)])],
        words: "`default NAME;` stands once, as the first of a `one` state",
    },
    Hint {
        tests: &[Here(&[Word(State), Word(Array)]), Can(&[Word(Move)])],
        words: "the children of a state stand before its buses and transitions",
    },
    Hint {
        tests: &[Here(&[Word(Bus)]), Can(&[Word(Move)])],
        words: "the buses of a state stand before its transitions",
    },
    Hint {
        tests: &[
            Here(&[Word(Bus), Word(Move), Word(Stay)]),
            Can(&[Word(Array)]),
            Cannot(&[Word(Move)]),
        ],
        words: "buses and transitions stand in a `one` state",
    },
    Hint {
        tests: &[Here(&[Mark(Dot)]), Before(&[Mark(DotDot)])],
        words: "a range has two dots, as in `0 .. 9`",
    },
    Hint {
        tests: &[Here(&[Mark(Dot)]), Before(&[Number])],
        words: "numbers are whole",
    },
    Hint {
        tests: &[Here(&[Mark(Dot)]), After(&[Number])],
        words: "numbers are whole",
    },
    Hint {
        tests: &[Here(&[Mark(Dot)]), Can(&[Mark(LessEqual)])],
        words: "a path stands behind `in`, as in `in Cabin.Door`",
    },
    Hint {
        tests: &[Here(&[Mark(OpenParen)]), Before(&[Word(In)])],
        words: "a path stands behind `in` without parentheses",
    },
    Hint {
        tests: &[Here(&[Mark(OpenParen)]), Can(&[Number])],
        words: "a sum has no parentheses",
    },
    Hint {
        tests: &[
            Here(&[Mark(OpenParen)]),
            After(INDEX),
            Near(2, &[Mark(CloseParen)]),
            Can(&[Mark(OpenBracket)]),
            Can(&[Mark(Minus)]),
        ],
        words: "an index stands in brackets, as in `[1]`; there is nothing to call",
    },
    Hint {
        tests: &[
            Here(&[Mark(OpenParen)]),
            Can(&[Mark(OpenBracket)]),
            Can(&[Mark(Minus)]),
        ],
        words: "there is nothing to call: a sum has `+` and `-` alone",
    },
    Hint {
        tests: &[
            Here(&[Mark(OpenParen)]),
            After(INDEX),
            Near(2, &[Mark(CloseParen)]),
            Can(&[Mark(OpenBracket)]),
        ],
        words: "an index or a size stands in brackets, as in `[1]`",
    },
    Hint {
        tests: &[Here(&[Mark(Colon)]), After(&[Mark(Equal)])],
        words: "write `=` for `:=`",
    },
    Hint {
        tests: &[
            Here(&[Mark(Colon)]),
            After(&[Mark(Colon)]),
            Can(&[Mark(Dot)]),
        ],
        words: "the steps of a path are joined by `.`",
    },
    Hint {
        tests: &[Here(&[Mark(Colon)]), Can(&[Mark(Bar)])],
        words: "the cells of a row stand behind `|`",
    },
    Hint {
        tests: &[Here(&[Mark(Comma)]), Before(&[Number]), After(&[Number])],
        words: "numbers are whole, and have no `,`",
    },
    Hint {
        tests: &[Here(&[Mark(Comma)]), Can(&[Mark(Semicolon)])],
        words: "one name stands here: write a line for each",
    },
    Hint {
        tests: &[Here(&[Mark(Bar)]), AfterMacro, Can(&[Mark(LessEqual)])],
        words: "a macro is named with its word, as in `macro NAME | T;`",
    },
    Hint {
        tests: &[
            Here(&[Mark(Bar)]),
            Can(&[Mark(LessEqual)]),
            Cannot(&[Mark(Minus)]),
        ],
        words: "a function is compared, as in `function NAME = VALUE | T;`",
    },
    Hint {
        tests: &[Here(&[Mark(Bar)]), Can(&[Mark(LessEqual)])],
        words: "a phrase is a comparison, as `NAME = VALUE`, or `in PATH`, or `macro NAME`",
    },
    Hint {
        tests: &[Here(RELATIONS), Can(&[Mark(CloseBracket)])],
        words: "a guard is a table, as in `when { NAME = VALUE | T; }`",
    },
    Hint {
        tests: &[Here(RELATIONS), Can(&[Mark(Bar)]), Cannot(&[Mark(Minus)])],
        words: "`macro NAME` and `in PATH` are phrases without a relation",
    },
    Hint {
        tests: &[Here(RELATIONS), Can(&[Mark(Bar)])],
        words: "a phrase has one relation: write a row for each",
    },
    Hint {
        tests: &[Here(&[Mark(OpenBracket)]), Can(&[Word(All)])],
        words: "states of one kind are an array: `array NAME [SIZE]`",
    },
    Hint {
        tests: &[Here(&[Mark(DotDot)]), Can(&[Mark(Bar)])],
        words: "write a row for each bound, as `NAME >= 0` and `NAME <= 9`",
    },
    Hint {
        tests: &[Here(&[Mark(Minus)]), Before(&[Name]), After(&[Name])],
        words: "a name has letters, digits and `_` alone",
    },
    Hint {
        tests: &[
            Here(&[Mark(CloseBrace), Mark(CloseParen)]),
            Before(&[Mark(Comma)]),
        ],
        words: "no `,` stands behind the last of a list",
    },
    Hint {
        tests: &[
            Here(&[Mark(CloseBrace), Mark(CloseParen), Mark(Semicolon)]),
            Can(&[Mark(Bar)]),
        ],
        words: "a row is written `PHRASE | CELLS;`",
    },
    Hint {
        tests: &[Named(&["and"])],
        words: "the rows of a table are joined by \"and\": write a row for each phrase",
    },
    Hint {
        tests: &[Named(&["or"])],
        words: OR,
    },
    Hint {
        tests: &[Named(&["is"]), Can(&[Mark(LessEqual)])],
        words: EQUAL,
    },
    Hint {
        tests: &[Here(&[Name]), Before(&[Number])],
        words: "a number has digits alone, and no unit; there is no multiplication",
    },
    Hint {
        tests: &[Here(&[Name]), Can(&[Word(Enumeration)])],
        words: "a declaration begins with `enumeration`, `range`, `constant`, `input`, `event`, `macro`, `function`, `receive` or `send`",
    },
    Hint {
        tests: &[Here(&[Word(All)]), Can(&[Word(Every)])],
        words: EVERY,
    },
    Hint {
        tests: &[Here(&[Word(In)]), Can(&[Mark(LessEqual)])],
        words: "`in` asks for a state; values are compared by `=`, `<` and the like",
    },
    Hint {
        tests: &[Here(&[Word(Function)]), Can(&[Number])],
        words: "`function NAME` stands left of the relation",
    },
    Hint {
        tests: &[Can(&[Word(Default)])],
        words: "a `one` state begins with `default NAME;`",
    },
    Hint {
        tests: &[Here(&[Word(Specification)])],
        words: SPECIFICATION,
    },
    Hint {
        tests: &[First],
        words: SPECIFICATION,
    },
];

/// What is said of a token where the fault is mended without it.
const TOO_MANY: &[Hint] = &[
    Hint {
        tests: &[Here(&[Mark(Comma)])],
        words: "one `,` is too many",
    },
    Hint {
        tests: &[Here(&[Mark(Equal)]), Before(&[Name])],
        words: "one `=` is too many",
    },
    Hint {
        tests: &[Here(&[Mark(Semicolon)]), Before(&[Mark(CloseBrace)])],
        words: "no `;` stands behind the `}` of a declaration, a state or a bus",
    },
    Hint {
        tests: &[Here(&[Mark(Semicolon)]), Before(&[Mark(Semicolon)])],
        words: "one `;` is too many",
    },
];

/// What stands outside of what the innermost brace opens.
const OUTSIDE: &[&[Test]] = &[
    &[Here(&[Word(When)]), Can(&[Mark(LessEqual)])],
    &[
        Here(&[Word(On)]),
        Can(&[Mark(CloseBrace)]),
        Can(&[Word(Every)]),
    ],
    &[
        Here(PARTS),
        Can(&[Mark(CloseBrace)]),
        Cannot(&[Word(State), Word(Move)]),
    ],
    &[
        Here(DECLARATIONS),
        Can(&[Mark(CloseBrace)]),
        Cannot(&[Word(State), Word(Move)]),
    ],
];

/// With what the parts of a state begin.
const PARTS: &[TokenKind] = &[Word(State), Word(Array), Word(Bus), Word(Move), Word(Stay)];

/// Whether a kind is one of these.
fn is_of(kind: Option<TokenKind>, kinds: &[TokenKind]) -> bool {
    match kind {
        Some(kind) => has_kind(kinds, kind),
        None => false,
    }
}

/// Whether one of these kinds is among those.
fn has_one(many: &[TokenKind], few: &[TokenKind]) -> bool {
    for kind in few {
        if has_kind(many, *kind) {
            return true;
        }
    }
    false
}

/// Whether a name is one of these.
fn is_named(name: &[u8], names: &[&str]) -> bool {
    for other in names {
        if other.as_bytes() == name {
            return true;
        }
    }
    false
}

/// Whether a test holds.
fn holds(test: Test, fault: &Fault<'_>) -> bool {
    let site = &fault.site;
    match test {
        Here(kinds) => is_of(site.kind(0), kinds),
        Before(kinds) => is_of(site.kind(-1), kinds),
        After(kinds) => is_of(site.kind(1), kinds),
        Near(offset, kinds) => is_of(site.kind(offset), kinds),
        First => site.place == 0,
        Can(kinds) => has_one(fault.kinds, kinds),
        Cannot(kinds) => !has_one(fault.kinds, kinds),
        Only(kind) => fault.kinds.len() == 1 && has_kind(fault.kinds, kind),
        Named(names) => is_named(site.name(0), names),
        BeforeNamed(names) => is_named(site.name(-1), names),
        AfterMacro => declares_macro(site.tokens, site.name(-1)),
    }
}

/// Whether all of these tests hold.
fn hold(tests: &[Test], fault: &Fault<'_>) -> bool {
    for test in tests {
        if !holds(*test, fault) {
            return false;
        }
    }
    true
}

/// The words of the first hint that fits.
fn first_of(hints: &[Hint], fault: &Fault<'_>) -> Option<&'static str> {
    for hint in hints {
        if hold(hint.tests, fault) {
            return Some(hint.words);
        }
    }
    None
}

/// What is meant by a word or a mark that other notations have at the place.
pub fn other_word(fault: &Fault<'_>) -> Option<&'static str> {
    first_of(OTHER_WORDS, fault)
}

/// What is meant where no other token mends the fault.
pub fn hint_of(fault: &Fault<'_>) -> Option<&'static str> {
    first_of(HINTS, fault)
}

/// What is said of the token at the place where it is one too many.
pub fn too_many(fault: &Fault<'_>) -> Option<&'static str> {
    first_of(TOO_MANY, fault)
}

/// Whether the token at the place stands outside of what the innermost brace opens.
pub fn stands_outside(fault: &Fault<'_>) -> bool {
    for tests in OUTSIDE {
        if hold(tests, fault) {
            return true;
        }
    }
    false
}
