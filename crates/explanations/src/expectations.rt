//! Kinds of tokens in words: many that belong together by one phrase.

use crate::token_kind::TokenKind::{Mark, Name, Number, Word};
use crate::token_kind::{DECLARATIONS, RELATIONS, TokenKind, has_kind};
use rsml_base::NoMemory;
use rsml_syntax::Mark::{Dot, Minus};
use rsml_syntax::Word::{Any, Every, F, Function, In, Macro, Previous, T, This};
use source_notes::put_code;
use std::alloc::Global;
use text_writer::{Draft, Writer};

/// Kinds that have a phrase together.
struct Group {
    words: &'static str,
    kinds: &'static [TokenKind],
}

/// Each before the smaller ones that lie in it.
const GROUPS: &[Group] = &[
    Group {
        words: "a declaration",
        kinds: DECLARATIONS,
    },
    Group {
        words: "a phrase",
        kinds: &[
            Word(Any),
            Word(Every),
            Word(In),
            Word(Macro),
            Word(Function),
            Word(Previous),
            Name,
            Number,
            Mark(Minus),
        ],
    },
    Group {
        words: "a phrase without quantifier",
        kinds: &[
            Word(In),
            Word(Macro),
            Word(Function),
            Word(Previous),
            Name,
            Number,
            Mark(Minus),
        ],
    },
    Group {
        words: "a sum or `function`",
        kinds: &[Word(Function), Word(Previous), Name, Number, Mark(Minus)],
    },
    Group {
        words: "a sum",
        kinds: &[Word(Previous), Name, Number, Mark(Minus)],
    },
    Group {
        words: "a name, a number or `previous`",
        kinds: &[Word(Previous), Name, Number],
    },
    Group {
        words: "a relation (`=`, `<`, ..)",
        kinds: RELATIONS,
    },
    Group {
        words: "a name or a number",
        kinds: &[Name, Number, Mark(Minus)],
    },
    Group {
        words: "a number, a name or `this`",
        kinds: &[Word(This), Name, Number],
    },
    Group {
        words: "a number or a name",
        kinds: &[Name, Number],
    },
    Group {
        words: "a number",
        kinds: &[Number, Mark(Minus)],
    },
    Group {
        words: "a cell (`T`, `F`, `.`)",
        kinds: &[Word(T), Word(F), Mark(Dot)],
    },
];

/// Whether all of these kinds are among those.
fn are_among(few: &[TokenKind], many: &[TokenKind]) -> bool {
    for kind in few {
        if !has_kind(many, *kind) {
            return false;
        }
    }
    true
}

/// Puts what stands between an item of a list and the one before it.
fn put_between(line: &mut Draft, is_first: bool, is_last: bool) {
    if !is_first {
        line.put(if is_last { b" or " } else { b", " });
    }
}

/// Puts a kind that stands alone.
fn put_kind(line: &mut Draft, kind: TokenKind) {
    match kind {
        Name => line.put(b"a name"),
        Number => line.put(b"a number"),
        _ => put_code(line, kind.example()),
    }
}

/// Puts kinds that stand alone, as the end of a list.
fn put_alone(line: &mut Draft, is_begun: bool, kinds: &[TokenKind]) {
    for (place, kind) in kinds.iter().enumerate() {
        let next = place.saturating_add(1);
        put_between(line, place == 0 && !is_begun, next == kinds.len());
        put_kind(line, *kind);
    }
}

/// Puts a list of kinds: those that belong together are taken away.
fn put_kinds(line: &mut Draft, kinds: &mut Vec<TokenKind>) {
    let count = kinds.len();
    for group in GROUPS {
        if are_among(group.kinds, kinds.as_slice()) {
            let is_first = kinds.len() == count;
            kinds.retain(|kind| !has_kind(group.kinds, *kind));
            put_between(line, is_first, kinds.is_empty());
            line.put(group.words.as_bytes());
        }
    }
    put_alone(line, kinds.len() < count, kinds.as_slice());
}

/// What was expected.
fn expectation(alloc: Global, kinds: &mut Vec<TokenKind>) -> Result<Vec<u8>, NoMemory> {
    let mut line = Draft::new(alloc);
    if kinds.is_empty() {
        line.put(b"the specification ends before it");
    } else {
        line.put(b"expected ");
        put_kinds(&mut line, kinds);
    }
    line.finish()
}

/// What was expected where these kinds of tokens can stand, in words.
pub fn expectation_of(alloc: Global, kinds: &[TokenKind]) -> Result<Vec<u8>, NoMemory> {
    let mut kinds = Vec::from_slice(alloc, kinds)?;
    expectation(alloc, &mut kinds)
}
