//! L1 to L7.

use rsml_syntax::Spec;
use source_notes::{Notes, Piece, spot_of};

/// What a limit counts, the greatest number that it allows, and where one looks first.
#[derive(Clone, Copy)]
struct Limit {
    counted: &'static str,
    greatest: usize,
    advice: &'static str,
}

fn limit_of(number: u8) -> Limit {
    match number {
        1 => Limit {
            counted: "state instances",
            greatest: 4096,
            advice: "look first at arrays of large states: each element has all states that are in it",
        },
        2 => Limit {
            counted: "ground transitions",
            greatest: 8192,
            advice: "look first at buses with many members inside arrays: each member counts for each element",
        },
        3 => Limit {
            counted: "event instances",
            greatest: 1024,
            advice: "look first at events with a large size",
        },
        4 => Limit {
            counted: "cells, with previous ones",
            greatest: 1024,
            advice: "look first at inputs with a large size; an input named after `previous` counts twice",
        },
        5 => Limit {
            counted: "macro and function instances",
            greatest: 8192,
            advice: "look first at macros and functions with a large size",
        },
        6 => Limit {
            counted: "ground rows",
            greatest: 65536,
            advice: "look first at rows with quantifiers inside arrays or sized declarations: such a row counts as its bound, for each index",
        },
        _ => Limit {
            counted: "thresholds and keys of comparisons",
            greatest: 2048,
            advice: "look first at comparisons of inputs with many different constants, and of inputs with each other inside arrays",
        },
    }
}

/// Tells by how much a specification exceeds the limit with this number.
pub fn tell_exceeded(notes: &mut Notes<'_>, spec: &Spec, limit: u8, count: u64) {
    let count = match usize::try_from(count) {
        Ok(count) => count,
        Err(_) => usize::MAX,
    };
    let limit = limit_of(limit);
    notes.fault_four(
        spot_of(&spec.name),
        "the specification has {} {}; at most {} are checked",
        Piece::Count(count),
        Piece::Words(limit.counted),
        Piece::Count(limit.greatest),
        Piece::Nothing,
    );
    notes.say(limit.advice);
}
