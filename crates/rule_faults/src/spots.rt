//! Where rows, sums, and what follows names stand in the text.

use rsml_base::Text;
use rsml_syntax::{Mention, Operand, Phrase, Row, Simple, Sum, Term};
use source_notes::{Spot, back, characters_in, front, line_start, spot_of, token_text};

/// The name in a term, if there is one.
pub fn mention_in(term: &Term) -> Option<&Mention> {
    match &term.operand {
        Operand::Number(_) => None,
        Operand::Mention(mention) => Some(mention),
        Operand::Previous(mention) => Some(mention),
    }
}

/// The first name in a sum.
fn first_in_sum(sum: &Sum) -> Option<&Text> {
    for term in sum.terms.as_slice() {
        if let Some(mention) = mention_in(term) {
            return Some(&mention.name);
        }
    }
    None
}

/// The first name in a phrase without its quantifier.
fn first_in_simple(simple: &Simple) -> Option<&Text> {
    match simple {
        Simple::In(path) => match path.as_slice().first() {
            Some(mention) => Some(&mention.name),
            None => None,
        },
        Simple::Macro(mention) => Some(&mention.name),
        Simple::Compare { left, right, .. } => match first_in_sum(left) {
            Some(name) => Some(name),
            None => first_in_sum(right),
        },
        Simple::Function { function, .. } => Some(&function.name),
    }
}

/// The first name in a row.
fn first_in_row(row: &Row) -> Option<&Text> {
    match &row.phrase {
        Phrase::Plain(simple) => first_in_simple(simple),
        Phrase::Any { variable, .. } => Some(variable),
        Phrase::Every { variable, .. } => Some(variable),
    }
}

/// How many bytes stand before the phrase that ends a line.
fn phrase_start(line: &[u8]) -> usize {
    let mut start: usize = 0;
    let mut blank = true;
    for (place, byte) in line.iter().enumerate() {
        let ends = *byte == b';' || *byte == b'{';
        blank = ends || blank && (*byte == b' ' || *byte == b'\t');
        if blank {
            start = place.saturating_add(1);
        }
    }
    start
}

/// The offset at which a row begins, where it has a name.
pub fn row_start(text: &[u8], row: &Row) -> Option<usize> {
    let at = first_in_row(row)?.at() as usize;
    let start = line_start(text, at);
    let line = back(front(text, at), start);
    Some(start.saturating_add(phrase_start(line)))
}

/// How many bytes stand from an offset to the bar, the mark or the end of the line that ends a phrase.
fn phrase_length(text: &[u8], at: usize) -> usize {
    let mut length: usize = 0;
    let mut last: usize = 0;
    for byte in back(text, at) {
        if *byte == b'|' || *byte == b';' || *byte == b'\n' || *byte == b'}' {
            break;
        }
        length = length.saturating_add(1);
        if *byte != b' ' && *byte != b'\t' {
            last = length;
        }
    }
    last
}

fn phrase_at(text: &[u8], at: usize) -> Spot {
    Spot {
        at,
        width: phrase_length(text, at),
    }
}

fn is_blank(byte: u8) -> bool {
    byte == b' ' || byte == b'\t' || byte == b'\n' || byte == b'\r'
}

/// The offset behind the blanks that stand at an offset.
fn past_blanks(text: &[u8], at: usize) -> usize {
    let mut place = at;
    for byte in back(text, at) {
        if !is_blank(*byte) {
            break;
        }
        place = place.saturating_add(1);
    }
    place
}

/// The offset behind these bytes, which follow at an offset.
fn past(text: &[u8], at: usize, bytes: &[u8]) -> Option<usize> {
    let at = past_blanks(text, at);
    if back(text, at).starts_with(bytes) {
        Some(past_blanks(text, at.saturating_add(bytes.len())))
    } else {
        None
    }
}

/// The offset behind a name and these bytes, which follow it.
fn past_name(text: &[u8], name: &Text, bytes: &[u8]) -> Option<usize> {
    let end = (name.at() as usize).saturating_add(name.bytes().len());
    past(text, end, bytes)
}

/// The token behind a name and these bytes; the name where others follow it.
pub fn token_behind(text: &[u8], name: &Text, bytes: &[u8]) -> Spot {
    match past_name(text, name, bytes) {
        Some(at) => Spot {
            at,
            width: characters_in(token_text(text, at)),
        },
        None => spot_of(name),
    }
}

/// The same with all that stands there before the mark that ends it.
pub fn rest_behind(text: &[u8], name: &Text, bytes: &[u8]) -> Spot {
    match past_name(text, name, bytes) {
        Some(at) => phrase_at(text, at),
        None => spot_of(name),
    }
}

/// A row, or its owner where the row has no name.
pub fn spot_of_row(text: &[u8], owner: &Text, row: &Row) -> Spot {
    match row_start(text, row) {
        Some(at) => phrase_at(text, at),
        None => spot_of(owner),
    }
}

/// The cells behind a phrase; the phrase where there are none.
fn cells_behind(text: &[u8], phrase: Spot) -> Spot {
    let end = phrase.at.saturating_add(phrase.width);
    match past(text, end, b"|") {
        Some(at) if phrase_length(text, at) > 0 => phrase_at(text, at),
        _ => phrase,
    }
}

/// The cells of a row, or its owner where the row has no name.
pub fn spot_of_cells(text: &[u8], owner: &Text, row: &Row) -> Spot {
    match row_start(text, row) {
        Some(at) => cells_behind(text, phrase_at(text, at)),
        None => spot_of(owner),
    }
}

/// A sum, or its owner where the sum has no name.
pub fn spot_of_sum(owner: &Text, sum: &Sum) -> Spot {
    match first_in_sum(sum) {
        Some(name) => spot_of(name),
        None => spot_of(owner),
    }
}
