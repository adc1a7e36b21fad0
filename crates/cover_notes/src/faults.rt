//! What is told of the first fault of an event file.
use event_lines::LineFault;
use rsml_names::{name_of, number_of};
use rsml_syntax::{Amount, Decl, Mention};
use simulator::SimEnd;
use source_notes::{Notes, Spot, back, characters_in, front};
use text_writer::{Draft, Writer, put_number, put_signed};

/// How many receives, or values of an enumeration, are named at most.
const MOST_NAMED: usize = 16;

/// The word at a place of a line, by its offset and its width in bytes; behind the last one the end of the line.
fn word_at(line: &[u8], place: usize) -> Spot {
    let mut spot = Spot {
        at: line.len(),
        width: 0,
    };
    let mut count: usize = 0;
    let mut inside = false;
    for (at, byte) in line.iter().enumerate() {
        let was_inside = inside;
        inside = *byte != b' ' && *byte != b'\t';
        if inside && !was_inside {
            count = count.saturating_add(1);
        }
        if inside && count == place.saturating_add(1) {
            spot.at = spot.at.min(at);
            spot.width = spot.width.saturating_add(1);
        }
    }
    spot
}

/// The bytes of a word.
fn bytes_at(line: &[u8], spot: Spot) -> &[u8] {
    back(front(line, spot.at.saturating_add(spot.width)), spot.at)
}

/// The declaration of a name.
fn named<'a>(decls: &'a [Decl], name: &[u8]) -> Option<&'a Decl> {
    for decl in decls {
        if name_of(decl).bytes() == name {
            return Some(decl);
        }
    }
    None
}

/// The type of an input.
fn type_of<'a>(decls: &'a [Decl], input: &Mention) -> Option<&'a Decl> {
    match named(decls, input.name.bytes())? {
        Decl::Input { kind, .. } => named(decls, kind.bytes()),
        _ => None,
    }
}

/// The number that digits write, with `-` before them or not. Great ones count as the greatest.
fn number_in(value: &[u8]) -> Option<i64> {
    let (sign, digits) = match value.split_first() {
        Some((b'-', digits)) => (-1, digits),
        _ => (1, value),
    };
    let mut number: i64 = 0;
    for digit in digits {
        if !digit.is_ascii_digit() {
            return None;
        }
        let digit = i64::from(digit.saturating_sub(b'0'));
        number = number.saturating_mul(10).saturating_add(digit);
    }
    if digits.is_empty() {
        None
    } else {
        Some(number.saturating_mul(sign))
    }
}

/// Whether a value has the fault.
fn is_faulty(kind: &Decl, value: &[u8], fault: LineFault) -> bool {
    match kind {
        Decl::Range { low, high, .. } => match number_in(value) {
            Some(number) => {
                fault == LineFault::OutOfRange
                    && (number < number_of(low) || number_of(high) < number)
            }
            None => fault == LineFault::NotAValue,
        },
        Decl::Enumeration { values, .. } => {
            for known in values.as_slice() {
                if known.bytes() == value {
                    return false;
                }
            }
            fault == LineFault::NotAValue
        }
        _ => false,
    }
}

/// Whether the word of a field has the fault.
fn has_fault(decls: &[Decl], input: &Mention, word: &[u8], fault: LineFault) -> bool {
    let name = input.name.bytes();
    let is_named = word.starts_with(name) && back(word, name.len()).starts_with(b"=");
    if !is_named || fault == LineFault::WrongField {
        return !is_named;
    }
    match type_of(decls, input) {
        Some(kind) => is_faulty(kind, back(word, name.len().saturating_add(1)), fault),
        None => false,
    }
}

/// Where the fault of a line stands whose receive has these inputs.
fn spot_of(decls: &[Decl], inputs: &[Mention], line: &[u8], fault: LineFault) -> Spot {
    match fault {
        LineFault::NotUtf8 => Spot {
            at: match str::from_utf8(line) {
                Ok(_) => 0,
                Err(error) => error.valid_up_to(),
            },
            width: 1,
        },
        LineFault::UnknownInterface | LineFault::BadIndex => word_at(line, 0),
        LineFault::ExtraWord => word_at(line, inputs.len().saturating_add(1)),
        LineFault::WrongField | LineFault::NotAValue | LineFault::OutOfRange => {
            for (place, input) in inputs.iter().enumerate() {
                let spot = word_at(line, place.saturating_add(1));
                if has_fault(decls, input, bytes_at(line, spot), fault) {
                    return spot;
                }
            }
            word_at(line, 0)
        }
    }
}

/// What is said of a fault.
fn words_of(fault: LineFault) -> &'static [u8] {
    match fault {
        LineFault::NotUtf8 => b"this line is not UTF-8",
        LineFault::UnknownInterface => b"no receive has this name",
        LineFault::BadIndex => b"the index is missing, not wanted or out of range",
        LineFault::WrongField => b"here a field is wanted",
        LineFault::ExtraWord => b"this stands behind the last field",
        LineFault::NotAValue => b"this is no value of its field",
        LineFault::OutOfRange => b"this number is out of the range of its field",
    }
}

/// Puts what can stand for the value of a field.
fn put_values(line: &mut Draft, kind: &Decl) {
    match kind {
        Decl::Range { low, high, .. } => {
            put_signed(line, number_of(low));
            line.put(b"..");
            put_signed(line, number_of(high));
        }
        Decl::Enumeration { values, .. } => {
            for (place, value) in values.as_slice().iter().enumerate() {
                if place < MOST_NAMED {
                    line.put(if place > 0 { b"|" } else { b"" });
                    line.put(value.bytes());
                }
            }
            line.put(if values.len() > MOST_NAMED {
                b"|.."
            } else {
                b""
            });
        }
        _ => {}
    }
}

/// Puts the indices of a receive of this size.
fn put_indices(line: &mut Draft, decls: &[Decl], size: &Amount) {
    line.put(b"[1..");
    match size {
        Amount::Number(number) => put_number(line, u64::from(*number)),
        Amount::Name(name) => {
            if let Some(Decl::Constant { value, .. }) = named(decls, name.bytes()) {
                put_signed(line, number_of(value));
            }
        }
    }
    line.put(b"]");
}

/// Tells how a line of a receive is written.
fn tell_form(
    notes: &mut Notes<'_>,
    decls: &[Decl],
    name: &[u8],
    size: Option<&Amount>,
    inputs: &[Mention],
) {
    let mut line = notes.line("  wanted: ");
    line.put(name);
    if let Some(size) = size {
        put_indices(&mut line, decls, size);
    }
    for input in inputs {
        line.put(b" ");
        line.put(input.name.bytes());
        line.put(b"=");
        if let Some(kind) = type_of(decls, input) {
            put_values(&mut line, kind);
        }
    }
    notes.keep(line);
}

/// Tells which receives there are.
fn tell_receives(notes: &mut Notes<'_>, decls: &[Decl]) {
    let mut line = notes.line("  the receives are");
    let mut count: usize = 0;
    for decl in decls {
        if let Decl::Receive { name, .. } = decl {
            if count < MOST_NAMED {
                line.put(b" ");
                line.put(name.bytes());
            }
            count = count.saturating_add(1);
        }
    }
    line.put(if count > MOST_NAMED { b" .." } else { b"" });
    notes.keep(line);
}

/// Tells where a line stands and what is wrong there. The notes are on this line alone.
fn tell_spot(notes: &mut Notes<'_>, file: &[u8], number: u64, spot: Spot, words: &[u8]) {
    let mut line = notes.line("");
    line.put(file);
    line.put(b":");
    put_number(&mut line, number);
    line.put(b":");
    let before = characters_in(front(notes.text(), spot.at));
    put_number(&mut line, before.saturating_add(1) as u64);
    line.put(b": error: ");
    line.put(words);
    notes.keep_at(line, spot);
}

/// Tells of a fault of the line that the notes are on.
fn tell_line(notes: &mut Notes<'_>, decls: &[Decl], file: &[u8], number: u64, fault: LineFault) {
    let text = notes.text();
    let first = bytes_at(text, word_at(text, 0));
    let mut name = first;
    for (place, byte) in first.iter().enumerate() {
        if *byte == b'[' {
            name = front(first, place);
            break;
        }
    }
    let receive = named(decls, name);
    let inputs = match receive {
        Some(Decl::Receive { inputs, .. }) => inputs.as_slice(),
        _ => &[],
    };
    let spot = spot_of(decls, inputs, text, fault);
    tell_spot(notes, file, number, spot, words_of(fault));
    match receive {
        Some(Decl::Receive { size, .. }) => tell_form(notes, decls, name, size.as_ref(), inputs),
        _ => tell_receives(notes, decls),
    }
}

/// Tells of the fault with which reading an event file of this name ended, if it did. The notes are on the line that was read last.
pub fn tell_fault(notes: &mut Notes<'_>, decls: &[Decl], file: &[u8], end: SimEnd) {
    match end {
        SimEnd::LineFault { line, fault } => tell_line(notes, decls, file, line, fault),
        SimEnd::LineTooLong { line } => {
            let mut words = notes.line("");
            words.put(file);
            words.put(b":");
            put_number(&mut words, line);
            words.put(b":1: error: this line has more than 4096 bytes");
            notes.keep(words);
        }
        SimEnd::TooLong => notes.say("the event file has more than 4294967296 bytes"),
        SimEnd::Ended { .. } | SimEnd::ReadFault | SimEnd::WriteFault => {}
    }
}
