//! Letters of other scripts that look like Latin ones.

use source_notes::{Notes, put_code};
use std::str;
use text_writer::{Draft, Writer};

/// A script, and the Latin letters that its letters look like from one on; a blank where one looks like none.
#[derive(Clone, Copy)]
struct Script {
    name: &'static str,
    first: u32,
    latin: &'static [u8],
}

const GREEK: Script = Script {
    name: "Greek",
    first: 0x0391,
    latin: b"AB  EZH IK MN O P  TY X                     v o",
};

const CYRILLIC: Script = Script {
    name: "Cyrillic",
    first: 0x0405,
    latin: b"SI J       A B  E    K MHO PCTY X          a    e        o pc y x               si j",
};

/// A letter that looks like a Latin one.
#[derive(Clone, Copy)]
struct LookAlike {
    script: &'static str,
    code: u32,
    latin: u8,
}

/// A letter of a script, where it looks like a Latin one.
fn letter_of(script: Script, code: u32) -> Option<LookAlike> {
    let place = code.checked_sub(script.first)?;
    match script.latin.get(place as usize) {
        Some(b' ') | None => None,
        Some(latin) => Some(LookAlike {
            script: script.name,
            code,
            latin: *latin,
        }),
    }
}

fn look_alike(code: u32) -> Option<LookAlike> {
    if code < CYRILLIC.first {
        letter_of(GREEK, code)
    } else {
        letter_of(CYRILLIC, code)
    }
}

/// The first letter of a name that looks like a Latin one, where all that are not Latin do.
fn first_look_alike(name: &[u8]) -> Option<LookAlike> {
    let text = str::from_utf8(name).ok()?;
    let mut first = None;
    for character in text.chars() {
        let code = character as u32;
        if code >= 0x80 {
            let letter = look_alike(code)?;
            if first.is_none() {
                first = Some(letter);
            }
        }
    }
    first
}

/// Puts the last hexadecimal digit of a number.
fn put_digit(line: &mut Draft, number: u32) {
    if let Some(byte) = b"0123456789ABCDEF".get((number % 16) as usize) {
        line.put(&[*byte]);
    }
}

/// Puts the last four.
fn put_four(line: &mut Draft, number: u32) {
    put_digit(line, number / 0x1000);
    put_digit(line, number / 0x100);
    put_digit(line, number / 0x10);
    put_digit(line, number);
}

/// Puts what a letter is, and what it is not.
fn put_letter(line: &mut Draft, letter: LookAlike) {
    line.put(b" has the ");
    line.put(letter.script.as_bytes());
    line.put(b" letter U+");
    put_four(line, letter.code);
    line.put(b", not the Latin ");
    put_code(line, &[letter.latin]);
}

/// Tells a letter of a name that looks like a Latin one and is none; whether it is told.
pub fn tell_letters(notes: &mut Notes<'_>, name: &[u8]) -> bool {
    let letter = match first_look_alike(name) {
        Some(letter) => letter,
        None => return false,
    };
    let mut line = notes.line("  ");
    put_code(&mut line, name);
    put_letter(&mut line, letter);
    notes.keep(line);
    true
}
