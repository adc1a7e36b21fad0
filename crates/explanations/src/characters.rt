//! Characters that begin no token: what they are called, and what is meant by them.

/// Characters from one to another, of which the same is said.
struct Sort {
    ranges: &'static [(u32, u32)],
    /// What they are called, where that is not plain from what is seen of them.
    kind: Option<&'static str>,
    /// What to write in their place.
    instead: Option<&'static str>,
}

/// Each before those of which it is a part.
const SORTS: &[Sort] = &[
    Sort {
        ranges: &[
            (0x0660, 0x0669),
            (0x06F0, 0x06F9),
            (0x07C0, 0x07C9),
            (0x0966, 0x096F),
            (0x09E6, 0x09EF),
            (0x0A66, 0x0A6F),
            (0x0AE6, 0x0AEF),
            (0x0B66, 0x0B6F),
            (0x0BE6, 0x0BEF),
            (0x0C66, 0x0C6F),
            (0x0CE6, 0x0CEF),
            (0x0D66, 0x0D6F),
            (0x0E50, 0x0E59),
            (0x0ED0, 0x0ED9),
            (0x0F20, 0x0F29),
            (0xFF10, 0xFF19),
            (0x1D7CE, 0x1D7FF),
        ],
        kind: Some("a digit that is not one of 0 to 9"),
        instead: None,
    },
    Sort {
        ranges: &[(0x00A0, 0x00A0)],
        kind: Some("a no-break space"),
        instead: Some("write a plain space"),
    },
    Sort {
        ranges: &[
            (0x2000, 0x200A),
            (0x202F, 0x202F),
            (0x205F, 0x205F),
            (0x3000, 0x3000),
        ],
        kind: Some("a space of Unicode"),
        instead: Some("write a plain space"),
    },
    Sort {
        ranges: &[(0xFEFF, 0xFEFF)],
        kind: Some("a byte order mark, which is invisible"),
        instead: Some("save the file without a byte order mark"),
    },
    Sort {
        ranges: &[(0x2212, 0x2212)],
        kind: Some("the minus sign of Unicode"),
        instead: Some("write `-`"),
    },
    Sort {
        ranges: &[(0x2010, 0x2011)],
        kind: Some("a hyphen of Unicode"),
        instead: Some("write `-`"),
    },
    Sort {
        ranges: &[(0x2012, 0x2013)],
        kind: Some("an en dash"),
        instead: Some("write `-`"),
    },
    Sort {
        ranges: &[(0x2014, 0x2015)],
        kind: Some("an em dash"),
        instead: Some("write `-`"),
    },
    Sort {
        ranges: &[(0x00AD, 0x00AD)],
        kind: Some("a soft hyphen, which is invisible"),
        instead: Some("delete it"),
    },
    Sort {
        ranges: &[(0x200B, 0x200B)],
        kind: Some("a zero-width space, which is invisible"),
        instead: Some("delete it"),
    },
    Sort {
        ranges: &[(0x200C, 0x200D), (0x2060, 0x2060)],
        kind: Some("a zero-width joiner, which is invisible"),
        instead: Some("delete it"),
    },
    Sort {
        ranges: &[(0x200E, 0x200F), (0x202A, 0x202E)],
        kind: Some("a mark of the direction of text, which is invisible"),
        instead: Some("delete it"),
    },
    Sort {
        ranges: &[(0x201C, 0x201F)],
        kind: Some("a curly double quote"),
        instead: Some("names stand without quotes"),
    },
    Sort {
        ranges: &[(0x2018, 0x201B)],
        kind: Some("a curly single quote"),
        instead: Some("names stand without quotes"),
    },
    Sort {
        ranges: &[(0x2026, 0x2026)],
        kind: Some("an ellipsis"),
        instead: Some("write `. . .`, with spaces between"),
    },
    Sort {
        ranges: &[(0x2028, 0x2029)],
        kind: Some("a line separator of Unicode"),
        instead: None,
    },
    Sort {
        ranges: &[(0x2190, 0x21FF)],
        kind: Some("an arrow of Unicode"),
        instead: Some("write `->`"),
    },
    Sort {
        ranges: &[(0x2264, 0x2264), (0x2A7D, 0x2A7D)],
        kind: Some("a less-or-equal sign of Unicode"),
        instead: Some("write `<=`"),
    },
    Sort {
        ranges: &[(0x2265, 0x2265), (0x2A7E, 0x2A7E)],
        kind: Some("a greater-or-equal sign of Unicode"),
        instead: Some("write `>=`"),
    },
    Sort {
        ranges: &[(0x2260, 0x2260)],
        kind: Some("a not-equal sign of Unicode"),
        instead: Some("write `!=`"),
    },
    Sort {
        ranges: &[
            (0x00B7, 0x00B7),
            (0x2022, 0x2022),
            (0x2219, 0x2219),
            (0x22C5, 0x22C5),
        ],
        kind: Some("a middle dot"),
        instead: Some("write `.`"),
    },
    Sort {
        ranges: &[
            (0xFF01, 0xFF0F),
            (0xFF1A, 0xFF20),
            (0xFF3B, 0xFF40),
            (0xFF5B, 0xFF65),
        ],
        kind: Some("a full-width sign"),
        instead: None,
    },
    Sort {
        ranges: &[(0x000B, 0x000B)],
        kind: Some("a vertical tab"),
        instead: None,
    },
    Sort {
        ranges: &[(0x000C, 0x000C)],
        kind: Some("a form feed"),
        instead: None,
    },
    Sort {
        ranges: &[(0x0085, 0x0085)],
        kind: Some("a next-line character"),
        instead: None,
    },
    Sort {
        ranges: &[(0x0000, 0x001F), (0x007F, 0x009F)],
        kind: Some("a control character"),
        instead: None,
    },
    Sort {
        ranges: &[(0x002F, 0x002F)],
        kind: None,
        instead: Some("a comment begins with `#`; there is no division"),
    },
    Sort {
        ranges: &[(0x002A, 0x002A)],
        kind: None,
        instead: Some("there is no multiplication; a comment begins with `#`"),
    },
    Sort {
        ranges: &[(0x0021, 0x0021)],
        kind: None,
        instead: Some("`!=` is a mark, a lone `!` is none; a cell `F` asks that a phrase is false"),
    },
    Sort {
        ranges: &[(0x0026, 0x0026)],
        kind: None,
        instead: Some("the rows of a table are joined by \"and\"; there is no mark for it"),
    },
    Sort {
        ranges: &[(0x0022, 0x0022), (0x0027, 0x0027), (0x0060, 0x0060)],
        kind: None,
        instead: Some("names stand without quotes"),
    },
    Sort {
        ranges: &[(0x007E, 0x007E)],
        kind: None,
        instead: Some("a cell `F` asks that a phrase is false"),
    },
];

/// Whether a number lies in one of these ranges.
fn lies_in(ranges: &[(u32, u32)], code: u32) -> bool {
    for range in ranges {
        if range.0 <= code && code <= range.1 {
            return true;
        }
    }
    false
}

/// What is said of a character.
fn sort_of(code: u32) -> Option<&'static Sort> {
    for sort in SORTS {
        if lies_in(sort.ranges, code) {
            return Some(sort);
        }
    }
    None
}

/// What a character is called, where that is not plain from what is seen of it.
pub fn kind_of(code: u32) -> Option<&'static str> {
    sort_of(code)?.kind
}

/// What to write in place of a character.
fn instead(code: u32) -> Option<&'static str> {
    sort_of(code)?.instead
}

/// The last byte of a text that is no blank.
fn last_seen(text: &[u8]) -> u8 {
    for byte in text.iter().rev() {
        if !matches!(*byte, b' ' | b'\t' | b'\r' | b'\n') {
            return *byte;
        }
    }
    b' '
}

/// Whether a text ends in a letter, a digit or `_`.
fn ends_in_letter(text: &[u8]) -> bool {
    match text.last() {
        Some(last) => last.is_ascii_alphanumeric() || *last == b'_' || *last >= 0x80,
        None => false,
    }
}

/// What is meant by a character where it stands.
pub fn meant(code: u32, before: &[u8], behind: &[u8]) -> Option<&'static str> {
    match (code, last_seen(before)) {
        (0x2F | 0x7E, _) if behind.starts_with(b"=") => Some("write `!=`"),
        (0x2F, b'}') => Some("an event is raised by `raise NAME`; a comment begins with `#`"),
        (0x2A, b'|' | b'T' | b'F' | b'.') => Some("a cell that asks for nothing is `.`"),
        (0x27, _) if ends_in_letter(before) => Some(
            "an earlier value is written `previous NAME`; names stand without quotes",
        ),
        _ => instead(code),
    }
}
