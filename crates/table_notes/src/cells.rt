//! Where cells of tables are written.

use source_notes::back;

/// What is read of a text in which a table begins.
#[derive(Clone, Copy)]
struct Reading {
    in_comment: bool,
    behind_bar: bool,
    cells: usize,
}

impl Reading {
    /// Whether a cell begins at this byte, behind so many others.
    fn is_cell(&self, byte: u8) -> bool {
        self.behind_bar && !self.in_comment && matches!(byte, b'T' | b'F' | b'.')
    }

    /// One byte more.
    fn and(self, byte: u8) -> Reading {
        let mut reading = self;
        if self.in_comment {
            reading.in_comment = byte != b'\n';
        } else if byte == b'#' {
            reading.in_comment = true;
        } else if byte == b'|' {
            reading.behind_bar = true;
        } else if self.is_cell(byte) {
            reading.cells = self.cells.saturating_add(1);
        }
        reading
    }
}

/// Where the cell of a column stands in the first row of the table that begins behind an offset.
pub fn cell_place(text: &[u8], from: usize, column: usize) -> usize {
    let mut reading = Reading {
        in_comment: false,
        behind_bar: false,
        cells: 0,
    };
    for (place, byte) in back(text, from).iter().enumerate() {
        if reading.is_cell(*byte) && reading.cells == column {
            return from.saturating_add(place);
        }
        reading = reading.and(*byte);
    }
    from
}
