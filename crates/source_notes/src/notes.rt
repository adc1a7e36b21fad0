ghost use Rattle.std.specs.Prelude.{◌≡◌, IfOk};
ghost use Rattle.source_notes.specs.Comments.{AreComments};

use crate::comments::{Comments, Line};
use crate::piece::{Piece, put_form, put_place};
use crate::places::{Near, Places, begins_character, characters_in, part_near};
use crate::shown::shown;
use rsml_base::{NoMemory, Text};
use std::alloc::Global;
use text_writer::{Draft, Writer};

/// How many characters of a line are shown.
const WIDTH: usize = 120;

/// How many of them stand before the place that is told, where the line is cut.
const BEFORE: usize = 60;

/// Comment lines on a text. Once memory is refused, lines may be missing; then `bytes` is out of memory.
pub struct Notes<'t> {
    alloc: Global,
    file: &'t [u8],
    places: Places<'t>,
    comments: Comments,
    is_refused: bool,
}

impl Drop for Notes<'_> {
    fn drop(self) {
        let Self {
            alloc: _,
            file: _,
            places: _,
            comments: _,
            is_refused: _,
        } = self;
    }
}

/// A part of a line of the text: the offset at which it begins, and its width in characters.
#[derive(Clone, Copy)]
pub struct Spot {
    pub at: usize,
    pub width: usize,
}

/// Where a name stands.
pub fn spot_of(name: &Text) -> Spot {
    Spot {
        at: name.at() as usize,
        width: characters_in(name.bytes()),
    }
}

/// No piece at all.
const NONE: [Piece<'static>; 4] = [Piece::Nothing; 4];

/// The columns of a line that are shown, from 0, and whether something stands before them.
#[derive(Clone, Copy)]
struct Window {
    from: usize,
    to: usize,
}

/// What is shown of a line with so many characters, where this column is told.
fn window_of(characters: usize, column: usize) -> Window {
    if characters <= WIDTH {
        return Window { from: 0, to: WIDTH };
    }
    let from = column.saturating_sub(BEFORE);
    Window {
        from,
        to: from.saturating_add(WIDTH),
    }
}

/// What is written in place of a byte: `?` where it may belong to no character, or would make a terminal do something.
fn shown_byte(byte: u8, is_text: bool) -> u8 {
    let is_shown = match byte {
        b'\t' => true,
        0..=31 | 127 => false,
        _ => is_text || byte < 128,
    };
    if is_shown { byte } else { b'?' }
}

/// Puts what is shown of a line, so many bytes of which are UTF-8.
fn put_window(line: &mut Draft, near: Near<'_>, window: Window, valid: usize) {
    if window.from > 0 {
        line.put(b"...");
    }
    let mut next = near.skipped;
    for (place, byte) in near.bytes.iter().enumerate() {
        let is_text = place < valid;
        if !is_text || begins_character(*byte) {
            next = next.saturating_add(1);
        }
        if window.from < next && next <= window.to {
            line.put(&[shown_byte(*byte, is_text)]);
        }
    }
    if next > window.to {
        line.put(b"...");
    }
}

/// Puts the blanks that stand below what is shown before a column.
fn put_blanks(line: &mut Draft, near: Near<'_>, window: Window, column: usize) {
    if window.from > 0 {
        line.put(b"   ");
    }
    let mut next = near.skipped;
    for byte in near.bytes {
        if begins_character(*byte) {
            next = next.saturating_add(1);
            if window.from < next && next < column {
                line.put(if *byte == b'\t' { b"\t" } else { b" " });
            }
        }
    }
    // Behind the end of the line.
    for _ in next.saturating_add(1)..column {
        line.put(b" ");
    }
}

impl<'t> Notes<'t> {
    pub fn new(alloc: Global, file: &'t [u8], text: &'t [u8]) -> Notes<'t> {
        Notes {
            alloc,
            file,
            places: Places::new(alloc, text),
            comments: Comments::new(alloc),
            is_refused: false,
        }
    }

    pub fn alloc(&self) -> Global {
        self.alloc
    }

    pub fn text(&self) -> &'t [u8] {
        self.places.text()
    }

    /// How many lines there are.
    pub fn count(&self) -> usize {
        self.comments.count()
    }

    /// A line with these bytes.
    fn add(&mut self, line: Draft) -> Result<(), NoMemory> {
        let bytes = line.finish()?;
        let bytes = shown(self.alloc, bytes.as_slice())?;
        let line = Line::new(self.alloc, bytes.as_slice())?;
        self.comments.add(line)
    }

    /// A line that was put together.
    pub fn keep(&mut self, line: Draft) {
        if self.add(line).is_err() {
            self.is_refused = true;
        }
    }

    /// A line that begins with these words, to be put together and kept.
    pub fn line(&self, words: &str) -> Draft {
        let mut line = Draft::new(self.alloc);
        line.put(words.as_bytes());
        line
    }

    /// A sentence on a line.
    fn sentence(&mut self, form: &str, gaps: [Piece<'_>; 4]) {
        let mut line = self.line("  ");
        put_form(&mut line, &self.places, form, gaps);
        self.keep(line);
    }

    /// One more line with a sentence, indented.
    pub fn say(&mut self, words: &str) {
        self.sentence(words, NONE);
    }

    /// The same with one piece that fills the gap `{}`.
    pub fn say_one(&mut self, form: &str, one: Piece<'_>) {
        self.sentence(form, [one, Piece::Nothing, Piece::Nothing, Piece::Nothing]);
    }

    /// The same with two pieces that fill the gaps in their order.
    pub fn say_two<'p>(&mut self, form: &str, one: Piece<'p>, two: Piece<'p>) {
        self.sentence(form, [one, two, Piece::Nothing, Piece::Nothing]);
    }

    /// The same with up to four pieces.
    pub fn say_four<'p>(
        &mut self,
        form: &str,
        one: Piece<'p>,
        two: Piece<'p>,
        three: Piece<'p>,
        four: Piece<'p>,
    ) {
        self.sentence(form, [one, two, three, four]);
    }

    /// A line that begins with `FILE:LINE:COLUMN: ` and a word.
    fn line_at(&self, at: usize, word: &str) -> Draft {
        let mut line = Draft::new(self.alloc);
        line.put(self.file);
        line.put(b":");
        put_place(&mut line, &self.places, at);
        line.put(b": ");
        line.put(word.as_bytes());
        line
    }

    /// `FILE:LINE:COLUMN: `, a word and a sentence.
    fn head(&mut self, at: usize, word: &str, form: &str, gaps: [Piece<'_>; 4]) {
        let mut line = self.line_at(at, word);
        put_form(&mut line, &self.places, form, gaps);
        self.keep(line);
    }

    /// A line that begins as that of a note at an offset, to be put together and kept with the source line.
    pub fn note_line(&self, at: usize) -> Draft {
        self.line_at(at, "note: ")
    }

    /// A line that was put together, and the source line of the part of the text that it is said of.
    pub fn keep_at(&mut self, line: Draft, spot: Spot) {
        self.keep(line);
        self.shown(spot, usize::MAX);
    }

    /// The source line, of which what stands before an offset is UTF-8, and a line with carets below a part of it.
    fn shown(&mut self, spot: Spot, valid: usize) {
        let place = self.places.place_of(spot.at);
        let near = part_near(self.text(), spot.at, place);
        let characters = near.skipped.saturating_add(characters_in(near.bytes));
        let window = window_of(characters, place.column);
        let mut line = self.line("    ");
        put_window(&mut line, near, window, valid.saturating_sub(near.from));
        self.keep(line);
        let mut line = self.line("    ");
        put_blanks(&mut line, near, window, place.column);
        for _ in 0..spot.width.max(1).min(WIDTH) {
            line.put(b"^");
        }
        self.keep(line);
    }

    /// A fault at a part of the text, with up to two pieces.
    pub fn fault<'p>(&mut self, spot: Spot, form: &str, one: Piece<'p>, two: Piece<'p>) {
        self.fault_four(spot, form, one, two, Piece::Nothing, Piece::Nothing);
    }

    /// The same with up to four pieces.
    pub fn fault_four<'p>(
        &mut self,
        spot: Spot,
        form: &str,
        one: Piece<'p>,
        two: Piece<'p>,
        three: Piece<'p>,
        four: Piece<'p>,
    ) {
        self.head(spot.at, "error: ", form, [one, two, three, four]);
        self.shown(spot, usize::MAX);
    }

    /// A fault at a byte that belongs to no character, with one piece.
    pub fn fault_at_byte(&mut self, at: usize, form: &str, one: Piece<'_>) {
        let gaps = [one, Piece::Nothing, Piece::Nothing, Piece::Nothing];
        self.head(at, "error: ", form, gaps);
        self.shown(Spot { at, width: 1 }, at);
    }

    /// A note at a part of the text, with up to four pieces.
    pub fn note<'p>(
        &mut self,
        spot: Spot,
        form: &str,
        one: Piece<'p>,
        two: Piece<'p>,
        three: Piece<'p>,
        four: Piece<'p>,
    ) {
        self.head(spot.at, "note: ", form, [one, two, three, four]);
        self.shown(spot, usize::MAX);
    }

    /// The bytes of all lines.
    pub fn bytes(&self) -> Result<Vec<u8>, NoMemory>
        ensures { IfOk result (λ v. AreComments v.items) }
    {
        if self.is_refused {
            return Err(NoMemory);
        }
        self.comments.bytes(self.alloc)
    }
}
