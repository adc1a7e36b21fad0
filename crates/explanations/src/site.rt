use crate::token_kind::{DECLARATIONS, TokenKind, has_kind};
use rsml_syntax::{Mark, Placed, Token, Word};
use source_notes::{back, front, token_text};
use std::alloc::Global;

/// A place among the tokens of a text.
#[derive(Clone, Copy)]
pub struct Site<'t> {
    pub text: &'t [u8],
    pub tokens: &'t [Placed],
    /// The place of a token, from 0, or one past the last.
    pub place: usize,
}

impl<'t> Site<'t> {
    /// The token so many places behind it, or before it.
    pub fn near(&self, offset: isize) -> Option<&'t Placed> {
        self.tokens.get(self.place.checked_add_signed(offset)?)
    }

    /// The kind of that token.
    pub fn kind(&self, offset: isize) -> Option<TokenKind> {
        let placed = self.near(offset)?;
        Some(TokenKind::of(&placed.token))
    }

    /// The name that the token is; nothing where it is none.
    pub fn name(&self, offset: isize) -> &'t [u8] {
        match self.near(offset) {
            Some(placed) => name_of(placed),
            None => &[],
        }
    }

    /// The tokens before it.
    pub fn tokens_before(&self) -> &'t [Placed] {
        match self.tokens.get(..self.place) {
            Some(before) => before,
            None => self.tokens,
        }
    }

    /// The offset behind the token before it.
    pub fn behind(&self) -> usize {
        match self.near(-1) {
            Some(placed) => end_of(self.text, placed),
            None => 0,
        }
    }

    /// The offset of the token, or behind the last one.
    pub fn at(&self) -> usize {
        match self.near(0) {
            Some(placed) => placed.at as usize,
            None => self.behind(),
        }
    }
}

/// The name that a token is; nothing where it is none.
fn name_of(placed: &Placed) -> &[u8] {
    match &placed.token {
        Token::Name(name) => name.bytes(),
        _ => &[],
    }
}

/// Whether a macro of a name is declared among tokens.
pub fn declares_macro(tokens: &[Placed], name: &[u8]) -> bool {
    let mut is_declared = false;
    for placed in tokens {
        if is_declared && name_of(placed) == name {
            return !name.is_empty();
        }
        is_declared = TokenKind::of(&placed.token) == TokenKind::Word(Word::Macro);
    }
    false
}

/// The offset behind a token.
pub fn end_of(text: &[u8], placed: &Placed) -> usize {
    let at = placed.at as usize;
    at.saturating_add(token_text(text, at).len())
}

/// What is tried in place of the text before a token, and the number that the token then has.
#[derive(Clone, Copy)]
pub struct Frame<'t> {
    pub head: &'static [u8],
    pub front: &'t [u8],
    pub token: usize,
}

/// How many braces are open behind a token, where so many are before it.
fn depth_behind(depth: usize, kind: TokenKind) -> usize {
    match kind {
        TokenKind::Mark(Mark::OpenBrace) => depth.saturating_add(1),
        TokenKind::Mark(Mark::CloseBrace) => depth.saturating_sub(1),
        _ => depth,
    }
}

/// Whether a declaration, or a state, begins with tokens of a kind.
fn opens(kind: TokenKind) -> bool {
    kind == TokenKind::Word(Word::State) || has_kind(DECLARATIONS, kind)
}

/// The place of the last declaration, or of the top state, that opens among tokens.
fn last_opened(tokens: &[Placed]) -> Option<usize> {
    let mut depth: usize = 0;
    let mut last = None;
    for (place, placed) in tokens.iter().enumerate() {
        let kind = TokenKind::of(&placed.token);
        depth = depth_behind(depth, kind);
        if depth == 0 && opens(kind) {
            last = Some(place);
        }
    }
    last
}

/// The frame that begins at the token at a place.
fn opened_frame<'t>(site: &Site<'t>, place: usize) -> Option<Frame<'t>> {
    let opened = site.tokens.get(place)?;
    let before = front(site.text, site.behind());
    Some(Frame {
        head: b"specification a;\n",
        front: back(before, opened.at as usize),
        token: site.place.saturating_sub(place).saturating_add(4),
    })
}

/// The frame of a place: the declarations before the one around it are left out.
pub fn frame_of<'t>(site: &Site<'t>) -> Frame<'t> {
    if let Some(place) = last_opened(site.tokens_before()) {
        if let Some(frame) = opened_frame(site, place) {
            return frame;
        }
    }
    Frame {
        head: b"",
        front: front(site.text, site.behind()),
        token: site.place.saturating_add(1),
    }
}

/// A syntax fault: the place of the token that cannot stand there, and the kinds of tokens that can.
#[derive(Clone, Copy)]
pub struct Fault<'t> {
    pub alloc: Global,
    pub site: Site<'t>,
    pub frame: Frame<'t>,
    pub kinds: &'t [TokenKind],
}
