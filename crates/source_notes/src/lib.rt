//! Comment lines on a text: where something stands in it, and what is said of it.
#![tactic(auto)]

mod comments;
mod notes;
mod piece;
mod places;
mod shown;

pub use notes::{Notes, Spot, spot_of};
pub use piece::{Piece, put_code, put_item, put_place};
pub use places::{
    Place, Places, back, character_length, characters_in, front, line_start, token_text,
};
