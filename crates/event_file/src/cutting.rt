ghost use Rattle.std.specs.Prelude.{ℕ, ◌≡◌, ◌<◌};
ghost use Rattle.event_file.specs.Reading.{Begins};
ghost use Rattle.event_file.specs.Pieces.{IsPiece};
ghost use Rattle.event_file.specs.declared.piece.Piece.TheVariants as piece;

use crate::front::{Front, front_of};
use crate::piece::Piece;
use crate::trimming::trimmed;

/// The line that begins at `at`, if it has at most `most` bytes. It takes a beginning of a line, or
/// the end of the bytes.
#[tactic(auto, using(crate::proofs::PieceLemmas::begins_within))]
pub fn cut(bytes: &[u8], at: usize, most: usize) -> Piece
    requires { Begins bytes.now at }
    ensures piece { IsPiece bytes.now most at result }
    ensures begins { (end after : ℕ) → result ≡ piece.Line end after → Begins bytes.now after }
    ensures forward { (end after : ℕ) → result ≡ piece.Line end after → at < after }
{
    let (_, rest) = bytes.split_at(at);
    if rest.is_empty() {
        return Piece::End;
    }
    match front_of(rest, most) {
        Front::Whole(width) => Piece::Line {
            end: at + trimmed(&rest[..width]),
            after: at + width + 1,
        },
        Front::Open => Piece::Line {
            end: at + trimmed(rest),
            after: bytes.len(),
        },
        Front::Long => Piece::LineTooLong,
    }
}
