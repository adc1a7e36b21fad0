ghost use Rattle.std.specs.Prelude.{◌≡◌, ◌+◌, take};
ghost use Rattle.event_file.specs.Fronts.{IsFront};

use memchr::memchr;

/// What some bytes tell of their first line.
#[derive(Clone, Copy, Debug, PartialEq, Eq)]
pub enum Front {
    /// It has so many bytes, and its LF is among them.
    Whole(usize),
    /// It has more bytes than it may have.
    Long,
    /// It has no LF among them.
    Open,
}

/// The first bytes, one more than so many at most.
#[tactic(auto, using(std::proofs::lemmas::List::take_all))]
fn window(bytes: &[u8], most: usize) -> &[u8]
    ensures { result.now ≡ take (most + 1) bytes.now }
{
    if bytes.len() > most {
        &bytes[..most + 1]
    } else {
        bytes
    }
}

/// What the bytes tell of their first line, which may have at most so many. No more than these and
/// one are looked at.
#[inline(always)]
pub fn front_of(bytes: &[u8], most: usize) -> Front
    ensures { IsFront most bytes.now result }
{
    match memchr(b'\n', window(bytes, most)) {
        Some(width) => Front::Whole(width),
        None if bytes.len() > most => Front::Long,
        None => Front::Open,
    }
}
