use crate::status::Status;

/// What a command comes to: how it ends, and what it writes.
#[derive(Drop)]
pub enum Outcome {
    /// A text, with a status.
    Text { status: Status, text: Vec<u8> },
    /// The line on a read that was refused.
    Unread,
    /// The line on a file that is too long.
    Long,
}
