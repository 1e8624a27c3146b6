use crate::Message;

/// A message that waits, and the line number under which it does.
#[derive(Drop)]
pub struct Stalled {
    pub line: u64,
    pub message: Message,
}
