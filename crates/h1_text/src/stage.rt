//! Where a message stands.

/// Where a message stands.
#[derive(Drop)]
pub enum Stage {
    /// Before the head.
    Start,
    /// The head of a request waits until its body is known.
    Held,
    /// The head of a response that has no body waits for the end of the message.
    Bodyless,
    /// The head went out.
    Body { chunked: bool },
    /// All was sent, or a write failed.
    Ended,
}
