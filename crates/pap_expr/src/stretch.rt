//! The bytes on which a node stands.

/// The bytes of a text on which a node of its tree stands: from the first byte of its first token to the last of its last.
#[derive(Clone, Copy, Debug, PartialEq, Eq)]
pub struct Stretch {
    /// The place of the first byte, counted from the text's beginning.
    pub first: usize,
    /// The place behind the last byte.
    pub end: usize,
}
