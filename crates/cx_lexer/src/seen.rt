/// What stands right before a byte of a block comment: a star, perhaps with line splices behind it, or anything else.
#[derive(Clone, Copy, Debug, PartialEq, Eq)]
pub enum Seen {
    Other,
    /// A star.
    Star,
    /// A star, line splices, and the beginning of one more.
    Backslash,
    /// A star and one or more line splices.
    Splice,
}
