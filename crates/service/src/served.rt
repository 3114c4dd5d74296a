/// What became of one request.
#[derive(Clone, Copy, Debug, PartialEq, Eq)]
pub enum Served {
    /// The input ended before any octet. Nothing was written.
    Closed,
    /// An answer of that status was written, all of it.
    Answered(u16),
    /// A read failed. Nothing was written, and nothing was done.
    ReadFailed,
    /// An answer of that status was begun: exactly its first `sent` octets were written. What the desk did for it
    /// stands.
    WriteFailed {
        /// The answer's status.
        status: u16,
        /// How many octets of it were written.
        sent: usize,
    },
}
