/// What the fields `Transfer-Encoding` say (RFC 9112, 6.1).
#[derive(Clone, Copy, Debug, PartialEq, Eq)]
pub enum Coding {
    Absent,
    Chunked,
    /// Another coding, or more than one.
    Other,
}

/// How the body of a message ends (RFC 9112, 6.3).
#[derive(Clone, Copy, Debug, PartialEq, Eq)]
pub enum Framing {
    /// There is none.
    Empty,
    /// After so many bytes.
    Exact(u64),
    /// After its last chunk.
    Chunked,
    /// With the connection.
    UntilClose,
    /// The fields contradict one another, or aren't understood.
    Malformed,
    /// A length is stated that is past the limit.
    TooLong,
}
