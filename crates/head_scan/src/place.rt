/// Where the bytes of a head stand (RFC 9112, 2 to 5).
#[derive(Clone, Copy, Debug, PartialEq, Eq)]
pub(crate) enum Place {
    /// Before the start line, where empty lines are passed over.
    EmptyLines,
    /// Behind the carriage return of an empty line.
    EmptyLineCr,
    /// Behind so many bytes of `HTTP/1.`, and behind all 7 before the digit that follows.
    Version(u8),
    /// Before the space behind the version.
    VersionEnd,
    /// Behind so many digits of the status, of which there are 3.
    Status(u8),
    /// In a phrase or in a field's value.
    Value,
    /// Behind the carriage return of the start line or of a field line.
    LineCr,
    /// At the front of a field line, or of the empty line that ends the head.
    LineStart,
    /// In a field's name.
    Name,
    /// Behind the carriage return of the line that ends the head.
    LastCr,
}

/// What one more byte leads to.
#[derive(Clone, Copy, Debug, PartialEq, Eq)]
pub(crate) enum Step {
    Stands(Place),
    /// It ends the head.
    Ends,
    /// It can't stand here.
    Fails,
}
