/// Where the bytes of a chunked body stand (RFC 9112, 7.1).
#[derive(Clone, Copy, Debug, PartialEq, Eq)]
pub enum ChunkPhase {
    /// In the digits of a size line: how many came, and what they write so far.
    Size { digits: u64, size: u64 },
    /// Behind the digits, in spaces and tabs.
    Pad { size: u64 },
    /// In an extension, which is passed over.
    Extension { size: u64 },
    /// The carriage return of a size line came.
    SizeEnd { size: u64 },
    /// So many bytes of data are still to come, at least one.
    Data { left: u64 },
    /// The data came, and its line end is to come.
    DataEnd,
    /// The carriage return behind the data came.
    DataEndLf,
    /// At the start of a trailer line.
    Trailer,
    /// A carriage return came at the start of a trailer line.
    TrailerCr,
    /// In a trailer line that isn't empty.
    TrailerLine,
}

/// What one more byte of a chunked body is.
#[derive(Clone, Copy, Debug, PartialEq, Eq)]
pub enum ChunkStep {
    /// It belongs to the form.
    Form(ChunkPhase),
    /// It belongs to the data.
    Data(ChunkPhase),
    /// It ends the body.
    Whole,
    /// It can't stand here.
    Malformed,
}
