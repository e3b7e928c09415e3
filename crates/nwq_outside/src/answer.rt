/// The answer to a read.
#[derive(Drop)]
pub enum Read {
    /// The content of the name.
    Bytes(Vec<u8>),
    /// Nothing is there under the name.
    Missing,
    /// The outside failed.
    Failed,
    /// The content has more than [`nwq_value::FILE_BYTES`] bytes.
    Long,
    NoMemory,
}

/// The answer to a write or a put.
#[derive(Clone, Copy, Debug, PartialEq, Eq)]
pub enum Done {
    Ok,
    /// The outside failed.
    Failed,
    NoMemory,
}
