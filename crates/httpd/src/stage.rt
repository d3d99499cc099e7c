use file_tree::FileId;

/// How far the request of a connection has been received.
#[derive(Clone, Copy, Debug, PartialEq, Eq)]
pub enum Stage {
    /// The first word is being received.
    Method,
    /// The second word is being received.
    Target,
    /// A file was requested, and the reply is being sent: that of the file that was found, or of none.
    Reply { found: Option<FileId> },
    /// It is no request for a file.
    Refused,
}
