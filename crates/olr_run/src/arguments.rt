//! What the command-line arguments ask for.

/// What the command-line arguments ask for.
#[derive(Clone, Copy)]
pub struct Options<'a> {
    /// The file whose commands come before those of standard input.
    pub file: Option<&'a str>,
    /// Whether to stop at the first rejected command.
    pub stop: bool,
    /// Whether each line of the file and of standard input is one record.
    pub lines: bool,
    /// The log from which to start, and in which the accepted changes are stored.
    pub log: Option<&'a str>,
    /// Whether to make the log.
    pub new: bool,
    /// The size at which the log is compacted, as it was written.
    pub compact_at: Option<&'a str>,
}

/// Why arguments give no options. The text for the user is that of the error.
#[derive(Drop)]
pub enum OptionsFault<D: Drop> {
    /// Help or the version is wanted.
    Help(D),
    /// An argument is invalid.
    Wrong(D),
    /// Out of memory.
    Memory,
}
