use thiserror::Error;

/// Why words ask for no task. Its text is what is written on standard error.
#[derive(Clone, Copy, Debug, PartialEq, Eq, Error)]
pub enum WordsErr {
    /// The words aren't in the form of a command.
    #[error("usage: m3 run [--disk FOLDER] or m3 generate N")]
    Usage,
    /// Want of memory while the words were read.
    #[error("m3: out of memory")]
    Memory,
}
