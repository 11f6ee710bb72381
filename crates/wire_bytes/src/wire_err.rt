use thiserror::Error;

/// Why no value of a field stands at an offset.
#[derive(Clone, Copy, Debug, PartialEq, Eq, Error)]
pub enum WireErr {
    /// The bytes end within the field: some value begins with all of them.
    #[error("the bytes end within a field")]
    Short,
    /// No value has the byte at `at` there; up to it some value fits. It is an offset in the bytes that were given.
    #[error("no value has the byte at {at}")]
    Bad { at: usize },
}
