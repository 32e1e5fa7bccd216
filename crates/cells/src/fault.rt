use thiserror::Error;

/// Why a list refuses a call. It is then as it was.
#[derive(Clone, Copy, PartialEq, Eq, Debug, Error)]
pub enum ListFault {
    /// Every cell that the list may use holds an entry.
    #[error("the list holds no more entries")]
    Full,
    /// The list has no such row.
    #[error("the list has no such row")]
    NoSuchRow,
}
