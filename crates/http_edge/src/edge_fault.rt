use thiserror::Error;

/// Why a request has no response (our own).
#[derive(Clone, Copy, Debug, PartialEq, Eq, Error)]
pub enum EdgeFault {
    /// A read failed, or more were made than may be. Nothing was stepped or written.
    #[error("the request could not be read")]
    ReadFailed,
    /// A write failed. The step may be saved.
    #[error("the response could not be written")]
    WriteFailed,
}
