// Why a run stops.
use thiserror::Error;

/// Why a run of a script stopped early.
#[derive(Clone, Copy, Debug, Error)]
pub enum RunFault {
    /// The reader of the script failed.
    #[error("cannot read script")]
    Read = 1,
    /// The writer of the answers failed, or accepted no bytes.
    #[error("cannot write output")]
    Write = 2,
    /// The observer of the run ended it.
    #[error("stopped")]
    Stopped = 3,
}
