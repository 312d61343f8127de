// The calls on a site in memory, as it records them.
use ml_base::{Bytes, Name};

/// One call. If it failed, it left its part pending and did nothing else.
#[derive(Drop)]
pub enum Call {
    /// A read of the log or of a file, whether it failed or not.
    Read,
    /// The place in the log, and the bytes that were written there.
    WriteLog(u64, Bytes),
    /// The place in the log, and the number of bytes that were to be written there.
    FailedLog(u64, u64),
    /// The length to which the log was cut.
    CutLog(u64),
    /// The length to which the log was to be cut.
    FailedCut(u64),
    /// The file and its bytes.
    WriteFile(Name, Bytes),
    /// The file that was removed, if it was there.
    RemoveFile(Name),
    /// The file that was to be written or removed.
    FailedFile(Name),
    /// All was settled.
    Sync,
    /// Nothing was settled.
    FailedSync,
    /// The number of bytes that were put out: 0 if the call failed.
    Give(u64),
}
