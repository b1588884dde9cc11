//! What became of a call of plcv.
use pv_edge::{MemFiles, MemSink, Text};
use pv_top::Status;

/// A call's status, with the files, the sink and what is kept, as they are behind it.
#[derive(Drop)]
pub struct Ran {
    pub status: Status,
    pub files: MemFiles,
    pub out: MemSink,
    pub kept: Text,
}
