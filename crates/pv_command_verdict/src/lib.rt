//! What the commands that come to a verdict share, on the first form: how large what is decided may be, the case by which certificates are
//! judged, what a verdict says of the source, and its report.
#![tactic(auto)]

pub mod laws;
mod lifted;
mod limits;
mod report;
mod sizes;

pub use lifted::{decide, judge_certificate};
pub use pv_bool_load::laws::{files_decide_one_first, what_is_read_stays};
pub use pv_bool_load::{
    FirstStop, FirstSubject, NO_MEMORY, READ_FAULT, ReadStop, SOURCE_REFUSED, Status, Subject,
    TEXT_REFUSED, WRITE_FAULT, first_subject_in, read, read_line,
};
pub use report::report_of;
pub use sizes::{edges_line, gates_line, has_too_many_edges};
