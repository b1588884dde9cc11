//! What a command reads of a case of the first form, with its Boolean program. It goes through the stages of `pv_command_load`, asking
//! between them whether what is read is of the form. What it says and what its types mean stands in `specs/`.
#![tactic(auto)]

pub mod laws;
mod stop;
mod subject;

pub use pv_command_load::{
    NO_MEMORY, READ_FAULT, ReadStop, SOURCE_REFUSED, SourceText, Status, Subject, TEXT_REFUSED,
    WRITE_FAULT, read, read_line,
};
pub use stop::FirstStop;
pub use subject::{FirstSubject, first_subject_in};
