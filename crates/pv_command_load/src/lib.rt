//! What a command reads before its second file: its case, the sources that the case names, and what both say together.
//!
//! A command goes through stages: the case; the sources, one by one; the rules over all of them; the entered block with its cells; and
//! what the case says of these. Each stage has a module with what it makes and a type of why a command stops there; `SubjectStop` is one
//! of them, and `subject_in` goes through all. What they mean stands in `specs/`.
#![tactic(auto)]

mod case;
mod fit;
pub mod laws;
mod position;
mod project;
mod reading;
mod source;
mod sources;
mod status;
mod subject;
mod table;

pub use case::{CaseStop, case_in};
pub use fit::{FitStop, fitted};
pub use position::{SourcePosition, SourceText};
pub use project::{ProjectStop, project_of};
pub use pv_laws_readings::laws::{sources_are_judged_in_one_way, texts_are_one_name};
pub use reading::{ReadStop, read, read_line};
pub use source::{SourceStop, blocks_of};
pub use sources::{Sources, sources_in};
pub use status::{
    CASE_REFUSED, HOLDS, HOLDS_NOT, NO_MEMORY, READ_FAULT, SOURCE_REFUSED, Status, TEXT_REFUSED,
    UNDECIDED, WORDS_REFUSED, WRITE_FAULT,
};
pub use subject::{Subject, SubjectStop, subject_in};
pub use table::{TableStop, table_of};
