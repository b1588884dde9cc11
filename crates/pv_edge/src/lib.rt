//! The edge of the program: texts, files and the sink of a report, with what each of them promises.
//!
//! Everything that this program reads or writes goes through [`Files`] and [`Sink`]. The two in
//! memory tell all that they hold; the two of the host tell nothing.
#![tactic(auto)]

mod counts;
pub mod held;
mod host;
pub mod made;
pub mod memory;
pub mod offer;
pub mod outside;
pub mod words;

pub use host::{HostFiles, HostOut};
pub use made::text;
pub use memory::{MemFiles, MemSink};
pub use offer::write_all;
pub use outside::{FileFault, Files, Sink, SinkFault};
pub use words::Text;
