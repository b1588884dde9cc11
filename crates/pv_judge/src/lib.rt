//! The walk over a certificate's lines that finds what is wrong first, over any case.
//!
//! Each step answers as a plain function on lists does (`pv_valid`'s `specs/Walk.antt`), or that memory ran out. One formula is made at a
//! time, and it is given up before the next one.
#![tactic(auto)]

mod bytes;
mod certificate;
mod expected;
mod joined;
mod lemmas;
mod logs;
mod proofs;
mod trace;
mod values;
mod words;

pub use bytes::judge_bytes;
pub use certificate::judge;
