//! Words that reports have, and their first lines.
ghost use Rattle.std.specs.Prelude.{◌≡◌, IfOk, string_bytes};
ghost use Rattle.pv_report.specs.Words.{pattern_word, trap_word, head_text};

use pv_case::PatternKind;
use pv_place::TrapKind;
use std::alloc::{AllocError, Global};

/// The name of a kind of requirements.
pub fn pattern_name(kind: PatternKind) -> &'static str
    ensures { result.now ≡ pattern_word kind }
{
    match kind {
        PatternKind::Invariant => "invariant",
        PatternKind::Forbidden => "forbidden",
        PatternKind::Implication => "implication",
        PatternKind::Within => "within",
        PatternKind::Between => "between",
        PatternKind::Reach => "reach",
    }
}

/// The name of a kind of traps.
pub fn trap_name(kind: TrapKind) -> &'static str
    ensures { result.now ≡ trap_word kind }
{
    match kind {
        TrapKind::DivideByZero => "DivideByZero",
        TrapKind::Index => "Index",
        TrapKind::Unset => "Unset",
    }
}

/// The first three lines of each report: `PLCV 1`, `case NAME`, `pattern KIND`.
pub fn head(alloc: Global, case: &String, kind: PatternKind) -> Result<String, AllocError>
    ensures { IfOk result (λ text. string_bytes text ≡ head_text (string_bytes case.now) kind) }
{
    let kind = pattern_name(kind);
    format!(in alloc; "PLCV 1\ncase {case}\npattern {kind}\n")
}
