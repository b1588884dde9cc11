//! Why texts are no pattern.
ghost use Rattle.std.specs.Prelude.{◌≡◌};

use pv_rules_decl::Rule;
use std::alloc::{AllocError, AllocFailed};
use thiserror::Error;

/// Why a text says nothing of a scan; of several reasons the first.
#[derive(Clone, Copy, Debug, Drop, Error)]
pub enum TextFault {
    /// It reads as no expression.
    #[error("the text reads as no expression")]
    Unread,
    /// The rule of the first breach in its expression.
    #[error("the expression breaks a rule")]
    Broken(Rule),
    /// Its expression reads a variable that lives for one activation.
    #[error("the expression reads a cell that isn't visible")]
    BriefCell,
    /// Its expression isn't one of BOOL.
    #[error("the expression isn't BOOL")]
    NotBool,
    #[error("out of memory")]
    NoMemory,
}

impl From<AllocError> for TextFault {
    ghost use Rattle.pv_pattern_read.specs.declared.fault.TextFault.TheVariants.{NoMemory};

    ghost from_gives = { λ _ fault. fault ≡ NoMemory };

    fn from(_error: AllocError) -> TextFault {
        TextFault::NoMemory
    }
}

/// Why texts are no pattern: the first expression that is at fault, a being number 0, and how.
#[derive(Clone, Copy, Debug, Drop, Error)]
pub enum PatternFault {
    #[error("expression {expression} reads as none")]
    Text { expression: u8 },
    #[error("expression {expression} breaks a rule")]
    Rule { expression: u8, rule: Rule },
    #[error("expression {expression} reads a cell that isn't visible")]
    BriefCell { expression: u8 },
    #[error("expression {expression} isn't BOOL")]
    NotBool { expression: u8 },
    #[error("out of memory")]
    NoMemory,
}

impl From<AllocError> for PatternFault {
    ghost use Rattle.pv_pattern_read.specs.declared.fault.PatternFault.TheVariants.{NoMemory};

    ghost from_gives = { λ _ fault. fault ≡ NoMemory };

    fn from(_error: AllocError) -> PatternFault {
        PatternFault::NoMemory
    }
}

impl<T: Drop> From<AllocFailed<T>> for PatternFault {
    ghost use Rattle.pv_pattern_read.specs.declared.fault.PatternFault.TheVariants.{NoMemory};

    ghost from_gives = { λ _ fault. fault ≡ NoMemory };

    fn from(_error: AllocFailed<T>) -> PatternFault {
        PatternFault::NoMemory
    }
}
