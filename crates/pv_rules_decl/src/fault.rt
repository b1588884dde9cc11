//! The rules by name, and why blocks and symbols are no project.
ghost use Rattle.std.specs.Prelude.{◌≡◌};
ghost use Rattle.pv_tree.specs.Rules.{number_of};
ghost use Rattle.pv_rules_decl.specs.Names.{rule_of};
ghost use Rattle.pv_rules_decl.specs.declared.fault.RuleFault.TheVariants.{NoMemory};

use pv_place::Place;
use std::alloc::{AllocError, AllocFailed};
use thiserror::Error;

/// The rules, each by what breaks it, in the order of their numbers from 1 on.
#[derive(Clone, Copy, Debug)]
pub enum Rule {
    /// A name is declared twice, or two blocks have one name.
    DoubledName,
    /// A name isn't declared, or a field is missing.
    MissingName,
    /// A type isn't declared, or contains itself.
    MissingType,
    /// Types don't fit.
    Misfit,
    /// A condition isn't BOOL.
    WrongCondition,
    /// A literal or a start value is outside its type.
    OutOfRange,
    /// An array can't be laid out.
    WrongArray,
    /// A literal index is outside the bounds.
    BeyondBounds,
    /// A target is a constant, a block or another function's name.
    FixedTarget,
    /// The variable of a FOR isn't a local INT or DINT, or its body assigns it.
    WrongCounter,
    /// BY is zero or outside the variable's type.
    WrongStep,
    /// EXIT or CONTINUE stands outside a loop.
    OutsideLoop,
    /// The selector of a CASE isn't INT or DINT, or a value isn't of its type.
    WrongCase,
    /// Calls form a cycle.
    Cycle,
    /// A chain of calls is too long.
    TooDeep,
    /// A called name can't be called, or the value of a function without one is used.
    NotCallable,
    /// An argument is unknown, given twice or missing.
    WrongArgument,
    /// An argument that is written can't be assigned.
    FixedOutput,
    /// A label is missing or doubled.
    WrongLabel,
    /// Backward jumps cross, or one is entered.
    WrongRange,
    /// Nestings are too many, or not closed or opened.
    WrongNesting,
    /// An instruction doesn't take its operand.
    RefusedOperand,
    /// An address is beyond its area.
    WrongAddress,
    /// An expression is no pattern.
    NoPattern,
}

impl Rule {
    /// The number with which the rule is reported.
    pub fn number(self) -> u8
        ensures { result ≡ number_of (rule_of self) }
    {
        match self {
            Rule::DoubledName => 1,
            Rule::MissingName => 2,
            Rule::MissingType => 3,
            Rule::Misfit => 4,
            Rule::WrongCondition => 5,
            Rule::OutOfRange => 6,
            Rule::WrongArray => 7,
            Rule::BeyondBounds => 8,
            Rule::FixedTarget => 9,
            Rule::WrongCounter => 10,
            Rule::WrongStep => 11,
            Rule::OutsideLoop => 12,
            Rule::WrongCase => 13,
            Rule::Cycle => 14,
            Rule::TooDeep => 15,
            Rule::NotCallable => 16,
            Rule::WrongArgument => 17,
            Rule::FixedOutput => 18,
            Rule::WrongLabel => 19,
            Rule::WrongRange => 20,
            Rule::WrongNesting => 21,
            Rule::RefusedOperand => 22,
            Rule::WrongAddress => 23,
            Rule::NoPattern => 24,
        }
    }
}

/// A rule that is broken, with the place.
#[derive(Clone, Copy, Debug)]
pub struct Breach {
    pub rule: Rule,
    pub place: Place,
}

/// Why blocks and symbols are no project, or an expression no pattern.
#[derive(Clone, Copy, Debug, Drop, Error)]
pub enum RuleFault {
    /// The first breach.
    #[error("a rule is broken")]
    Broken(Breach),
    /// There is no memory.
    #[error("there is no memory")]
    NoMemory,
}

impl From<AllocError> for RuleFault {
    ghost from_gives = { λ _ e. e ≡ NoMemory };

    fn from(_e: AllocError) -> RuleFault {
        RuleFault::NoMemory
    }
}

impl<T: Drop> From<AllocFailed<T>> for RuleFault {
    ghost from_gives = { λ _ e. e ≡ NoMemory };

    fn from(_e: AllocFailed<T>) -> RuleFault {
        RuleFault::NoMemory
    }
}
