//! The places at which the code of a project breaks rules.
ghost use Rattle.std.specs.Prelude.{◌≡◌, None};
ghost use Rattle.pv_rules_code.specs.Nears.{near_ask, HasNothing};
ghost use Rattle.pv_rules_code.specs.Sought.Ask.{Ask};

use pv_place::Place;
use pv_rules_expr::{Near, nothing_near};

/// Of each thing that is looked for at targets the nearest place so far.
#[derive(Clone, Copy)]
pub(crate) struct AimNear {
    pub(crate) fixed: Option<Place>,
    pub(crate) missing: Option<Place>,
    pub(crate) address: Option<Place>,
    pub(crate) misused: Option<Place>,
    pub(crate) beyond: Option<Place>,
}

/// Of each thing that is looked for at arguments the nearest place so far.
#[derive(Clone, Copy)]
pub(crate) struct PassNear {
    pub(crate) misfit: Option<Place>,
    pub(crate) output: Option<Place>,
    pub(crate) unknown: Option<Place>,
    pub(crate) counter: Option<Place>,
}

/// Of each thing that is looked for at calls the nearest place so far.
#[derive(Clone, Copy)]
pub(crate) struct AskNear {
    pub(crate) missing: Option<Place>,
    pub(crate) date: Option<Place>,
    pub(crate) args: PassNear,
    pub(crate) later: Option<Place>,
    pub(crate) lacking: Option<Place>,
}

/// Of each thing that is looked for at the variables of FORs the nearest place so far.
#[derive(Clone, Copy)]
pub(crate) struct CountNear {
    pub(crate) missing: Option<Place>,
    pub(crate) date: Option<Place>,
    pub(crate) other: Option<Place>,
    pub(crate) inner: Option<Place>,
}

/// Of each thing that is looked for at the steps of FORs the nearest place so far.
#[derive(Clone, Copy)]
pub(crate) struct StrideNear {
    pub(crate) wrong: Option<Place>,
    pub(crate) outside: Option<Place>,
}

/// Of each thing that is looked for at the values of CASEs the nearest place so far.
#[derive(Clone, Copy)]
pub(crate) struct PickNear {
    pub(crate) missing: Option<Place>,
    pub(crate) date: Option<Place>,
    pub(crate) outside: Option<Place>,
    pub(crate) other: Option<Place>,
}

/// Of each thing that is looked for at statements and instructions the nearest place so far.
#[derive(Clone, Copy)]
pub(crate) struct SiteNear {
    pub(crate) parts: Near,
    pub(crate) aims: AimNear,
    pub(crate) counted: Option<Place>,
    pub(crate) asks: AskNear,
    pub(crate) counts: CountNear,
    pub(crate) strides: StrideNear,
    pub(crate) picks: PickNear,
    pub(crate) misfit: Option<Place>,
    pub(crate) selector: Option<Place>,
    pub(crate) condition: Option<Place>,
    pub(crate) leave: Option<Place>,
}

/// Nothing was found at a call yet.
fn no_asks() -> AskNear
    ensures { (what : Ask) → near_ask what result ≡ None }
{
    AskNear {
        missing: None,
        date: None,
        args: PassNear {
            misfit: None,
            output: None,
            unknown: None,
            counter: None,
        },
        later: None,
        lacking: None,
    }
}

/// Nothing was found yet.
pub(crate) fn nothing_yet() -> SiteNear
    ensures { HasNothing result }
{
    SiteNear {
        parts: nothing_near(),
        aims: AimNear {
            fixed: None,
            missing: None,
            address: None,
            misused: None,
            beyond: None,
        },
        counted: None,
        asks: no_asks(),
        counts: CountNear {
            missing: None,
            date: None,
            other: None,
            inner: None,
        },
        strides: StrideNear {
            wrong: None,
            outside: None,
        },
        picks: PickNear {
            missing: None,
            date: None,
            outside: None,
            other: None,
        },
        misfit: None,
        selector: None,
        condition: None,
        leave: None,
    }
}

/// Of each rule on code the nearest place at which the statements and instructions of a project break it.
#[derive(Clone, Copy)]
pub struct CodeNear {
    /// A condition that isn't BOOL.
    pub condition: Option<Place>,
    /// EXIT or CONTINUE outside a loop.
    pub leave: Option<Place>,
    /// A target to which nothing can be assigned.
    pub target: Option<Place>,
    /// An argument for an output or a VAR_IN_OUT that can't be assigned.
    pub output: Option<Place>,
    /// A FOR's variable that isn't a local INT or DINT, or that its body writes.
    pub counter: Option<Place>,
    /// A step that is zero or outside the type of its FOR's variable.
    pub step: Option<Place>,
    /// A selector that isn't INT or DINT, or a value that isn't one of its type.
    pub choice: Option<Place>,
    /// An argument that is unknown or given twice, or a call that doesn't give all that it has to.
    pub argument: Option<Place>,
    /// An address that there isn't.
    pub address: Option<Place>,
    /// A name that isn't declared, or a field that is missing.
    pub missing: Option<Place>,
    /// Types that don't fit, but for indexes and for dates that operands come to.
    pub misfit: Option<Place>,
    /// A literal outside its type, in expressions and in the steps and values of statements. The literal that an instruction takes
    /// itself has rules of its own.
    pub outside: Option<Place>,
    /// An index at what is no array or of another type, or a variable of DATE_AND_TIME, in operands.
    pub misused: Option<Place>,
    /// A literal index beyond the bounds.
    pub beyond: Option<Place>,
    /// The name of a function without a value, read in an expression. No rule says this alone: a call may write it.
    pub void: Option<Place>,
}
