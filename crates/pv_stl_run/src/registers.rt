//! What instructions work with: accumulators, status bits and open nestings.
ghost use Rattle.std.specs.Prelude.{◌≤◌};

/// How many nestings may be open.
pub const MOST_NESTINGS: u32 = 7;

/// The bits of a chain of bit logic: /FC (a first check was made), RLO (the result so far) and OR (what an O alone keeps).
#[derive(Clone, Copy)]
pub struct Logic {
    pub checked: bool,
    pub rlo: Option<bool>,
    pub kept_or: bool,
}

/// The condition codes.
#[derive(Clone, Copy)]
pub struct Codes {
    pub ov: Option<bool>,
    pub cc1: Option<bool>,
    pub cc0: Option<bool>,
}

/// A function that joins a bit to the result.
#[derive(Clone, Copy)]
pub enum Joining {
    And,
    Or,
    Xor,
}

/// A function, and whether the bit is negated first.
#[derive(Clone, Copy)]
pub struct Junction {
    pub joining: Joining,
    pub negates: bool,
}

/// An open nesting: the bits before it, and the function that its result goes to.
#[derive(Clone, Copy)]
pub struct Nesting {
    pub outer: Logic,
    pub junction: Junction,
}

/// The registers. An accumulator has a number from 0 up to before 2^32, or none. Of the nestings the first `depth` are open, the
/// last one of them last.
#[derive(Clone, Copy)]
pub struct Registers {
    pub accu1: Option<i64>,
    pub accu2: Option<i64>,
    pub logic: Logic,
    pub codes: Codes,
    pub nestings: [Nesting; 7],
    pub depth: u32,
    ghost few: { depth ≤ 7 },
}

pub(crate) const NO_LOGIC: Logic = Logic {
    checked: false,
    rlo: None,
    kept_or: false,
};

pub(crate) const NO_CODES: Codes = Codes {
    ov: None,
    cc1: None,
    cc0: None,
};

const NO_NESTING: Nesting = Nesting {
    outer: NO_LOGIC,
    junction: Junction {
        joining: Joining::And,
        negates: false,
    },
};

impl Registers {
    ghost use Rattle.std.specs.Prelude.{◌≡◌};
    ghost use Rattle.pv_mean.specs.Registers.{fresh};
    ghost use Rattle.pv_stl_run.specs.Views.{registers_of};

    /// As they are at a block's start, and behind a call.
    pub fn fresh() -> Registers
        ensures { registers_of result ≡ fresh }
    {
        Registers {
            accu1: None,
            accu2: None,
            logic: NO_LOGIC,
            codes: NO_CODES,
            nestings: [NO_NESTING; 7],
            depth: 0,
        }
    }
}

impl Logic {
    ghost use Rattle.std.specs.Prelude.{◌≡◌};
    ghost use Rattle.pv_mean.specs.Registers.{resulting};
    ghost use Rattle.pv_stl_run.specs.Views.{logic_of};

    /// A result with OR 0.
    pub(crate) fn resulting(checked: bool, rlo: bool) -> Logic
        ensures { logic_of result ≡ resulting checked rlo }
    {
        Logic {
            checked,
            rlo: Some(rlo),
            kept_or: false,
        }
    }
}
