//! Boolean programs.
ghost use Rattle.std.specs.Prelude.{◌≡◌};
ghost use Rattle.pv_bool.specs.Roles.{is_input, is_kept};
ghost use Rattle.pv_bool.specs.Tree.{tree_of, IsProgram, IsProgram-prop};

/// How a bit takes part in a scan. A program has neither parameters nor bits that live for one
/// activation alone: a source that has such cells is not of the form that becomes a program.
#[derive(Clone, Copy, PartialEq, Eq, Debug)]
pub enum BitRole {
    /// It takes a value from each scan's input.
    Input,
    /// It keeps its value from one scan's end to the next scan's beginning.
    Kept,
}

impl BitRole {
    /// Whether the bit takes a value from each scan's input.
    pub fn is_input(self) -> bool
        ensures { result ≡ is_input self }
    {
        match self {
            BitRole::Input => true,
            BitRole::Kept => false,
        }
    }

    /// Whether a state has a value for the bit.
    pub fn is_kept(self) -> bool
        ensures { result ≡ is_kept self }
    {
        match self {
            BitRole::Input => false,
            BitRole::Kept => true,
        }
    }
}

/// A bit of a program: how it takes part in a scan, and its value before the first one, which an
/// input's first scan takes anew.
#[derive(Clone, Copy, PartialEq, Eq, Debug)]
pub struct Bit {
    pub role: BitRole,
    pub start: bool,
}

/// A term over the bits of a program, which it names by their numbers, from 0.
#[derive(Drop)]
pub enum Term {
    Constant(bool),
    Load(u32),
    Not(Box<Term>),
    And(Box<Term>, Box<Term>),
    Or(Box<Term>, Box<Term>),
}

/// An assignment: the number of the bit that takes the term's value.
#[derive(Drop)]
pub struct Assignment {
    pub target: u32,
    pub value: Term,
}

/// A program: its bits, the assignments of a scan in order, and the requirement that is to hold
/// behind them.
#[derive(Drop)]
pub struct Program {
    pub bits: Vec<Bit>,
    pub body: Vec<Assignment>,
    pub holds: Term,
    /// What is loaded or assigned is one of the bits.
    ghost own: { IsProgram (tree_of bits.items body.items holds) } by { IsProgram-prop (tree_of bits.items body.items holds) },
}
