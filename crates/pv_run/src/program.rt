//! A program: the bodies of a project's blocks with their names found.
ghost use Rattle.std.specs.Prelude.{◌≡◌, ◌≤◌, length};
ghost use Rattle.pv_run.specs.Code.{code_at, statements_end, instrs_in};

use pv_eval::{Expression, Target};
use pv_place::Place;
use pv_stl_run::Instr;
use pv_word::Ty;

/// A part of an array: from the number `first` up to before `end`.
#[derive(Clone, Copy)]
pub struct Span {
    pub first: usize,
    pub end: usize,
}

/// Statements, one behind the other, as a part of the program's statements.
#[derive(Clone, Copy)]
pub struct List {
    pub first: usize,
    pub end: usize,
}

/// A loop that counts: the numbers of its first and last value and of its variable, and the place of the variable.
#[derive(Clone, Copy)]
pub struct Counting {
    pub first: usize,
    pub last: usize,
    pub variable: usize,
    pub variable_place: Place,
    pub by: i64,
}

/// A statement. Values, targets and calls go by their numbers in the program; a loop has its place, and its test is a condition.
#[derive(Clone, Copy)]
pub enum Stmt {
    Assign {
        value: usize,
        to: usize,
    },
    /// The value of a call goes to a target; the place is the call's.
    AssignCall {
        call: usize,
        to: usize,
        place: Place,
    },
    If {
        arms: Span,
        other: List,
    },
    Case {
        selector: usize,
        branches: Span,
        other: List,
    },
    For {
        count: Counting,
        body: List,
        place: Place,
    },
    While {
        test: usize,
        body: List,
        place: Place,
    },
    Repeat {
        body: List,
        test: usize,
        place: Place,
    },
    Exit,
    Continue,
    Return,
    Call(usize),
    Empty,
}

/// A condition, and the statements behind it.
#[derive(Clone, Copy)]
pub struct Arm {
    pub condition: usize,
    pub body: List,
}

/// The values for which a branch of a CASE is chosen, and its statements.
#[derive(Clone, Copy)]
pub struct Branch {
    pub choices: Span,
    pub body: List,
}

/// The values from `low` to `high`.
#[derive(Clone, Copy)]
pub struct Choice {
    pub low: i64,
    pub high: i64,
}

/// The first visible cell of the instance on which a called block works.
#[derive(Clone, Copy)]
pub enum First {
    /// So many cells behind the first one of the caller's instance.
    Own(u16),
    At(u16),
}

/// The cell of a parameter in a called block's activation.
#[derive(Clone, Copy)]
pub enum Slot {
    /// The visible cell that stands so far behind the first one of the block's instance.
    Own(u32),
    /// A brief cell, of this type.
    Brief(Ty, u32),
    Nowhere,
}

/// A value of the caller that goes to a parameter.
#[derive(Clone, Copy)]
pub struct Inward {
    pub value: usize,
    pub to: Slot,
}

/// A parameter that goes to a target of the caller, or is read alone.
#[derive(Clone, Copy)]
pub struct Outward {
    pub from: Slot,
    pub to: Option<usize>,
}

/// A call: the number of the block, if one is run, the instance, what is handed in and out in its order, and the place of the call.
#[derive(Clone, Copy)]
pub struct Called {
    pub block: Option<usize>,
    pub first: First,
    pub inward: Span,
    pub outward: Span,
    pub place: Place,
}

/// The body of a block: statements, or a part of the instructions.
#[derive(Clone, Copy)]
pub enum Body {
    Statements(List),
    Instructions(Span),
}

/// A block's body, how many brief cells it has, and which of them is the value of a function.
#[derive(Clone, Copy)]
pub struct Code {
    pub body: Body,
    pub brief: u32,
    pub value: u32,
}

/// A program.
#[derive(Drop)]
pub struct Program {
    pub stmts: Vec<Stmt>,
    pub instrs: Vec<Instr>,
    pub arms: Vec<Arm>,
    pub branches: Vec<Branch>,
    pub choices: Vec<Choice>,
    pub calls: Vec<Called>,
    pub inward: Vec<Inward>,
    pub outward: Vec<Outward>,
    /// By the numbers of the project's blocks: at least of the one that is entered, and of those that calls lead to from there.
    pub blocks: Vec<Option<Code>>,
    /// The number of the block that is entered.
    pub entry: usize,
    pub values: Vec<Expression>,
    pub targets: Vec<Target>,
    /// The types of the visible cells.
    pub types: Vec<Ty>,
    /// The most turns that one entry into a loop takes.
    pub bound: u32,
    /// How many values are needed to evaluate any expression.
    pub scratch: usize,
    /// How many brief cells one of these blocks has at most.
    pub widest: usize,
    /// How many ranges begin in one of the bodies of instructions at most.
    pub ranges: usize,
}

/// A block at work: the first visible cell of its instance, and how many calls may still stand behind one another.
#[derive(Clone, Copy)]
pub struct At {
    pub first: u32,
    pub calls: u32,
}

impl Body {
    /// Where its statements end, if it has any.
    pub fn statements_end(self) -> usize
        ensures { result ≡ statements_end self }
    {
        match self {
            Body::Statements(list) => list.end,
            Body::Instructions(_) => 0,
        }
    }
}

impl List {
    /// What of the list stands before a statement of this number.
    pub(crate) fn before(self, statement: usize) -> List
        ensures same { self.end ≤ statement → result ≡ self }
        ensures before { result.end ≤ statement }
    {
        List {
            first: self.first,
            end: self.end.min(statement),
        }
    }
}

impl Program {
    /// The instructions of a body.
    pub(crate) fn instrs_in(&self, span: Span) -> &[Instr]
        ensures { span.first ≤ span.end → span.end ≤ length self.now.instrs.items
            → result.now ≡ instrs_in self.now span }
    {
        if span.first <= span.end && span.end <= self.instrs.len() {
            &self.instrs[span.first..span.end]
        } else {
            &[]
        }
    }

    /// The code of the block of this number, if there is one.
    pub(crate) fn code(&self, n: usize) -> Option<Code>
        ensures { result ≡ code_at self.now n }
    {
        match self.blocks.get(n) {
            Some(code) => *code,
            None => None,
        }
    }
}
