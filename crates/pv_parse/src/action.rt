//! What alternatives do when the walk leaves them.
ghost use Rattle.std.specs.Prelude.{◌≡◌, slice_index_or, map, IfOk};
ghost use Rattle.pv_parse.specs.Building.{acts};

use pv_tree::{BinaryOp, UnaryOp};
use std::alloc::{AllocError, Global};

/// What an alternative does with what lies on the stack.
#[derive(Clone, Copy, Debug)]
pub enum Action {
    /// Nothing.
    Keep,
    /// What one of expressions and operands does.
    Expr(ExprAction),
    /// What one of names, literals and declarations does.
    Decl(DeclAction),
    /// What one of blocks and the values of data blocks does.
    Block(BlockAction),
    /// What one of calls does.
    Call(CallAction),
    /// What one of statements does.
    Stmt(StmtAction),
    /// What one of instructions does.
    Instr(InstrAction),
}

/// What an alternative of expressions and operands does.
#[derive(Clone, Copy, Debug)]
pub enum ExprAction {
    /// A word is an operand without steps.
    Word,
    /// So is a quoted name.
    Quoted,
    /// So is a numbered name in one word.
    Numbered,
    /// So is one in two tokens.
    NumberedPair,
    /// So is an address.
    Area,
    /// A path has one more step, to a field.
    Field,
    /// A path has one more step, to an element.
    Index,
    /// A path is read.
    Read,
    /// A path behind `#` is read.
    HashRead,
    /// A number is a literal.
    Number,
    /// TRUE or FALSE is a literal.
    Truth,
    /// An expression stands in parentheses.
    Paren,
    /// An operator stands before its operand.
    Unary(UnaryOp),
    /// This operator stands between two operands.
    Binary(BinaryOp),
    /// `*`, `/` or DIV stands between two operands.
    Times,
    /// `<`, `>`, `<=` or `>=` stands between two operands.
    Compare,
    /// A function of one argument.
    One,
    /// A function of two arguments with words.
    Two,
    /// A function of three arguments with words.
    Three,
}

/// What an alternative of names, literals and declarations does.
#[derive(Clone, Copy, Debug)]
pub enum DeclAction {
    /// A name stands alone.
    Name,
    /// A number is a literal.
    Number,
    /// A number behind `-` is one.
    Negative,
    /// TRUE or FALSE is one.
    Truth,
    /// A declaration begins with a word.
    FirstWord,
    /// It has one more, behind a comma.
    NextWord,
    /// A type begins, in the section of its declaration.
    TypeHead,
    /// The type is a simple one.
    Simple,
    /// It is DATE_AND_TIME.
    Unread,
    /// It is a named one.
    Named,
    /// The bounds of an array were read.
    ArrayHead,
    /// The type of its elements was read.
    Array,
    /// A structure begins.
    StructHead,
    /// It ends.
    Struct,
    /// A start value is written.
    Start,
    /// None is.
    NoStart,
    /// All words of a declaration have its type and its start value.
    Declared,
    /// A constant is declared.
    Constant,
    /// The fields of a data block or a named structure begin.
    OwnHead,
    /// A section of variables begins.
    SectionHead,
    /// A section of constants begins.
    ConstHead,
    /// A token leaves nothing.
    Dropped,
}

/// What an alternative of blocks and the values of data blocks does.
#[derive(Clone, Copy, Debug)]
pub enum BlockAction {
    /// A block has this name.
    Name,
    /// A function has a value of this type.
    Value,
    /// It has none.
    Void,
    /// A section, or a block's own fields, end.
    Closed,
    /// A data block is of a function block or a named structure.
    DataOf,
    /// A path has one more step, to the element at a number.
    PathIndex,
    /// The values of a data block begin.
    DataHead,
    /// A data block has none.
    NoData,
    /// It has one more.
    DataValue,
    /// Statements are the body of a block.
    SclBody,
    /// Statements behind BEGIN are.
    BegunBody,
    /// A source begins.
    NewSource,
    /// A function block ends.
    FunctionBlock,
    /// A function ends.
    Function,
    /// An organization block ends.
    OrganizationBlock,
    /// A data block ends.
    Data,
    /// A named structure ends.
    Structure,
}

/// What an alternative of calls does.
#[derive(Clone, Copy, Debug)]
pub enum CallAction {
    /// A word behind `#` is a path.
    PlainHash,
    /// So is a quoted name there.
    QuotedHash,
    /// So is a word there with its number.
    NumberedHash,
    /// A word behind `.` is a step to a field.
    PlainSecond,
    /// So is a quoted name there.
    QuotedSecond,
    /// So is a word there with its number.
    NumberedSecond,
    /// The first argument with a word.
    FirstArgument,
    /// A further one, behind its comma.
    NextArgument,
    /// No argument.
    NoArgument,
    /// An argument without a word.
    Alone,
    /// What a path leads to is called.
    Call,
    /// The right side of an assignment is a call.
    CallValue,
    /// The right side of an assignment is an expression.
    ExprValue,
}

/// What an alternative of statements does.
#[derive(Clone, Copy, Debug)]
pub enum StmtAction {
    /// A token is forgotten.
    Drop,
    /// A statement that is `;` alone.
    Empty,
    /// EXIT, CONTINUE or RETURN.
    Single,
    /// A call is a statement.
    Call,
    /// A value is assigned to what a path leads to.
    Assign,
    /// A list without statements.
    NewList,
    /// A list has one more statement.
    Add,
    /// The condition behind IF, with its statements.
    FirstArm,
    /// One behind ELSIF.
    NextArm,
    /// ELSE with its statements.
    Else,
    /// No ELSE.
    NoElse,
    /// An IF.
    If,
    /// A literal is a value of a label.
    LiteralChoice,
    /// A word is one.
    WordChoice,
    /// A range begins a label.
    FirstRange,
    /// A single value begins one.
    FirstChoice,
    /// A label has a range more, behind its comma.
    NextRange,
    /// A label has a single value more.
    NextChoice,
    /// A CASE without branches.
    NewBranches,
    /// A label begins its first branch.
    Label,
    /// A label begins the next one.
    NextLabel,
    /// All branches are read.
    Branches,
    /// A CASE.
    Case,
    /// BY with its literal.
    By,
    /// No BY.
    NoBy,
    /// A FOR.
    For,
    /// A WHILE.
    While,
    /// A REPEAT.
    Repeat,
}

/// What an alternative of instructions does.
#[derive(Clone, Copy, Debug)]
pub enum InstrAction {
    /// A body without instructions begins.
    NewCode,
    /// The instructions behind BEGIN are the body of a block.
    Begun,
    /// No label stands before an instruction so far.
    NoLabel,
    /// A word with `:` behind it is the instruction's label.
    Label,
    /// A number is a literal behind an instruction's word.
    Number,
    /// A number behind `-` is one.
    Negative,
    /// TRUE or FALSE is one.
    Truth,
    /// An instruction with `(`.
    Opening,
    /// An instruction with an operand.
    Operand,
    /// One with a literal.
    Literal,
    /// One with neither.
    Alone,
    /// A called function block has an instance data block, behind its comma.
    Base,
    /// What a path leads to is called without arguments.
    Bare,
    /// CALL or UC with its call.
    Call,
}

/// The action of the alternative with this number.
pub fn action_at(actions: &[Action], k: u16) -> Action
    ensures { result ≡ slice_index_or actions.now k Action.Keep }
{
    actions.get(k as usize).copied().unwrap_or(Action::Keep)
}

/// Whether an alternative does anything.
fn acts(action: &Action) -> bool
    ensures { result ≡ acts action.now }
{
    match *action {
        Action::Keep => false,
        Action::Expr(_)
        | Action::Decl(_)
        | Action::Block(_)
        | Action::Call(_)
        | Action::Stmt(_)
        | Action::Instr(_) => true,
    }
}

/// Of each alternative, by its number, whether it does anything.
pub fn acting(alloc: Global, actions: &[Action]) -> Result<Vec<bool>, AllocError>
    ensures { IfOk result (λ flags. flags.items ≡ map acts actions.now) }
{
    let mut flags = Vec::with_capacity(alloc, actions.len())?;
    for action in actions {
        flags.push(acts(action))?;
    }
    Ok(flags)
}
