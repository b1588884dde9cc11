//! What alternatives of instructions make of what lies on the stack.
ghost use Rattle.std.specs.Prelude.{◌≡◌, OnOk};
ghost use Rattle.pv_tree.specs.View.{operand_behind, literal_behind, call_behind};
ghost use Rattle.pv_parse.specs.Items.{stack_of, item_of, token, Leaves};
ghost use Rattle.pv_parse_instr.specs.Fronts.{front_tree};
ghost use Rattle.pv_parse.specs.InstrDeeds.{no_token, instr_of, added, new_code_deed, begun_deed, no_label_deed, label_deed, opening_deed, operand_deed, literal_deed, alone_deed, base_deed, bare_deed, call_deed, instr_deed};

use crate::literals::{negative, number, truth};
use crate::op_texts::{op_of, opening_of};
use crate::parts::{Front, pop_front, pop_instrs, put_instrs};
use pv_lex::Kind;
use pv_parse::{
    CallAction, DeclItem, InstrAction, Item, Sliced, Stop, added, pop_path, pop_token, push,
    push_step, with,
};
use pv_parse_call::{act_on_call, path_name, pop_call, pop_literal, pop_words};
use pv_place::Place;
use pv_tree::{Behind, Instr, Op, Step};
use pv_types::Name;
use std::alloc::{AllocError, Global};

/// A body without instructions begins.
fn new_code(alloc: Global, stack: &mut Vec<Item>) -> Result<(), Stop>
    ensures { Leaves result (stack_of stack.new) (new_code_deed (stack_of stack.old)) }
{
    put_instrs(stack, Vec::new(alloc))?;
    Ok(())
}

/// The instructions behind BEGIN are the body of a block. No more comes, and there is no room beyond them.
fn begun(alloc: Global, stack: &mut Vec<Item>) -> Result<(), Stop>
    ensures { Leaves result (stack_of stack.new) (begun_deed (stack_of stack.old)) }
{
    let list = pop_instrs(alloc, stack)?;
    let (mut list, _word) = with(list, pop_token(stack))?;
    list.shrink_to_fit();
    put_instrs(stack, list)?;
    Ok(())
}

/// No label stands before an instruction so far.
fn no_label(alloc: Global, stack: &mut Vec<Item>) -> Result<(), Stop>
    ensures { Leaves result (stack_of stack.new) (no_label_deed (stack_of stack.old)) }
{
    push(stack, Item::Decl(DeclItem::Words(Vec::new(alloc))))?;
    Ok(())
}

/// A word with `:` behind it is the instruction's label.
fn label(alloc: Global, stack: &mut Vec<Item>) -> Result<(), Stop>
    ensures { Leaves result (stack_of stack.new) (label_deed (stack_of stack.old)) }
{
    let _colon = pop_token(stack)?;
    let token = pop_token(stack)?;
    drop(pop_words(stack)?);
    let name = Name::plain(alloc, token.bytes)?;
    let words = vec![in alloc; (name, token.place)]?;
    push(stack, Item::Decl(DeclItem::Words(words)))?;
    Ok(())
}

/// Puts an instruction behind the others.
fn add(stack: &mut Vec<Item>, front: Front, op: Op, behind: Behind) -> Result<(), AllocError>
    ensures { OnOk result (stack_of stack.new ≡ added (front_tree front.entry) (instr_of (front_tree front.entry) op
        (operand_behind behind) (literal_behind behind) (call_behind behind)) (stack_of stack.old)) }
{
    let instr = Instr {
        label: front.label,
        behind,
        place: front.token.place,
        op,
    };
    let list = added(front.list, instr)?;
    put_instrs(stack, list)
}

/// An instruction with `(`.
fn opening(alloc: Global, stack: &mut Vec<Item>) -> Result<(), Stop>
    ensures { Leaves result (stack_of stack.new) (opening_deed (stack_of stack.old)) }
{
    let _begin = pop_token(stack)?;
    let front = pop_front(alloc, stack)?;
    let op = opening_of(front.token.bytes);
    add(stack, front, op, Behind::Nothing)?;
    Ok(())
}

/// An instruction with an operand.
fn operand(alloc: Global, stack: &mut Vec<Item>) -> Result<(), Stop>
    ensures { Leaves result (stack_of stack.new) (operand_deed (stack_of stack.old)) }
{
    let path = pop_path(stack)?;
    let path = Box::new(alloc, path)?;
    let (path, front) = with(path, pop_front(alloc, stack))?;
    let op = op_of(front.token.bytes);
    add(stack, front, op, Behind::Operand(path))?;
    Ok(())
}

/// One with a literal.
fn literal(alloc: Global, stack: &mut Vec<Item>) -> Result<(), Stop>
    ensures { Leaves result (stack_of stack.new) (literal_deed (stack_of stack.old)) }
{
    let literal = pop_literal(stack)?;
    let literal = Box::new(alloc, literal)?;
    let (literal, front) = with(literal, pop_front(alloc, stack))?;
    let op = op_of(front.token.bytes);
    add(stack, front, op, Behind::Literal(literal))?;
    Ok(())
}

/// One with neither.
fn alone(alloc: Global, stack: &mut Vec<Item>) -> Result<(), Stop>
    ensures { Leaves result (stack_of stack.new) (alone_deed (stack_of stack.old)) }
{
    let front = pop_front(alloc, stack)?;
    let op = op_of(front.token.bytes);
    add(stack, front, op, Behind::Nothing)?;
    Ok(())
}

/// A called function block has an instance data block, behind its comma.
fn base(alloc: Global, stack: &mut Vec<Item>) -> Result<(), Stop>
    ensures { Leaves result (stack_of stack.new) (base_deed (stack_of stack.old)) }
{
    let second = pop_path(stack)?;
    let (second, _comma) = with(second, pop_token(stack))?;
    let (second, path) = with(second, pop_path(stack))?;
    let (path, (name, place)) = with(path, path_name(alloc, second))?;
    push_step(path, Step::Field(name, place), stack)
}

/// A parenthesis of a call that has none in the text.
fn parenthesis<'a>() -> Item<'a>
    ensures { item_of result ≡ token no_token }
{
    Item::Token(Sliced {
        bytes: b"",
        place: Place { file: 0, offset: 0 },
        kind: Kind::Sign,
    })
}

/// What a path leads to is called without arguments: as behind parentheses with nothing in them.
fn bare(alloc: Global, stack: &mut Vec<Item>) -> Result<(), Stop>
    ensures { Leaves result (stack_of stack.new) (bare_deed (stack_of stack.old)) }
{
    push(stack, parenthesis())?;
    act_on_call(alloc, CallAction::NoArgument, stack)?;
    push(stack, parenthesis())?;
    act_on_call(alloc, CallAction::Call, stack)
}

/// CALL or UC: the call begins where its word stands.
fn call(alloc: Global, stack: &mut Vec<Item>) -> Result<(), Stop>
    ensures { Leaves result (stack_of stack.new) (call_deed (stack_of stack.old)) }
{
    let call = pop_call(stack)?;
    let (mut call, front) = with(call, pop_front(alloc, stack))?;
    let op = op_of(front.token.bytes);
    call.place = front.token.place;
    add(stack, front, op, Behind::Call(call))?;
    Ok(())
}

/// What an alternative of instructions does.
pub fn act_on_instr(alloc: Global, action: InstrAction, stack: &mut Vec<Item>) -> Result<(), Stop>
    ensures { Leaves result (stack_of stack.new) (instr_deed action (stack_of stack.old)) }
{
    match action {
        InstrAction::NewCode => new_code(alloc, stack),
        InstrAction::Begun => begun(alloc, stack),
        InstrAction::NoLabel => no_label(alloc, stack),
        InstrAction::Label => label(alloc, stack),
        InstrAction::Number => number(stack),
        InstrAction::Negative => negative(stack),
        InstrAction::Truth => truth(stack),
        InstrAction::Opening => opening(alloc, stack),
        InstrAction::Operand => operand(alloc, stack),
        InstrAction::Literal => literal(alloc, stack),
        InstrAction::Alone => alone(alloc, stack),
        InstrAction::Base => base(alloc, stack),
        InstrAction::Bare => bare(alloc, stack),
        InstrAction::Call => call(alloc, stack),
    }
}
