//! What alternatives of blocks and of the values of data blocks make of what lies on the stack.
ghost use Rattle.std.specs.Prelude.{◌≡◌, ◌++◌, ◌∷◌, [], None, IfOk, OnOk};
ghost use Rattle.pv_types.specs.View.{var_trees};
ghost use Rattle.pv_tree.specs.View.{body_tree, block_trees};
ghost use Rattle.pv_parse.specs.Items.{stack_of, head_tree, Leaves};
ghost use Rattle.pv_parse.specs.BlockDeeds.{block_of, block_name_deed, value_deed, void_deed, closed_deed, data_of_deed, path_index_deed, data_head_deed, no_data_deed, data_value_deed, scl_body_deed, begun_body_deed, new_source_deed, code_deed, data_deed, structure_deed, block_deed};

use crate::decl_texts::type_of_word;
use crate::pops::{pop_blocks, pop_fields, pop_heading, pop_name, pop_values, put};
use pv_parse::{
    BlockAction, DeclItem, Heading, Item, Stop, added, pop_path, pop_token, push_step, with,
};
use pv_parse_call::{pop_body, pop_literal};
use pv_parse_stmt::pop_stmts;
use pv_tree::{Block, BlockKind, Body, Expr, Step};
use pv_types::{Interface, Vars};
use std::alloc::{AllocError, Global};

/// A block has this name.
fn block_name(alloc: Global, stack: &mut Vec<Item>) -> Result<(), Stop>
    ensures { Leaves result (stack_of stack.new) (block_name_deed (stack_of stack.old)) }
{
    let (name, place) = pop_name(stack)?;
    let heading = Heading {
        name,
        place,
        vars: Vec::new(alloc),
        value: None,
        of: None,
    };
    let heading = Box::new(alloc, heading)?;
    put(stack, DeclItem::Heading(heading))?;
    Ok(())
}

/// A function has a value of this type.
fn value(stack: &mut Vec<Item>) -> Result<(), Stop>
    ensures { Leaves result (stack_of stack.new) (value_deed (stack_of stack.old)) }
{
    let token = pop_token(stack)?;
    let _colon = pop_token(stack)?;
    let mut heading = pop_heading(stack)?;
    heading.value = Some(type_of_word(token.bytes));
    put(stack, DeclItem::Heading(heading))?;
    Ok(())
}

/// It has none.
fn void(stack: &mut Vec<Item>) -> Result<(), Stop>
    ensures { Leaves result (stack_of stack.new) (void_deed (stack_of stack.old)) }
{
    let _word = pop_token(stack)?;
    let _colon = pop_token(stack)?;
    let mut heading = pop_heading(stack)?;
    heading.value = None;
    put(stack, DeclItem::Heading(heading))?;
    Ok(())
}

/// Puts variables behind others.
fn append(vars: &mut Vec<Vars>, more: Vec<Vars>) -> Result<(), AllocError>
    ensures { OnOk result (var_trees vars.new.items
        ≡ var_trees vars.old.items ++ var_trees more.items) }
{
    let mut more = more;
    vars.append(&mut more)?;
    Ok(())
}

/// A section, or a block's own fields, end.
fn closed(stack: &mut Vec<Item>) -> Result<(), Stop>
    ensures { Leaves result (stack_of stack.new) (closed_deed (stack_of stack.old)) }
{
    let _end = pop_token(stack)?;
    let fields = pop_fields(stack)?;
    let (fields, mut heading) = with(fields, pop_heading(stack))?;
    let appended = append(&mut heading.vars, fields.vars);
    let (heading, ()) = with(heading, appended)?;
    put(stack, DeclItem::Heading(heading))?;
    Ok(())
}

/// A data block is of a function block or a named structure.
fn data_of(stack: &mut Vec<Item>) -> Result<(), Stop>
    ensures { Leaves result (stack_of stack.new) (data_of_deed (stack_of stack.old)) }
{
    let name = pop_name(stack)?;
    let (name, mut heading) = with(name, pop_heading(stack))?;
    heading.of = Some(name);
    put(stack, DeclItem::Heading(heading))?;
    Ok(())
}

/// A path has one more step, to the element at a number.
fn path_index(alloc: Global, stack: &mut Vec<Item>) -> Result<(), Stop>
    ensures { Leaves result (stack_of stack.new) (path_index_deed (stack_of stack.old)) }
{
    let _end = pop_token(stack)?;
    let literal = pop_literal(stack)?;
    let begin = pop_token(stack)?;
    let path = pop_path(stack)?;
    let at = Expr::Lit {
        ty: literal.ty,
        value: literal.value,
        place: literal.place,
    };
    let (path, at) = with(path, Box::new(alloc, at))?;
    push_step(path, Step::Index(at, begin.place), stack)
}

/// The values of a data block begin.
fn data_head(alloc: Global, stack: &mut Vec<Item>) -> Result<(), Stop>
    ensures { Leaves result (stack_of stack.new) (data_head_deed (stack_of stack.old)) }
{
    let _word = pop_token(stack)?;
    put(stack, DeclItem::Values(Vec::new(alloc)))?;
    Ok(())
}

/// A data block has none.
fn no_data(alloc: Global, stack: &mut Vec<Item>) -> Result<(), Stop>
    ensures { Leaves result (stack_of stack.new) (no_data_deed (stack_of stack.old)) }
{
    put(stack, DeclItem::Values(Vec::new(alloc)))?;
    Ok(())
}

/// It has one more.
fn data_value(stack: &mut Vec<Item>) -> Result<(), Stop>
    ensures { Leaves result (stack_of stack.new) (data_value_deed (stack_of stack.old)) }
{
    let _end = pop_token(stack)?;
    let literal = pop_literal(stack)?;
    let _sign = pop_token(stack)?;
    let path = pop_path(stack)?;
    let (path, values) = with(path, pop_values(stack))?;
    let values = added(values, (path, literal))?;
    put(stack, DeclItem::Values(values))?;
    Ok(())
}

/// The statements of a block are its body.
fn scl_body(stack: &mut Vec<Item>) -> Result<(), Stop>
    ensures { Leaves result (stack_of stack.new) (scl_body_deed (stack_of stack.old)) }
{
    let list = pop_stmts(stack)?;
    put(stack, DeclItem::Body(Body::Scl(list)))?;
    Ok(())
}

/// So are those behind BEGIN.
fn begun_body(stack: &mut Vec<Item>) -> Result<(), Stop>
    ensures { Leaves result (stack_of stack.new) (begun_body_deed (stack_of stack.old)) }
{
    let list = pop_stmts(stack)?;
    let (list, _word) = with(list, pop_token(stack))?;
    put(stack, DeclItem::Body(Body::Scl(list)))?;
    Ok(())
}

/// A source begins.
fn new_source(alloc: Global, stack: &mut Vec<Item>) -> Result<(), Stop>
    ensures { Leaves result (stack_of stack.new) (new_source_deed (stack_of stack.old)) }
{
    put(stack, DeclItem::Blocks(Vec::new(alloc)))?;
    Ok(())
}

/// The blocks with one more behind them.
fn with_block(
    blocks: Vec<Block>,
    kind: BlockKind,
    heading: Heading,
    body: Body,
) -> Result<Vec<Block>, AllocError>
    ensures { IfOk result (λ more. block_trees more.items ≡ block_trees blocks.items
        ++ block_of kind (head_tree heading) (body_tree body) ∷ []) }
{
    drop(heading.of);
    let interface = Interface {
        vars: heading.vars,
        value: heading.value,
    };
    let block = Block {
        kind,
        name: heading.name,
        interface,
        body,
        place: heading.place,
    };
    added(blocks, block)
}

/// A block with code ends.
fn code(kind: BlockKind, stack: &mut Vec<Item>) -> Result<(), Stop>
    ensures { Leaves result (stack_of stack.new) (code_deed kind (stack_of stack.old)) }
{
    let _end = pop_token(stack)?;
    let body = pop_body(stack)?;
    let (body, heading) = with(body, pop_heading(stack))?;
    let ((body, heading), _word) = with((body, heading), pop_token(stack))?;
    let ((body, heading), blocks) = with((body, heading), pop_blocks(stack))?;
    let blocks = with_block(blocks, kind, Box::into_inner(heading), body)?;
    put(stack, DeclItem::Blocks(blocks))?;
    Ok(())
}

/// The heading of a data block, and what the block is of.
fn without_of(heading: Heading) -> (Heading, BlockKind)
    ensures heading { head_tree result.0 ≡ record (head_tree heading) { of = None } }
    ensures kind { result.1 ≡ BlockKind.Db heading.of }
{
    let kind = BlockKind::Db { of: heading.of };
    let heading = Heading {
        name: heading.name,
        place: heading.place,
        vars: heading.vars,
        value: heading.value,
        of: None,
    };
    (heading, kind)
}

/// A data block ends.
fn data(stack: &mut Vec<Item>) -> Result<(), Stop>
    ensures { Leaves result (stack_of stack.new) (data_deed (stack_of stack.old)) }
{
    let _end = pop_token(stack)?;
    let values = pop_values(stack)?;
    let (values, heading) = with(values, pop_heading(stack))?;
    let ((values, heading), _word) = with((values, heading), pop_token(stack))?;
    let ((values, heading), blocks) = with((values, heading), pop_blocks(stack))?;
    let (heading, kind) = without_of(Box::into_inner(heading));
    let blocks = with_block(blocks, kind, heading, Body::Starts(values))?;
    put(stack, DeclItem::Blocks(blocks))?;
    Ok(())
}

/// A named structure ends.
fn structure(alloc: Global, stack: &mut Vec<Item>) -> Result<(), Stop>
    ensures { Leaves result (stack_of stack.new) (structure_deed (stack_of stack.old)) }
{
    let _end = pop_token(stack)?;
    let heading = pop_heading(stack)?;
    let (heading, _word) = with(heading, pop_token(stack))?;
    let (heading, blocks) = with(heading, pop_blocks(stack))?;
    let body = Body::Starts(Vec::new(alloc));
    let blocks = with_block(blocks, BlockKind::Udt, Box::into_inner(heading), body)?;
    put(stack, DeclItem::Blocks(blocks))?;
    Ok(())
}

/// What an alternative of blocks and the values of data blocks does.
pub fn act_on_block(alloc: Global, action: BlockAction, stack: &mut Vec<Item>) -> Result<(), Stop>
    ensures { Leaves result (stack_of stack.new) (block_deed action (stack_of stack.old)) }
{
    match action {
        BlockAction::Name => block_name(alloc, stack),
        BlockAction::Value => value(stack),
        BlockAction::Void => void(stack),
        BlockAction::Closed => closed(stack),
        BlockAction::DataOf => data_of(stack),
        BlockAction::PathIndex => path_index(alloc, stack),
        BlockAction::DataHead => data_head(alloc, stack),
        BlockAction::NoData => no_data(alloc, stack),
        BlockAction::DataValue => data_value(stack),
        BlockAction::SclBody => scl_body(stack),
        BlockAction::BegunBody => begun_body(stack),
        BlockAction::NewSource => new_source(alloc, stack),
        BlockAction::FunctionBlock => code(BlockKind::Fb, stack),
        BlockAction::Function => code(BlockKind::Fc, stack),
        BlockAction::OrganizationBlock => code(BlockKind::Ob, stack),
        BlockAction::Data => data(stack),
        BlockAction::Structure => structure(alloc, stack),
    }
}
