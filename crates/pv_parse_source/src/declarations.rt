//! What alternatives of names, literals and declarations make of what lies on the stack.
ghost use Rattle.std.specs.Prelude.{◌≡◌, ◌++◌, [], ◌∷◌, Some, OnOk};
ghost use Rattle.pv_types.specs.View.{type_tree, vars_tree, var_trees};
ghost use Rattle.pv_tree.specs.Tree.{PlacedName};
ghost use Rattle.pv_parse.specs.Items.{stack_of, path_tree, Leaves, Finds};
ghost use Rattle.pv_parse.specs.DeclStack.{name_of};
ghost use Rattle.pv_parse.specs.DeclDeeds.{declared, name_deed, number_deed, negative_deed, truth_deed, first_word_deed, next_word_deed, type_head_deed, simple_deed, unread_deed, named_deed, array_head_deed, array_deed, struct_head_deed, struct_deed, start_deed, no_start_deed, declared_deed, constant_of, constant_deed, own_head_deed, section_head_deed, const_head_deed, dropped_deed, decl_deed};

use crate::decl_texts::{section_of_word, type_alone, type_of_word};
use crate::pops::{
    pop_around, pop_bounds, pop_fields, pop_name, pop_start, pop_typed, put, put_typed,
};
use pv_lex::token_value;
use pv_parse::{
    Bounds, DeclAction, DeclItem, Fields, Item, Stop, added, negated_value, number_type, pop_path,
    pop_token, pop_word, push, truth_of, with,
};
use pv_parse_call::{pop_literal, pop_words};
use pv_place::Place;
use pv_tree::{Operand, Root};
use pv_types::{DeclType, Literal, Name, Section, Vars};
use pv_word::Ty;
use std::alloc::{AllocError, Global};

/// The name with which an operand begins.
fn name_in(root: Root) -> Result<Name, Stop>
    ensures { Finds (λ name. name) result (name_of root) }
{
    match root {
        Root::Local { name, .. } => Ok(name),
        Root::Named(name) => Ok(name),
        _ => Err(Stop::Mistyped),
    }
}

/// The name with which a path begins.
fn name_of(path: Operand) -> Result<Name, Stop>
    ensures { Finds (λ name. name) result (name_of (path_tree path).root) }
{
    drop(path.steps);
    name_in(Box::into_inner(path.root))
}

/// A name stands alone.
fn name(stack: &mut Vec<Item>) -> Result<(), Stop>
    ensures { Leaves result (stack_of stack.new) (name_deed (stack_of stack.old)) }
{
    let path = pop_path(stack)?;
    let place = path.place;
    let name = name_of(path)?;
    put(stack, DeclItem::Name(name, place))?;
    Ok(())
}

/// A number is a literal.
fn number(stack: &mut Vec<Item>) -> Result<(), Stop>
    ensures { Leaves result (stack_of stack.new) (number_deed (stack_of stack.old)) }
{
    let token = pop_token(stack)?;
    let literal = Literal {
        ty: number_type(token.bytes),
        value: token_value(token.kind, token.bytes),
        place: token.place,
    };
    push(stack, Item::Literal(literal))?;
    Ok(())
}

/// A number behind `-` is a literal.
fn negative(stack: &mut Vec<Item>) -> Result<(), Stop>
    ensures { Leaves result (stack_of stack.new) (negative_deed (stack_of stack.old)) }
{
    let token = pop_token(stack)?;
    let minus = pop_token(stack)?;
    let value = negated_value(token.kind, token.bytes);
    let literal = Literal {
        ty: number_type(token.bytes),
        value,
        place: minus.place,
    };
    push(stack, Item::Literal(literal))?;
    Ok(())
}

/// TRUE or FALSE is a literal.
fn truth(stack: &mut Vec<Item>) -> Result<(), Stop>
    ensures { Leaves result (stack_of stack.new) (truth_deed (stack_of stack.old)) }
{
    let token = pop_token(stack)?;
    let literal = Literal {
        ty: Some(Ty::Bool),
        value: truth_of(token.bytes),
        place: token.place,
    };
    push(stack, Item::Literal(literal))?;
    Ok(())
}

/// A declaration begins with a word.
fn first_word(alloc: Global, stack: &mut Vec<Item>) -> Result<(), Stop>
    ensures { Leaves result (stack_of stack.new) (first_word_deed (stack_of stack.old)) }
{
    let word = pop_word(stack)?;
    let words = vec![in alloc; word]?;
    put(stack, DeclItem::Words(words))?;
    Ok(())
}

/// It has one more, behind a comma.
fn next_word(stack: &mut Vec<Item>) -> Result<(), Stop>
    ensures { Leaves result (stack_of stack.new) (next_word_deed (stack_of stack.old)) }
{
    let word = pop_word(stack)?;
    let (word, _comma) = with(word, pop_token(stack))?;
    let (word, words) = with(word, pop_words(stack))?;
    let words = added(words, word)?;
    put(stack, DeclItem::Words(words))?;
    Ok(())
}

/// A type begins, in the section of its declaration.
fn type_head(stack: &mut Vec<Item>) -> Result<(), Stop>
    ensures { Leaves result (stack_of stack.new) (type_head_deed (stack_of stack.old)) }
{
    let _colon = pop_token(stack)?;
    let words = pop_words(stack)?;
    let (words, fields) = with(words, pop_fields(stack))?;
    let section = fields.section;
    let laid = put(stack, DeclItem::Fields(fields));
    let (words, ()) = with(words, laid)?;
    put(stack, DeclItem::Words(words))?;
    put(stack, DeclItem::Around(section))?;
    Ok(())
}

/// The type is a simple one.
fn simple(alloc: Global, stack: &mut Vec<Item>) -> Result<(), Stop>
    ensures { Leaves result (stack_of stack.new) (simple_deed (stack_of stack.old)) }
{
    let token = pop_token(stack)?;
    let _around = pop_around(stack)?;
    let ty = type_of_word(token.bytes);
    put_typed(alloc, stack, DeclType::Plain(ty))?;
    Ok(())
}

/// It is DATE_AND_TIME.
fn unread(alloc: Global, stack: &mut Vec<Item>) -> Result<(), Stop>
    ensures { Leaves result (stack_of stack.new) (unread_deed (stack_of stack.old)) }
{
    let _word = pop_token(stack)?;
    let _around = pop_around(stack)?;
    put_typed(alloc, stack, DeclType::Unread)?;
    Ok(())
}

/// It is a named one.
fn named(alloc: Global, stack: &mut Vec<Item>) -> Result<(), Stop>
    ensures { Leaves result (stack_of stack.new) (named_deed (stack_of stack.old)) }
{
    let name = pop_name(stack)?;
    let ((name, place), _around) = with(name, pop_around(stack))?;
    put_typed(alloc, stack, DeclType::Named(name, place))?;
    Ok(())
}

/// The bounds of an array were read; the section comes on top again.
fn array_head(stack: &mut Vec<Item>) -> Result<(), Stop>
    ensures { Leaves result (stack_of stack.new) (array_head_deed (stack_of stack.old)) }
{
    let _of = pop_token(stack)?;
    let _close = pop_token(stack)?;
    let high = pop_literal(stack)?;
    let _dots = pop_token(stack)?;
    let low = pop_literal(stack)?;
    let _begin = pop_token(stack)?;
    let word = pop_token(stack)?;
    let around = pop_around(stack)?;
    let bounds = Bounds {
        low: low.value,
        high: high.value,
        place: word.place,
    };
    put(stack, DeclItem::Bounds(bounds))?;
    put(stack, DeclItem::Around(around))?;
    Ok(())
}

/// The type of an array's elements was read.
fn array(alloc: Global, stack: &mut Vec<Item>) -> Result<(), Stop>
    ensures { Leaves result (stack_of stack.new) (array_deed (stack_of stack.old)) }
{
    let of = pop_typed(stack)?;
    let (of, bounds) = with(of, pop_bounds(stack))?;
    let ty = DeclType::Array {
        low: bounds.low,
        high: bounds.high,
        of,
        place: bounds.place,
    };
    put_typed(alloc, stack, ty)?;
    Ok(())
}

/// Variables of this section, none so far.
fn no_fields(alloc: Global, section: Section) -> Fields
    ensures section { result.section ≡ section }
    ensures vars { result.vars.items ≡ [] }
{
    Fields {
        section,
        vars: Vec::new(alloc),
    }
}

/// A structure begins, in the section around it.
fn struct_head(alloc: Global, stack: &mut Vec<Item>) -> Result<(), Stop>
    ensures { Leaves result (stack_of stack.new) (struct_head_deed (stack_of stack.old)) }
{
    let _word = pop_token(stack)?;
    let around = pop_around(stack)?;
    put(stack, DeclItem::Fields(no_fields(alloc, around)))?;
    Ok(())
}

/// It ends.
fn structure(alloc: Global, stack: &mut Vec<Item>) -> Result<(), Stop>
    ensures { Leaves result (stack_of stack.new) (struct_deed (stack_of stack.old)) }
{
    let _end = pop_token(stack)?;
    let fields = pop_fields(stack)?;
    put_typed(alloc, stack, DeclType::Struct(fields.vars))?;
    Ok(())
}

/// A start value is written.
fn start(stack: &mut Vec<Item>) -> Result<(), Stop>
    ensures { Leaves result (stack_of stack.new) (start_deed (stack_of stack.old)) }
{
    let literal = pop_literal(stack)?;
    let _sign = pop_token(stack)?;
    put(stack, DeclItem::Start(Some(literal)))?;
    Ok(())
}

/// None is.
fn no_start(stack: &mut Vec<Item>) -> Result<(), Stop>
    ensures { Leaves result (stack_of stack.new) (no_start_deed (stack_of stack.old)) }
{
    put(stack, DeclItem::Start(None))?;
    Ok(())
}

/// Puts the variables of words that are declared at once behind others.
fn add_vars(
    vars: &mut Vec<Vars>,
    section: Section,
    ty: DeclType,
    start: Option<Literal>,
    words: Vec<(Name, Place)>,
) -> Result<(), AllocError>
    ensures { OnOk result (var_trees vars.new.items
        ≡ var_trees vars.old.items ++ declared section (type_tree ty) start words.items) }
{
    vars.push(Vars {
        names: words,
        section,
        ty,
        start,
    })?;
    Ok(())
}

/// All words of a declaration have its type and its start value.
fn declaration(stack: &mut Vec<Item>) -> Result<(), Stop>
    ensures { Leaves result (stack_of stack.new) (declared_deed (stack_of stack.old)) }
{
    let _end = pop_token(stack)?;
    let start = pop_start(stack)?;
    let ty = pop_typed(stack)?;
    let (ty, words) = with(ty, pop_words(stack))?;
    let ((ty, words), mut fields) = with((ty, words), pop_fields(stack))?;
    let section = fields.section;
    let declared = add_vars(&mut fields.vars, section, Box::into_inner(ty), start, words);
    let (fields, ()) = with(fields, declared)?;
    put(stack, DeclItem::Fields(fields))?;
    Ok(())
}

/// The constant of a word and a literal.
fn constant_of(names: Vec<(Name, Place)>, literal: Literal) -> Vars
    ensures { (word : PlacedName) → names.items ≡ word ∷ []
        → vars_tree result ≡ constant_of word literal ∷ [] }
{
    let ty = type_alone(literal.ty, literal.value);
    Vars {
        names,
        section: Section::Const,
        ty: DeclType::Plain(ty),
        start: Some(literal),
    }
}

/// Puts the constant of a word and a literal behind variables.
fn add_constant(
    alloc: Global,
    vars: &mut Vec<Vars>,
    word: (Name, Place),
    literal: Literal,
) -> Result<(), AllocError>
    ensures { OnOk result (var_trees vars.new.items
        ≡ var_trees vars.old.items ++ constant_of word literal ∷ []) }
{
    let names = vec![in alloc; word]?;
    vars.push(constant_of(names, literal))?;
    Ok(())
}

/// A constant is declared.
fn constant(alloc: Global, stack: &mut Vec<Item>) -> Result<(), Stop>
    ensures { Leaves result (stack_of stack.new) (constant_deed (stack_of stack.old)) }
{
    let _end = pop_token(stack)?;
    let literal = pop_literal(stack)?;
    let _sign = pop_token(stack)?;
    let word = pop_word(stack)?;
    let (word, mut fields) = with(word, pop_fields(stack))?;
    let declared = add_constant(alloc, &mut fields.vars, word, literal);
    let (fields, ()) = with(fields, declared)?;
    put(stack, DeclItem::Fields(fields))?;
    Ok(())
}

/// The fields of a data block or a named structure begin.
fn own_head(alloc: Global, stack: &mut Vec<Item>) -> Result<(), Stop>
    ensures { Leaves result (stack_of stack.new) (own_head_deed (stack_of stack.old)) }
{
    let _word = pop_token(stack)?;
    put(stack, DeclItem::Fields(no_fields(alloc, Section::Static)))?;
    Ok(())
}

/// A section of variables begins.
fn section_head(alloc: Global, stack: &mut Vec<Item>) -> Result<(), Stop>
    ensures { Leaves result (stack_of stack.new) (section_head_deed (stack_of stack.old)) }
{
    let token = pop_token(stack)?;
    let section = section_of_word(token.bytes);
    put(stack, DeclItem::Fields(no_fields(alloc, section)))?;
    Ok(())
}

/// A section of constants begins.
fn const_head(alloc: Global, stack: &mut Vec<Item>) -> Result<(), Stop>
    ensures { Leaves result (stack_of stack.new) (const_head_deed (stack_of stack.old)) }
{
    let _word = pop_token(stack)?;
    put(stack, DeclItem::Fields(no_fields(alloc, Section::Const)))?;
    Ok(())
}

/// A token leaves nothing.
fn dropped(stack: &mut Vec<Item>) -> Result<(), Stop>
    ensures { Leaves result (stack_of stack.new) (dropped_deed (stack_of stack.old)) }
{
    let _token = pop_token(stack)?;
    Ok(())
}

/// What an alternative of names, literals and declarations does.
pub fn act_on_decl(alloc: Global, action: DeclAction, stack: &mut Vec<Item>) -> Result<(), Stop>
    ensures { Leaves result (stack_of stack.new) (decl_deed action (stack_of stack.old)) }
{
    match action {
        DeclAction::Name => name(stack),
        DeclAction::Number => number(stack),
        DeclAction::Negative => negative(stack),
        DeclAction::Truth => truth(stack),
        DeclAction::FirstWord => first_word(alloc, stack),
        DeclAction::NextWord => next_word(stack),
        DeclAction::TypeHead => type_head(stack),
        DeclAction::Simple => simple(alloc, stack),
        DeclAction::Unread => unread(alloc, stack),
        DeclAction::Named => named(alloc, stack),
        DeclAction::ArrayHead => array_head(stack),
        DeclAction::Array => array(alloc, stack),
        DeclAction::StructHead => struct_head(alloc, stack),
        DeclAction::Struct => structure(alloc, stack),
        DeclAction::Start => start(stack),
        DeclAction::NoStart => no_start(stack),
        DeclAction::Declared => declaration(stack),
        DeclAction::Constant => constant(alloc, stack),
        DeclAction::OwnHead => own_head(alloc, stack),
        DeclAction::SectionHead => section_head(alloc, stack),
        DeclAction::ConstHead => const_head(alloc, stack),
        DeclAction::Dropped => dropped(stack),
    }
}
