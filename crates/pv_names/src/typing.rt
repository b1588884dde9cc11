//! What expressions are, in a block of a project.
//!
//! Each is looked at once, from the leaves up. Sorts of arguments lie in a list, since a literal among them takes the type of the
//! others.
ghost use Rattle.std.specs.Prelude.{◌≡◌, ◌&&◌, ◌∷◌, [], IfOk, map, option_and_then};
ghost use Rattle.pv_tree.specs.LiteralTypes.{nothing};
ghost use Rattle.pv_tree.specs.Things as things;
ghost use Rattle.pv_tree.specs.Sorts as sorts;
ghost use Rattle.pv_tree.specs.Types as types;
ghost use Rattle.pv_tree.specs.View.{block_tree, expr_tree, exprs_of, operand_tree, step_tree};
ghost use Rattle.pv_names.specs.InScope.{scope_of};
ghost use Rattle.pv_names.specs.Sorts.{sort_tree, want_tree, number_value};
ghost use Rattle.pv_names.specs.Views.{held_tree, thing_tree};
ghost use Rattle.pv_names.specs.Literals.{written_of};
ghost use Rattle.pv_names.specs.declared.sort.Sort.TheVariants.{Untyped, Typed};

use crate::function::result_of_function;
use crate::operator::{common_type, is_bool, result_of_binary, result_of_unary, wanted_beside};
use crate::scope::Scope;
use crate::sort::{
    Number, Sort, Want, is_at_least, is_at_most, is_whole_number, number_turned, one_of, own_type,
    sort_of_written, taken,
};
use crate::thing::{Held, Thing, dated};
use pv_place::Place;
use pv_tree::{BinaryOp, Block, BlockKind, Expr, Operand, Root, Step, UnaryOp};
use pv_word::Ty;
use std::alloc::{AllocError, Global};

/// Whether the block is a function without a value.
pub fn is_void(block: &Block) -> bool
    ensures { result ≡ types.is_void (block_tree block.now) }
{
    match &block.kind {
        BlockKind::Fc => block.interface.value.is_none(),
        BlockKind::Fb | BlockKind::Ob | BlockKind::Db { .. } | BlockKind::Udt => false,
    }
}

/// The place of an expression's first token.
pub fn first_place(e: &Expr) -> Place
    ensures { result ≡ things.first_place (expr_tree e.now) }
{
    match e {
        Expr::Lit { place, .. } => *place,
        Expr::Read(operand) => operand.place,
        Expr::Unary { place, .. } => *place,
        Expr::Binary { left, .. } => first_place(left),
        Expr::Std { place, .. } => *place,
        Expr::Paren(place, _) => *place,
    }
}

/// The place of the name that an operand begins with.
pub fn root_place(root: &Root, first: Place) -> Place
    ensures { result ≡ things.root_place root.now first }
{
    match root {
        Root::Local { place, .. } => *place,
        Root::Named(_) | Root::Area { .. } => first,
    }
}

/// Whether the number lies between the bounds, where the part is one.
fn lies_between(low: i128, high: i128, sort: Sort) -> bool
    ensures { result ≡ types.lies_between low high (sort_tree sort) }
{
    match sort {
        Sort::Untyped(n) | Sort::Typed(_, n) => is_at_least(low, n) && is_at_most(n, high),
        Sort::One(_) | Sort::Whole | Sort::Broken => true,
    }
}

/// Whether the number lies within the bounds of the array that it stands behind.
pub fn lies_in(thing: Thing, sort: Sort) -> bool
    ensures { result ≡ types.lies_in (thing_tree thing.entry) (sort_tree sort) }
{
    match thing {
        Thing::Part(Held::Array { low, high, .. }) => lies_between(low, high, sort),
        _ => true,
    }
}

/// Whether an index is an INT or a DINT.
pub fn is_index_type(sort: Sort) -> bool
    ensures { result ≡ types.is_index_type (sorts.own_type (sorts.taken
        nothing (sort_tree sort))) }
{
    match own_type(taken(Want::Nothing, sort)) {
        Some(ty) => is_whole_number(ty),
        None => false,
    }
}

/// Whether an index breaks no rule behind this thing.
pub fn is_index(thing: Thing, sort: Sort) -> bool
    ensures { result ≡ types.is_index (thing_tree thing.entry) (sort_tree sort) }
{
    both(is_index_type(sort), lies_in(thing, sort))
}

fn both(a: bool, b: bool) -> bool
    ensures { result ≡ (a && b) }
{
    a && b
}

/// The place of the last name behind a step.
pub fn last_behind(last: Place, step: &Step) -> Place
    ensures { result ≡ things.last_behind last (step_tree step.now) }
{
    match step {
        Step::Field(_, place) => *place,
        Step::Index(..) => last,
    }
}

/// The type of the value of an operator before its operand.
pub fn value_of_unary(op: UnaryOp, arg: Sort) -> Option<Ty>
    ensures { result ≡ option_and_then (sorts.result_of_unary op)
        (sorts.common_type (sorts.taken nothing (sort_tree arg) ∷ [])) }
{
    match own_type(taken(Want::Nothing, arg)) {
        Some(ty) => result_of_unary(op, ty),
        None => None,
    }
}

/// What an operator before a literal without a type makes of it.
fn sign_untyped(op: UnaryOp, n: Number, value: Sort) -> Sort
    ensures { sort_tree result ≡ types.sort_where
        (types.signed op (written_of (sort_tree (Untyped n)))) (sort_tree value) }
{
    match op {
        UnaryOp::Plus => Sort::Untyped(n),
        UnaryOp::Minus => Sort::Untyped(number_turned(n)),
        UnaryOp::Not => value,
    }
}

/// What an operator before a literal of a type makes of it.
fn sign_typed(op: UnaryOp, ty: Ty, n: Number, value: Sort) -> Sort
    ensures { sort_tree result ≡ types.sort_where
        (types.signed op (written_of (sort_tree (Typed ty n)))) (sort_tree value) }
{
    if is_bool(ty) {
        return value;
    }
    match op {
        UnaryOp::Plus => Sort::Typed(ty, n),
        UnaryOp::Minus => Sort::Typed(ty, number_turned(n)),
        UnaryOp::Not => value,
    }
}

/// What an operator before its operand makes of it.
pub fn unary_sort(op: UnaryOp, arg: Sort) -> Sort
    ensures { sort_tree result ≡ types.sort_where (types.signed op (written_of (sort_tree arg)))
        (sorts.one_of (option_and_then (sorts.result_of_unary op)
        (sorts.common_type (sorts.taken nothing (sort_tree arg) ∷ [])))) }
{
    let value = one_of(value_of_unary(op, arg));
    match arg {
        Sort::Untyped(n) => sign_untyped(op, n, value),
        Sort::Typed(ty, n) => sign_typed(op, ty, n, value),
        Sort::One(_) | Sort::Whole | Sort::Broken => value,
    }
}

/// What an operator between its operands makes of them.
pub fn binary_sort(op: BinaryOp, left: Sort, right: Sort) -> Sort
    ensures { sort_tree result ≡ sorts.one_of (option_and_then (sorts.result_of_binary op)
        (sorts.common_type (sorts.beside (sort_tree left ∷ sort_tree right ∷ [])))) }
{
    let pair = [left, right];
    match common_type(wanted_beside(pair.as_slice()), pair.as_slice()) {
        Some(ty) => one_of(result_of_binary(op, ty)),
        None => Sort::Broken,
    }
}

impl<'p> Scope<'p> {
    /// What a name stands for as a value.
    pub fn sort_of_type(&self, ty: Held) -> Sort
        ensures { sort_tree result ≡ types.sort_of_type (scope_of self.now) (held_tree ty.entry) }
    {
        match ty {
            Held::Plain(ty) => Sort::One(ty),
            Held::Array { .. } | Held::Struct(_) => Sort::Whole,
            Held::Named(name, _) => match self.find_type(name) {
                Some(_) => Sort::Whole,
                None => Sort::Broken,
            },
            Held::Unread => Sort::Broken,
        }
    }

    /// What a thing is as a value.
    pub fn sort_of_thing(&self, thing: Thing) -> Sort
        ensures { sort_tree result
            ≡ types.sort_of_thing (scope_of self.now) (thing_tree thing.entry) }
    {
        match thing {
            Thing::Part(ty) | Thing::Constant(ty) => self.sort_of_type(ty),
            Thing::Block(entry) => {
                if is_void(entry.block) {
                    Sort::Broken
                } else {
                    Sort::Whole
                }
            }
            Thing::NoName(_) | Thing::NoArray(_) | Thing::ADate(_) | Thing::Untold => Sort::Broken,
        }
    }

    /// What an expression is to the operators around it.
    #[cycle(typing)]
    pub fn sort_of(&self, alloc: Global, e: &Expr) -> Result<Sort, AllocError>
        ensures { IfOk result (λ s. sort_tree s
            ≡ types.sort_of (scope_of self.now) (expr_tree e.now)) }
    {
        match e {
            Expr::Lit { ty, value, .. } => Ok(sort_of_written(
                *ty,
                Number {
                    negated: false,
                    value: *value,
                },
            )),
            Expr::Read(operand) => self.sort_of_operand(alloc, operand),
            Expr::Unary { op, arg, .. } => {
                let arg = self.sort_of(alloc, arg)?;
                Ok(unary_sort(*op, arg))
            }
            Expr::Binary {
                op,
                left,
                right,
                ..
            } => {
                let left = self.sort_of(alloc, left)?;
                let right = self.sort_of(alloc, right)?;
                Ok(binary_sort(*op, left, right))
            }
            Expr::Std { function, args, .. } => {
                let mut parts = Vec::new(alloc);
                for arg in args {
                    parts.push(self.sort_of(alloc, arg)?)?;
                }
                Ok(one_of(result_of_function(*function, parts.as_slice())))
            }
            Expr::Paren(_, inner) => self.sort_of(alloc, inner),
        }
    }

    /// Whether a step from a thing breaks no rule as an index.
    #[cycle(typing)]
    fn is_indexed(&self, alloc: Global, step: &Step, thing: Thing<'p>) -> Result<bool, AllocError>
        ensures { IfOk result (λ b. b
            ≡ types.is_indexed (scope_of self.now) (thing_tree thing.entry) (step_tree step.now)) }
    {
        match step {
            Step::Field(..) => Ok(true),
            Step::Index(e, _) => {
                let sort = self.sort_of(alloc, e)?;
                Ok(is_index(thing, sort))
            }
        }
    }

    /// What an operand is to the operators around it.
    #[cycle(typing)]
    pub fn sort_of_operand(&self, alloc: Global, operand: &Operand) -> Result<Sort, AllocError>
        ensures { IfOk result (λ s. sort_tree s
            ≡ types.sort_of_operand (scope_of self.now) (operand_tree operand.now)) }
    {
        let mut thing = self.root(&operand.root, operand.place);
        let mut last = root_place(&operand.root, operand.place);
        let mut indexed = true;
        for step in &operand.steps {
            thing = dated(last, thing);
            let fits = self.is_indexed(alloc, step, thing)?;
            indexed = both(indexed, fits);
            thing = self.step(thing, step);
            last = last_behind(last, step);
        }
        if indexed {
            Ok(self.sort_of_thing(dated(last, thing)))
        } else {
            Ok(Sort::Broken)
        }
    }

    /// What one step leads to.
    pub fn step(&self, thing: Thing<'p>, step: &Step) -> Thing<'p>
        ensures { thing_tree result ≡ things.thing_at (scope_of self.now) (thing_tree thing.entry)
            (step_tree step.now) }
    {
        match step {
            Step::Field(name, place) => self.field(thing, name, *place),
            Step::Index(e, _) => self.element(thing, first_place(e)),
        }
    }

    /// What an operand means.
    pub fn thing_of(&self, operand: &Operand) -> Thing<'p>
        ensures { thing_tree result
            ≡ things.thing_of (scope_of self.now) (operand_tree operand.now) }
    {
        let mut thing = self.root(&operand.root, operand.place);
        let mut last = root_place(&operand.root, operand.place);
        for step in &operand.steps {
            thing = self.step(dated(last, thing), step);
            last = last_behind(last, step);
        }
        dated(last, thing)
    }

    /// The type of an expression of which this is wanted, where it has one.
    pub fn type_of(&self, alloc: Global, want: Want, e: &Expr) -> Result<Option<Ty>, AllocError>
        ensures { IfOk result (λ ty. ty
            ≡ types.type_of (scope_of self.now) (want_tree want) (expr_tree e.now)) }
    {
        let sort = self.sort_of(alloc, e)?;
        Ok(own_type(taken(want, sort)))
    }

    /// What expressions are.
    pub fn sorts_of(&self, alloc: Global, args: &[Expr]) -> Result<Vec<Sort>, AllocError>
        ensures { IfOk result (λ v. map sort_tree v.items
            ≡ types.sorts_of (scope_of self.now) (exprs_of (map expr_tree args.now))) }
    {
        let mut parts = Vec::new(alloc);
        for arg in args {
            parts.push(self.sort_of(alloc, arg)?)?;
        }
        Ok(parts)
    }
}
