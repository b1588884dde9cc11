//! Expressions and operands: their nodes stand behind those that are there.
ghost use Rattle.std.specs.Prelude.{◌≡◌, ◌<◌, ◌≤◌, ◌++◌, ◌&&◌, if◌then◌else◌, [], ◌∷◌, List, length, unwrap_or, Some, All, FitsSigned, IfOk, IfErr, IfSome, IfNone, IsOk, OnOk};
ghost use Rattle.std.specs.Int.{w64};
ghost use Rattle.pv_word.specs.declared.types.Ty.TheVariants.{Dint};
ghost use Rattle.pv_place.specs.declared.place.Place.{Place as PlaceOf};
ghost use Rattle.pv_tree.specs.Tree.{StepTree, ExprTree, ExprTrees, BlockTree, std};
ghost use Rattle.pv_tree.specs.Types as types;
ghost use Rattle.pv_tree.specs.Sorts.{broken, own_type};
ghost use Rattle.pv_tree.specs.View.{expr_tree, operand_tree, step_tree, steps_of};
ghost use Rattle.pv_tree.specs.declared.expr.Root.{Root as RootOf};
ghost use Rattle.pv_names.specs.InScope.{scope_of};
ghost use Rattle.pv_names.specs.Sorts.{number_value, sort_tree};
ghost use Rattle.pv_names.specs.Views.{thing_tree};
ghost use Rattle.pv_names.specs.Written.{written_tree};
ghost use Rattle.pv_mean.specs.Sources.{Source};
ghost use Rattle.pv_mean.specs.Values.{result_type};
ghost use Rattle.pv_eval.specs.declared.node.Node.{Node as NodeOf};
ghost use Rattle.pv_eval.specs.Operands.{IsOperand};
ghost use Rattle.pv_eval.specs.Order.{AreNodes};
ghost use Rattle.pv_eval.specs.Means.{Means, Names};
ghost use Rattle.pv_resolve.specs.Contexts.{IsContext, block_in};
ghost use Rattle.pv_resolve.specs.Begins.{HasSpot};
ghost use Rattle.pv_resolve.specs.Functions.{AreArguments};
ghost use Rattle.pv_resolve.specs.declared.fault.ResolveFault.TheVariants.{NoMemory};
ghost use Rattle.pv_resolve.specs.Rooms.{FitsExpr, FitsOperand, FitsStep, HasRoom, WalkRoomy};
ghost use Rattle.pv_resolve.specs.Growing.{Grows};
ghost use Rattle.pv_resolve.specs.Walks.{IsWalk, HasAddress};

use crate::begin::number_of;
use crate::context::Context;
use crate::fault::ResolveFault;
use crate::forms::{push_binary, push_function, push_literal, push_read, push_unary};
use crate::function::arity;
use crate::growing::push;
use crate::walk::{Walk, address_of, operand_at};
use pv_eval::{Node, Operand};
use pv_names::{
    Number, Scope, Sort, Thing, Written, binary_sort, dated, is_index_type, last_behind, lies_in,
    literal_of, one_of, own_type, result_of_function, root_place, sort_of_written, unary_sort,
};
use pv_place::Place;
use pv_tree::{Expr, Operand as OperandTree, StdFunction, Step};
use pv_word::Ty;
use std::alloc::Global;

/// The node that has an expression's value, and what the expression is to the operators around it.
#[derive(Clone, Copy)]
pub(crate) struct Made {
    pub(crate) node: usize,
    pub(crate) sort: Sort,
}

/// What an operand is by the values of its indexes, and what it is to the operators around it.
#[derive(Clone, Copy)]
pub(crate) struct Found {
    pub(crate) operand: Operand,
    pub(crate) sort: Sort,
}

/// The way along one step more, and whether each index so far breaks no rule.
#[derive(Clone, Copy)]
struct Stepped<'p> {
    walk: Walk<'p>,
    indexed: bool,
}

/// A literal's number with its sign, where 128 bits hold it.
fn signed_value(n: &Number) -> Option<i128>
    ensures value { IfSome result (λ v. v ≡ number_value n.now) }
    ensures none { IfNone result (FitsSigned w64 (number_value n.now) → ⊥) }
{
    if n.negated {
        n.value.checked_neg()
    } else {
        Some(n.value)
    }
}

/// A literal, where 64 bits hold it.
fn constant_of(n: &Number) -> Result<i64, ResolveFault>
    ensures value { IfOk result (λ v. v ≡ number_value n.now) }
    ensures fits { FitsSigned w64 (number_value n.now) → IsOk result }
{
    match signed_value(n) {
        Some(value) => number_of(&value),
        None => Err(ResolveFault::TooLarge),
    }
}

/// The node of a literal.
fn push_written(nodes: &mut Vec<Node>, literal: &Written) -> Result<Made, ResolveFault>
    requires { AreNodes nodes.old.items }
    ensures grows { OnOk result (Grows nodes.old.items nodes.new.items) }
    ensures within { IfOk result (λ m. m.node < length nodes.new.items) }
    ensures memory { FitsSigned w64 (number_value literal.now.number)
        → IfErr result (λ e. e ≡ NoMemory) }
    ensures sort { IfOk result (λ m. sort_tree m.sort
        ≡ types.sort_of_written literal.now.ty (number_value literal.now.number)) }
    ensures means { (source : Source) (block : BlockTree) (e : ExprTree)
        → types.literal_of e ≡ Some (written_tree literal.now)
        → IfOk result (λ m. Means source block nodes.old.items nodes.new.items m.node e) }
{
    let v = constant_of(&literal.number)?;
    let node = push_literal(nodes, &v)?;
    let sort = sort_of_written(literal.ty, literal.number);
    Ok(Made { node, sort })
}

/// The type of what is so to the operators around it. What breaks a rule has none, and then it doesn't matter.
fn type_of_sort(sort: Sort) -> Ty
    ensures { result ≡ unwrap_or (own_type (sort_tree sort)) Dint }
{
    match own_type(sort) {
        Some(ty) => ty,
        None => Ty::Dint,
    }
}

/// A missing argument is 0.
fn pad(nodes: &mut Vec<Node>, numbers: &mut Vec<usize>, count: usize) -> Result<(), ResolveFault>
    requires nodes { AreNodes nodes.old.items }
    requires numbers { All (λ k. k < length nodes.old.items) numbers.old.items }
    ensures grows { OnOk result (Grows nodes.old.items nodes.new.items) }
    ensures within { OnOk result (All (λ k. k < length nodes.new.items) numbers.new.items) }
    ensures enough { OnOk result (count ≤ length numbers.new.items) }
    ensures memory { IfErr result (λ e. e ≡ NoMemory) }
    ensures args { (source : Source) (block : BlockTree) (base : List NodeOf) (es : ExprTrees)
        → AreArguments source block base nodes.old.items numbers.old.items es
        → OnOk result (AreArguments source block base nodes.new.items numbers.new.items es) }
{
    for _k in numbers.len()..count {
        let n = push(nodes, Node::Constant(0))?;
        numbers.push(n)?;
    }
    Ok(())
}

/// The node of a function whose arguments have these, and which has a value of this sort.
fn push_applied(
    nodes: &mut Vec<Node>,
    function: StdFunction,
    place: Place,
    numbers: Vec<usize>,
    sort: Sort,
) -> Result<Made, ResolveFault>
    requires nodes { AreNodes nodes.old.items }
    requires numbers { All (λ k. k < length nodes.old.items) numbers.items }
    ensures grows { OnOk result (Grows nodes.old.items nodes.new.items) }
    ensures within { IfOk result (λ m. m.node < length nodes.new.items) }
    ensures memory { IfErr result (λ e. e ≡ NoMemory) }
    ensures sort { IfOk result (λ m. m.sort ≡ sort) }
    ensures means { (source : Source) (block : BlockTree) (base : List NodeOf) (e : ExprTree)
        (at : PlaceOf) (args : ExprTrees) → e ≡ std function at args
        → unwrap_or (own_type (sort_tree sort)) Dint
        ≡ result_type (record { project = source.project; block = block }) e
        → AreArguments source block base nodes.old.items numbers.items args
        → IfOk result (λ m. Means source block base nodes.new.items m.node e) }
{
    let mut numbers = numbers;
    pad(nodes, &mut numbers, arity(function))?;
    let ty = type_of_sort(sort);
    let node = push_function(nodes, function, ty, place, numbers.as_slice())?;
    Ok(Made { node, sort })
}

/// Whether each index so far breaks no rule, and this one none behind the thing that it stands at.
fn still_indexed(indexed: bool, thing: Thing, sort: Sort) -> bool
    ensures { result ≡ (indexed && types.is_index (thing_tree thing.entry) (sort_tree sort)) }
{
    indexed && is_index_type(sort) && lies_in(thing, sort)
}

/// What an operand is that means this thing, by whether its indexes break no rule.
fn sort_at(scope: &Scope, indexed: bool, thing: Thing) -> Sort
    ensures { sort_tree result ≡ (if indexed
        then types.sort_of_thing (scope_of scope.now) (thing_tree thing.entry) else broken) }
{
    if indexed {
        scope.sort_of_thing(thing)
    } else {
        Sort::Broken
    }
}

impl<'p> Context<'p> {
    /// Adds the nodes of an expression, and gives the number of the one that has its value, with its sort.
    #[cycle(resolving)]
    pub(crate) fn expr(
        &self,
        alloc: Global,
        nodes: &mut Vec<Node>,
        e: &Expr,
    ) -> Result<Made, ResolveFault>
        requires { AreNodes nodes.old.items }
        ensures grows { OnOk result (Grows nodes.old.items nodes.new.items) }
        ensures within { IfOk result (λ m. m.node < length nodes.new.items) }
        ensures sort { IfOk result (λ m. sort_tree m.sort
            ≡ types.sort_of (scope_of self.now.scope) (expr_tree e.now)) }
        ensures room { (source : Source) → IsContext self.now source
            → HasRoom source (block_in self.now) → FitsExpr (expr_tree e.now)
            → IfErr result (λ e. e ≡ NoMemory) }
        ensures means { (source : Source) → IsContext self.now source
            → IfOk result (λ m. Means source (block_in self.now) nodes.old.items nodes.new.items
            m.node (expr_tree e.now)) }
    {
        match literal_of(e) {
            Some(literal) => push_written(nodes, &literal),
            None => match e {
                Expr::Lit { .. } => Err(ResolveFault::TooLarge),
                Expr::Read(operand) => {
                    let found = self.operand(alloc, nodes, operand)?;
                    let node = push_read(nodes, found.operand, operand.place)?;
                    Ok(Made {
                        node,
                        sort: found.sort,
                    })
                }
                Expr::Unary { op, arg, .. } => {
                    let made = self.expr(alloc, nodes, arg)?;
                    let sort = unary_sort(*op, made.sort);
                    let ty = type_of_sort(sort);
                    let node = push_unary(nodes, *op, ty, made.node)?;
                    Ok(Made { node, sort })
                }
                Expr::Binary {
                    op,
                    place,
                    left,
                    right,
                } => {
                    let l = self.expr(alloc, nodes, left)?;
                    let r = self.expr(alloc, nodes, right)?;
                    let sort = binary_sort(*op, l.sort, r.sort);
                    let ty = type_of_sort(sort);
                    let node = push_binary(nodes, *op, ty, *place, l.node, r.node)?;
                    Ok(Made { node, sort })
                }
                Expr::Std {
                    function,
                    place,
                    args,
                } => {
                    let mut numbers = Vec::new(alloc);
                    let mut sorts = Vec::new(alloc);
                    for arg in args {
                        let made = self.expr(alloc, nodes, arg)?;
                        numbers.push(made.node)?;
                        sorts.push(made.sort)?;
                    }
                    let sort = one_of(result_of_function(*function, sorts.as_slice()));
                    push_applied(nodes, *function, *place, numbers, sort)
                }
                Expr::Paren(_, inner) => self.expr(alloc, nodes, inner),
            },
        }
    }

    /// Adds the nodes of an operand's indexes, and gives what it is by their values, with its sort.
    #[cycle(resolving)]
    pub(crate) fn operand(
        &self,
        alloc: Global,
        nodes: &mut Vec<Node>,
        operand: &OperandTree,
    ) -> Result<Found, ResolveFault>
        requires { AreNodes nodes.old.items }
        ensures grows { OnOk result (Grows nodes.old.items nodes.new.items) }
        ensures within { IfOk result (λ f. IsOperand (length nodes.new.items) f.operand) }
        ensures sort { IfOk result (λ f. sort_tree f.sort
            ≡ types.sort_of_operand (scope_of self.now.scope) (operand_tree operand.now)) }
        ensures room { (source : Source) → IsContext self.now source
            → HasRoom source (block_in self.now) → FitsOperand (operand_tree operand.now)
            → IfErr result (λ e. e ≡ NoMemory) }
        ensures names { (source : Source) → IsContext self.now source
            → IfOk result (λ f. Names source (block_in self.now) nodes.old.items nodes.new.items
            f.operand (operand_tree operand.now)) }
    {
        let begin = self.root(&operand.root)?;
        let mut walk = Walk {
            begin,
            address: None,
            block: self.block_begun(operand),
        };
        let mut thing = self.scope.root(&operand.root, operand.place);
        let mut last = root_place(&operand.root, operand.place);
        let mut indexed = true;
        for step in &operand.steps {
            thing = dated(last, thing);
            let next = self.step(alloc, nodes, walk, thing, indexed, step)?;
            walk = next.walk;
            indexed = next.indexed;
            thing = self.scope.step(thing, step);
            last = last_behind(last, step);
        }
        Ok(Found {
            operand: operand_at(walk),
            sort: sort_at(&self.scope, indexed, dated(last, thing)),
        })
    }

    /// The way along one step more from this thing, behind steps whose indexes break no rule or do.
    #[cycle(resolving)]
    fn step(
        &self,
        alloc: Global,
        nodes: &mut Vec<Node>,
        walk: Walk<'p>,
        thing: Thing<'p>,
        indexed: bool,
        step: &Step,
    ) -> Result<Stepped<'p>, ResolveFault>
        requires ordered { AreNodes nodes.old.items }
        requires spot { HasSpot walk.begin }
        requires address { HasAddress nodes.old.items walk }
        ensures grows { OnOk result (Grows nodes.old.items nodes.new.items) }
        ensures spot { IfOk result (λ s. HasSpot s.walk.begin) }
        ensures address { IfOk result (λ s. HasAddress nodes.new.items s.walk) }
        ensures indexed { IfOk result (λ s. s.indexed
            ≡ (indexed && types.is_indexed (scope_of self.now.scope) (thing_tree thing.entry)
            (step_tree step.now))) }
        ensures room { (source : Source) → IsContext self.now source
            → HasRoom source (block_in self.now) → FitsStep (step_tree step.now)
            → WalkRoomy source.project nodes.old.items walk.entry
            → IfErr result (λ e. e ≡ NoMemory)
            × IfOk result (λ s. WalkRoomy source.project nodes.new.items s.walk) }
        ensures leads { (source : Source) (base : List NodeOf) (root : RootOf)
            (so_far : List StepTree) → IsContext self.now source
            → IsWalk source (block_in self.now) base nodes.old.items walk.entry root
            (steps_of so_far) → IfOk result (λ s. IsWalk source (block_in self.now) base
            nodes.new.items s.walk root (steps_of (so_far ++ step_tree step.now ∷ []))) }
    {
        match step {
            Step::Field(name, _) => {
                let begin = self.field_behind(walk.block, walk.begin, name)?;
                let address = walk.address;
                let walk = Walk {
                    begin,
                    address,
                    block: None,
                };
                Ok(Stepped { walk, indexed })
            }
            Step::Index(e, place) => {
                let from = address_of(nodes, walk)?;
                let index = self.expr(alloc, nodes, e)?;
                let next = self.element(nodes, walk.begin, from, index.node, *place)?;
                Ok(Stepped {
                    walk: next,
                    indexed: still_indexed(indexed, thing, index.sort),
                })
            }
        }
    }
}
