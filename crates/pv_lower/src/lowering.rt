//! Expressions and operands: their terms stand behind those that are there, and their checks too.
ghost use Rattle.std.specs.Prelude.{◌≡◌, List, map, Option, Some, IfOk, OnOk};
ghost use Rattle.pv_tree.specs.Scopes.{ProjectTree};
ghost use Rattle.pv_tree.specs.View.{expr_tree, exprs_of, operand_tree, step_tree};
ghost use Rattle.pv_names.specs.Sorts.{number_value, want_tree};
ghost use Rattle.pv_flow.specs.Terms as terms;
ghost use Rattle.pv_mean.specs.Sources.{Source};
ghost use Rattle.pv_resolve.specs.Contexts.{block_in};
ghost use Rattle.pv_terms.specs.Pushed.{IsTable, IsAt};
ghost use Rattle.pv_variables.specs.Begun.{origin_of, IsElements};
ghost use Rattle.pv_variables.specs.Origins as origins;
ghost use Rattle.pv_access.specs.Accesses as accesses;
ghost use Rattle.pv_access.specs.Given.{IsWriting};
ghost use Rattle.pv_access.specs.Pushed.{Sets};
ghost use Rattle.pv_lower.specs.Lowered as lowered;
ghost use Rattle.pv_lower.specs.Lowering.{IsLowering, IsMeeting, IsWanted, Lowers, IsAccess, Accesses};
ghost use Rattle.pv_lower.specs.Storages as storages;

use crate::access::Access;
use crate::fault::LowerFault;
use crate::operators::{check_index, push_applied, push_joined, push_literal};
use crate::storage::storage_at;
use crate::types::{Meeting, Wants, meeting_of, part_type, signed_value, wants_of};
use pv_access::{Check, Move, Storage, Writing, push_read, push_unset, push_write};
use pv_eval::Spot;
use pv_flow::{Node, Set};
use pv_names::{Want, Written, literal_of};
use pv_place::Place;
use pv_resolve::{Begin, Context};
use pv_terms::{Given, converted, push_operator};
use pv_tree::{Expr, Operand, StdFunction, Step};
use pv_variables::{Elements, Numbers, element_placed, elements_placed, field_placed, placed};
use pv_word::Ty;
use std::alloc::{AllocError, Global};

/// A block whose expressions are lowered, with the numbers of its variables.
#[derive(Clone, Copy)]
pub struct Lowering<'a, 'p> {
    pub context: Context<'p>,
    pub numbers: &'a Numbers,
}

// ---- types, in the block

impl<'a, 'p> Lowering<'a, 'p> {
    /// The type of a part by what is wanted of it.
    fn part(&self, alloc: Global, want: Want, e: &Expr) -> Result<Ty, AllocError>
        ensures { (source : Source) → IsLowering self.now source
            → IfOk result (λ ty. ty ≡ lowered.part_type (lowered.scope_of source (block_in self.now.context)) (want_tree want)
            (expr_tree e.now)) }
    {
        part_type(&self.context.scope, alloc, want, e)
    }

    /// How two operands of one operator meet.
    fn meet(&self, alloc: Global, left: &Expr, right: &Expr) -> Result<Meeting, AllocError>
        ensures { (source : Source) → IsLowering self.now source
            → IfOk result (λ m. IsMeeting m (lowered.scope_of source (block_in self.now.context)) (expr_tree left.now)
            (expr_tree right.now)) }
    {
        meeting_of(&self.context.scope, alloc, left, right)
    }

    /// What a function wants of its arguments.
    fn wants(
        &self,
        alloc: Global,
        function: StdFunction,
        args: &[Expr],
    ) -> Result<Wants, AllocError>
        ensures { (source : Source) → IsLowering self.now source
            → IfOk result (λ w. IsWanted w function (lowered.scope_of source (block_in self.now.context)) (exprs_of (map expr_tree args.now))) }
    {
        wants_of(&self.context.scope, alloc, function, args)
    }
}

// ---- expressions

impl<'a, 'p> Lowering<'a, 'p> {
    /// Adds the term of an expression of which this is wanted, and its checks, and gives the term's number.
    #[cycle(lowering)]
    pub fn expression(
        &self,
        alloc: Global,
        nodes: &mut Vec<Node>,
        checks: &mut Vec<Check>,
        want: Want,
        e: &Expr,
    ) -> Result<u32, LowerFault>
        ensures { (source : Source) → IsLowering self.now source → IsTable nodes.old.items
            → IfOk result (λ n. Lowers nodes.old.items nodes.new.items checks.old.items checks.new.items n
            (lowered.lowered source (block_in self.now.context) (want_tree want) (expr_tree e.now))) }
    {
        match literal_of(e) {
            Some(literal) => push_literal(nodes, want, literal),
            None => match e {
                Expr::Lit { .. } => Err(LowerFault::TooLarge),
                Expr::Read(operand) => {
                    let access = self.operand(alloc, nodes, checks, operand)?;
                    self.part_read(alloc, nodes, checks, &access, operand.place, want, e)
                }
                Expr::Unary { op, arg, .. } => {
                    let own = self.part(alloc, Want::Nothing, arg)?;
                    let a = self.expression(alloc, nodes, checks, Want::Nothing, arg)?;
                    Ok(push_operator(nodes, *op, own, a)?)
                }
                Expr::Binary {
                    op,
                    place,
                    left,
                    right,
                } => {
                    let met = self.meet(alloc, left, right)?;
                    let a = self.expression(alloc, nodes, checks, met.want, left)?;
                    let b = self.expression(alloc, nodes, checks, met.want, right)?;
                    push_joined(nodes, checks, *op, *place, met, a, b)
                }
                Expr::Std { function, args, .. } => {
                    let wants = self.wants(alloc, *function, args.as_slice())?;
                    let mut given = Vec::new(alloc);
                    let mut wanted = wants.first;
                    for arg in args {
                        let own = self.part(alloc, wanted, arg)?;
                        let term = self.expression(alloc, nodes, checks, wanted, arg)?;
                        given.push(Given { ty: own, term })?;
                        wanted = wants.others;
                    }
                    let ty = self.part(alloc, want, e)?;
                    push_applied(nodes, *function, ty, args.as_slice(), given)
                }
                Expr::Paren(_, inner) => self.expression(alloc, nodes, checks, want, inner),
            },
        }
    }

    /// Adds the term of an expression as a value of this type, to which its own widens, and its checks: what is assigned.
    pub fn expression_as(
        &self,
        alloc: Global,
        nodes: &mut Vec<Node>,
        checks: &mut Vec<Check>,
        ty: Ty,
        e: &Expr,
    ) -> Result<u32, LowerFault>
        ensures { (source : Source) → IsLowering self.now source → IsTable nodes.old.items
            → IfOk result (λ n. Lowers nodes.old.items nodes.new.items checks.old.items checks.new.items n
            (lowered.lowered_as source (block_in self.now.context) ty (expr_tree e.now))) }
    {
        let own = self.part(alloc, Want::This(ty), e)?;
        let term = self.expression(alloc, nodes, checks, Want::This(ty), e)?;
        Ok(converted(nodes, own, ty, term)?)
    }

    // ---- operands

    /// Adds the terms of an operand's indexes and their checks, and gives what it names.
    #[cycle(lowering)]
    pub fn operand(
        &self,
        alloc: Global,
        nodes: &mut Vec<Node>,
        checks: &mut Vec<Check>,
        operand: &Operand,
    ) -> Result<Access<'p>, LowerFault>
        ensures { (source : Source) → IsLowering self.now source → IsTable nodes.old.items
            → IfOk result (λ a. Accesses nodes.old.items nodes.new.items checks.old.items checks.new.items a
            (lowered.accessed source (block_in self.now.context) (operand_tree operand.now))) }
    {
        let begin = placed(&self.context, &operand.root)?;
        let moves = Vec::new(alloc);
        let mut access = Access { begin, moves };
        for step in &operand.steps {
            self.step(alloc, nodes, checks, &mut access, step)?;
        }
        Ok(access)
    }

    /// One step more.
    #[cycle(lowering)]
    fn step(
        &self,
        alloc: Global,
        nodes: &mut Vec<Node>,
        checks: &mut Vec<Check>,
        access: &mut Access<'p>,
        step: &Step,
    ) -> Result<(), LowerFault>
        ensures { (source : Source) (a : storages.Access) → IsLowering self.now source → IsTable nodes.old.items
            → IsAccess nodes.old.items access.old a
            → OnOk result (Accesses nodes.old.items nodes.new.items checks.old.items checks.new.items access.new
            (lowered.stepped source (block_in self.now.context) a (step_tree step.now))) }
    {
        match step {
            Step::Field(name, _) => {
                let begin = field_placed(&self.context, access.begin, name)?;
                access.begin = begin;
                Ok(())
            }
            Step::Index(e, place) => match literal_of(e) {
                Some(literal) => self.known_element(access, literal),
                None => {
                    let ty = self.part(alloc, Want::Nothing, e)?;
                    let own = self.expression(alloc, nodes, checks, Want::Nothing, e)?;
                    let index = converted(nodes, ty, Ty::Dint, own)?;
                    self.moved_element(nodes, checks, access, index, *place)
                }
            },
        }
    }

    /// On to the element at an index that is a literal.
    fn known_element(&self, access: &mut Access<'p>, literal: Written) -> Result<(), LowerFault>
        ensures { (source : Source) (nodes : List Node) (a : storages.Access) → IsLowering self.now source
            → IsAccess nodes access.old a → OnOk result (IsAccess nodes access.new
            (lowered.to_known source.project a (number_value literal.number)).access) }
    {
        match signed_value(literal.number) {
            Some(index) => {
                let begin = element_placed(&self.context, access.begin, &index)?;
                access.begin = begin;
                Ok(())
            }
            None => Err(LowerFault::TooLarge),
        }
    }

    /// On to the elements of an array, which an index, a DINT, moves; what is no array has none.
    fn moved_element(
        &self,
        nodes: &mut Vec<Node>,
        checks: &mut Vec<Check>,
        access: &mut Access<'p>,
        index: u32,
        place: Place,
    ) -> Result<(), LowerFault>
        ensures { (source : Source) (a : storages.Access) (t : terms.Term) → IsLowering self.now source
            → IsTable nodes.old.items → IsAccess nodes.old.items access.old a → IsAt nodes.old.items index t
            → OnOk result (Accesses nodes.old.items nodes.new.items checks.old.items checks.new.items access.new
            (lowered.to_moved source.project a place t (origins.elements_placed (origin_of access.old.begin)))) }
    {
        let found = elements_placed(&self.context, access.begin)?;
        match found {
            Some(elements) => move_on(nodes, checks, access, elements, index, place),
            None => {
                access.begin = Begin::At(Spot::Nowhere);
                Ok(())
            }
        }
    }

    // ---- reads and writes

    /// What is named at the lowest indexes, as variables.
    pub fn storage(&self, access: &Access<'p>) -> Result<Storage, LowerFault>
        ensures { (source : Source) → IsLowering self.now source
            → IfOk result (λ s. s ≡ storages.storage_at source (block_in self.now.context) (origin_of access.now.begin)) }
    {
        storage_at(self.numbers, access.begin)
    }

    /// Adds the term of what is read there, of this type, and its check where it may have no value.
    pub fn reads(
        &self,
        nodes: &mut Vec<Node>,
        checks: &mut Vec<Check>,
        access: &Access<'p>,
        ty: Ty,
        place: Place,
    ) -> Result<u32, LowerFault>
        ensures { (source : Source) (a : storages.Access) → IsLowering self.now source → IsTable nodes.old.items
            → IsAccess nodes.old.items access.now a
            → IfOk result (λ n. Lowers nodes.old.items nodes.new.items checks.old.items checks.new.items n
            (lowered.read_at source (block_in self.now.context) ty a place)) }
    {
        let storage = self.storage(access)?;
        push_unset(nodes, checks, storage, access.moves.as_slice(), place)?;
        Ok(push_read(nodes, ty, storage, access.moves.as_slice())?)
    }

    /// Adds the term of what is read there, as the part that the expression is by what is wanted of it.
    fn part_read(
        &self,
        alloc: Global,
        nodes: &mut Vec<Node>,
        checks: &mut Vec<Check>,
        access: &Access<'p>,
        place: Place,
        want: Want,
        e: &Expr,
    ) -> Result<u32, LowerFault>
        ensures { (source : Source) (a : storages.Access) → IsLowering self.now source → IsTable nodes.old.items
            → IsAccess nodes.old.items access.now a
            → IfOk result (λ n. Lowers nodes.old.items nodes.new.items checks.old.items checks.new.items n
            (lowered.read_at source (block_in self.now.context) (lowered.part_type (lowered.scope_of source (block_in self.now.context))
            (want_tree want) (expr_tree e.now)) a place)) }
    {
        let ty = self.part(alloc, want, e)?;
        self.reads(nodes, checks, access, ty, place)
    }

    /// Adds the sets of what is written there.
    pub fn writes(
        &self,
        alloc: Global,
        nodes: &mut Vec<Node>,
        sets: &mut Vec<Set>,
        access: &Access<'p>,
        writing: Writing,
    ) -> Result<(), LowerFault>
        ensures { (source : Source) (a : storages.Access) (w : accesses.Writing) → IsLowering self.now source
            → IsTable nodes.old.items → IsAccess nodes.old.items access.now a → IsWriting nodes.old.items writing w
            → OnOk result (Sets nodes.old.items nodes.new.items sets.old.items sets.new.items
            (accesses.write_sets (storages.storage_at source (block_in self.now.context) a.origin) a.moves w)) }
    {
        let storage = self.storage(access)?;
        Ok(push_write(
            alloc,
            nodes,
            sets,
            storage,
            access.moves.as_slice(),
            writing,
        )?)
    }
}

/// On to the first element, which an index moves, with its check.
fn move_on<'p>(
    nodes: &mut Vec<Node>,
    checks: &mut Vec<Check>,
    access: &mut Access<'p>,
    elements: Elements<'p>,
    index: u32,
    place: Place,
) -> Result<(), LowerFault>
    ensures { (project : ProjectTree) (a : storages.Access) (t : terms.Term) (o : Option origins.Elements)
        → IsElements project o (Some elements.entry) → IsTable nodes.old.items → IsAccess nodes.old.items access.old a
        → IsAt nodes.old.items index t
        → OnOk result (Accesses nodes.old.items nodes.new.items checks.old.items checks.new.items access.new
        (lowered.to_moved project a place t o)) }
{
    let m = Move {
        index,
        low: elements.low,
        high: elements.high,
        stride: elements.stride,
    };
    check_index(nodes, checks, &m, place)?;
    access.moves.push(m)?;
    access.begin = elements.head;
    Ok(())
}
