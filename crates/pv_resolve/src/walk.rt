//! The way along an operand's steps.
ghost use Rattle.std.specs.Prelude.{◌≡◌, ℕ, List, ℤ, unsigned_abs, Option, Some, ◌<◌, length, IfOk, IfErr, IsOk, OnOk, IfSome};
ghost use Rattle.pv_place.specs.declared.place.Place.{Place as PlaceOf};
ghost use Rattle.pv_types.specs.Tree.{plain, array};
ghost use Rattle.pv_types.specs.View.{type_tree};
ghost use Rattle.pv_tree.specs.Tree.{BlockTree, StepTrees};
ghost use Rattle.pv_tree.specs.declared.expr.Root.{Root as RootOf};
ghost use Rattle.pv_names.specs.Views.{held_tree};
ghost use Rattle.pv_mean.specs.Sources.{Source};
ghost use Rattle.pv_mean.specs.Frames.{Frame};
ghost use Rattle.pv_mean.specs.Endings.{Tried};
ghost use Rattle.pv_mean.specs.Values.{field_begins};
ghost use Rattle.pv_mean.specs.Activations as act;
ghost use Rattle.pv_eval.specs.declared.node.Node.{Node as NodeOf};
ghost use Rattle.pv_eval.specs.Operands as operands;
ghost use Rattle.pv_eval.specs.Order.{AreNodes};
ghost use Rattle.pv_eval.specs.Means.{Makes};
ghost use Rattle.pv_resolve.specs.Contexts.{IsContext};
ghost use Rattle.pv_resolve.specs.Laying.{laid_tree};
ghost use Rattle.pv_resolve.specs.declared.begin.Begin.TheVariants.{In};
ghost use Rattle.pv_resolve.specs.Begins.{HasSpot, HoldsBlock, begin_at, begins_in, begins_further, begins_behind, walk_at, address_value};
ghost use Rattle.pv_tree.specs.Rules.{KeepsRules};
ghost use Rattle.pv_eval.specs.Order.{most_at};
ghost use Rattle.pv_resolve.specs.declared.fault.ResolveFault.TheVariants.{NoMemory};
ghost use Rattle.pv_resolve.specs.Rooms.{IsMostOf, BeginsRoomy, IsRoomy, WalkRoomy};
ghost use Rattle.pv_resolve.specs.Growing.{Grows};
ghost use Rattle.pv_resolve.specs.Walks.{IsWalk, HasAddress, number_and_index, GoesOn};

use crate::begin::{Begin, Where, begin_with, number_of};
use crate::context::Context;
use crate::fault::ResolveFault;
use crate::growing::{Elements, push, push_element};
use crate::laid::LaidLevel;
use pv_eval::{Node, Operand, Part, Spot};
use pv_mean::BEYOND;
use pv_names::{Held, level_of};
use pv_place::Place;
use pv_types::{DeclType, Name};
use pv_word::Ty;

/// Where the steps so far lead: where a name begins and so many cells further as the address says.
#[derive(Clone, Copy)]
pub(crate) struct Walk<'p> {
    pub(crate) begin: Begin<'p>,
    /// The node of the address, where an index was among the steps.
    pub(crate) address: Option<usize>,
    /// The number of the block that holds it, if that is known: where no step was gone yet.
    pub(crate) block: Option<usize>,
}

/// The bounds of an array and the type of its elements.
#[derive(Clone, Copy)]
struct Bounds<'p> {
    low: i128,
    high: i128,
    of: &'p DeclType,
}

/// The cell of a simple type.
fn cell(part: Where, ty: Ty, first: u32) -> Operand
    ensures value { (begin : ℕ) (values : List ℤ) → operands.spot_at begin values result
        ≡ act.spot_of (begins_in part begin (record { ty = plain ty; first = first })) }
    ensures within { (n : ℕ) → operands.IsOperand n result }
{
    match part {
        Where::Own => Operand::Own(first),
        Where::Visible => Operand::At(Spot::Visible(first as usize)),
        Where::Brief => Operand::At(Spot::Brief(ty, first as usize)),
    }
}

/// The cell of a simple type so many further as the node's value says.
fn cell_behind(part: Where, ty: Ty, first: u32, address: usize) -> Operand
    ensures value { (begin : ℕ) (values : List ℤ) → operands.spot_at begin values result
        ≡ act.spot_of (begins_further (unsigned_abs (operands.at values address))
        (begins_in part begin (record { ty = plain ty; first = first }))) }
    ensures within { (n : ℕ) → address < n → operands.IsOperand n result }
{
    match part {
        Where::Own => Operand::Element(Part::Own, first, address),
        Where::Visible => Operand::Element(Part::Visible, first, address),
        Where::Brief => Operand::Element(Part::Brief(ty), first, address),
    }
}

/// The cell of a simple type, alone or so many further as the address says.
fn cell_at(part: Where, ty: Ty, first: u32, address: Option<usize>) -> Operand
    ensures value { (begin : ℕ) (values : List ℤ) → operands.spot_at begin values result
        ≡ act.spot_of (begins_behind address (address_value address values)
        (begins_in part begin (record { ty = plain ty; first = first }))) }
    ensures within { (n : ℕ) → IfSome address (λ a. a < n) → operands.IsOperand n result }
{
    match address {
        None => cell(part, ty, first),
        Some(n) => cell_behind(part, ty, first, n),
    }
}

/// What is laid out, so many cells further as the address says. A whole array, structure or instance is none.
fn part_at(part: Where, laid: LaidLevel, address: Option<usize>) -> Operand
    ensures value { (begin : ℕ) (values : List ℤ) → operands.spot_at begin values result
        ≡ act.spot_of (begins_behind address (address_value address values)
        (begins_in part begin (laid_tree laid.entry))) }
    ensures within { (n : ℕ) → IfSome address (λ a. a < n) → operands.IsOperand n result }
{
    match laid.ty {
        Held::Plain(ty) => cell_at(part, ty, laid.first, address),
        Held::Array { .. } | Held::Struct(_) | Held::Named(..) | Held::Unread => {
            Operand::At(Spot::Nowhere)
        }
    }
}

/// The operand at the end of a way.
pub(crate) fn operand_at(walk: Walk) -> Operand
    requires { HasSpot walk.begin }
    ensures value { (first : ℕ) (values : List ℤ) → operands.spot_at first values result
        ≡ act.spot_of (walk_at walk.entry first (address_value walk.entry.address values)) }
    ensures within { (n : ℕ) → IfSome walk.entry.address (λ a. a < n) → operands.IsOperand n result }
{
    match walk.begin {
        Begin::In(part, laid) => part_at(part, laid, walk.address),
        Begin::At(spot) => Operand::At(spot),
    }
}

/// The node of a walk's address: one of 0 where it has none yet.
pub(crate) fn address_of(nodes: &mut Vec<Node>, walk: Walk) -> Result<usize, ResolveFault>
    requires ordered { AreNodes nodes.old.items }
    requires address { IfSome walk.address (λ n. n < length nodes.old.items) }
    ensures grows { OnOk result (Grows nodes.old.items nodes.new.items) }
    ensures there { IfOk result (λ n. n < length nodes.new.items) }
    ensures memory { IfErr result (λ e. e ≡ NoMemory) }
    ensures most { (most : ℕ) → IsMostOf nodes.old.items walk.entry.address most
        → IfOk result (λ n. most_at nodes.new.items n ≡ Some most) }
    ensures leads { (source : Source) (block : BlockTree) (base : List NodeOf) (root : RootOf)
        (more : StepTrees) → IsWalk source block base nodes.old.items walk.entry root more
        → IfOk result (λ n. IsWalk source block base nodes.new.items
        (record { begin = walk.entry.begin; address = Some n; block = walk.entry.block }) root
        more) }
{
    match walk.address {
        Some(n) => Ok(n),
        None => push(nodes, Node::Constant(0)),
    }
}

impl<'p> Context<'p> {
    /// The field of this name where a name begins, with steps behind it, which is what the block of this number holds, if one is given.
    pub(crate) fn field_behind(
        &self,
        block: Option<usize>,
        begin: Begin<'p>,
        name: &Name,
    ) -> Result<Begin<'p>, ResolveFault>
        ensures value { (source : Source) → IsContext self.now source
            → HoldsBlock source.project begin.entry block
            → IfOk result (λ b. (address : Option ℕ) (a : ℤ) (first : ℕ)
            → begins_behind address a (begin_at b first)
            ≡ field_begins source (begins_behind address a (begin_at begin.entry first)) name.now.key) }
        ensures spot { IfOk result HasSpot }
        ensures room { (source : Source) (more : ℕ) → IsContext self.now source
            → HoldsBlock source.project begin.entry block → KeepsRules source.project
            → BeginsRoomy source.project more (begin_at begin.entry 0) → IsOk result }
    {
        match begin {
            Begin::In(part, laid) => {
                let found = self.field_found(block, laid, name)?;
                Ok(begin_with(part, found))
            }
            Begin::At(_) => Ok(Begin::At(Spot::Nowhere)),
        }
    }

    /// The field of this name where a name begins, with steps behind it.
    pub fn field(&self, begin: Begin<'p>, name: &Name) -> Result<Begin<'p>, ResolveFault>
        ensures value { (source : Source) → IsContext self.now source
            → IfOk result (λ b. (address : Option ℕ) (a : ℤ) (first : ℕ)
            → begins_behind address a (begin_at b first)
            ≡ field_begins source (begins_behind address a (begin_at begin.entry first)) name.now.key) }
        ensures spot { IfOk result HasSpot }
        ensures room { (source : Source) (more : ℕ) → IsContext self.now source
            → KeepsRules source.project
            → BeginsRoomy source.project more (begin_at begin.entry 0) → IsOk result }
    {
        self.field_behind(None, begin, name)
    }

    /// On to the element of an array.
    fn array_element(
        &self,
        nodes: &mut Vec<Node>,
        part: Where,
        laid: LaidLevel<'p>,
        bounds: Bounds<'p>,
        from: usize,
        index: usize,
        place: Place,
    ) -> Result<Walk<'p>, ResolveFault>
        requires ordered { AreNodes nodes.old.items }
        requires from { from < length nodes.old.items }
        requires index { index < length nodes.old.items }
        ensures grows { OnOk result (Grows nodes.old.items nodes.new.items) }
        ensures spot { IfOk result (λ w. HasSpot w.begin) }
        ensures address { IfOk result (HasAddress nodes.new.items) }
        ensures room { (source : Source) (more : ℕ) (p : PlaceOf) → IsContext self.now source
            → held_tree laid.entry.ty ≡ array bounds.entry.low bounds.entry.high
            (type_tree bounds.entry.of.now) p → most_at nodes.old.items from ≡ Some more
            → BeginsRoomy source.project more (begin_at (In part laid.entry) 0)
            → IfErr result (λ e. e ≡ NoMemory)
            × IfOk result (WalkRoomy source.project nodes.new.items) }
        ensures goes { (source : Source) (base : List NodeOf) (p : PlaceOf)
            (values : ℕ → Frame → Tried (List ℤ)) → IsContext self.now source
            → held_tree laid.entry.ty ≡ array bounds.entry.low bounds.entry.high
            (type_tree bounds.entry.of.now) p
            → Makes base nodes.old.items (λ first ws. number_and_index from index ws) values
            → IfOk result (λ w. GoesOn source base nodes.new.items (In part laid.entry) w place
            values) }
    {
        let stride = self.sizes.of_type(bounds.of);
        if stride >= BEYOND {
            return Err(ResolveFault::TooLarge);
        }
        let low = number_of(&bounds.low)?;
        let high = number_of(&bounds.high)?;
        let elements = Elements { low, high, stride };
        let n = push_element(nodes, from, index, &elements, place)?;
        let ty = level_of(bounds.of);
        let first = laid.first;
        Ok(Walk {
            begin: Begin::In(part, LaidLevel { ty, first }),
            address: Some(n),
            block: None,
        })
    }

    /// On to the element of what may be an array.
    fn part_element(
        &self,
        nodes: &mut Vec<Node>,
        part: Where,
        laid: LaidLevel<'p>,
        from: usize,
        index: usize,
        place: Place,
    ) -> Result<Walk<'p>, ResolveFault>
        requires ordered { AreNodes nodes.old.items }
        requires from { from < length nodes.old.items }
        requires index { index < length nodes.old.items }
        ensures grows { OnOk result (Grows nodes.old.items nodes.new.items) }
        ensures spot { IfOk result (λ w. HasSpot w.begin) }
        ensures address { IfOk result (HasAddress nodes.new.items) }
        ensures room { (source : Source) (more : ℕ) → IsContext self.now source
            → most_at nodes.old.items from ≡ Some more
            → BeginsRoomy source.project more (begin_at (In part laid.entry) 0)
            → IfErr result (λ e. e ≡ NoMemory)
            × IfOk result (WalkRoomy source.project nodes.new.items) }
        ensures goes { (source : Source) (base : List NodeOf)
            (values : ℕ → Frame → Tried (List ℤ)) → IsContext self.now source
            → Makes base nodes.old.items (λ first ws. number_and_index from index ws) values
            → IfOk result (λ w. GoesOn source base nodes.new.items (In part laid.entry) w place
            values) }
    {
        match laid.ty {
            Held::Array { low, high, of, .. } => {
                let bounds = Bounds { low, high, of };
                self.array_element(nodes, part, laid, bounds, from, index, place)
            }
            Held::Plain(_) | Held::Struct(_) | Held::Named(..) | Held::Unread => {
                let none = Elements {
                    low: 1,
                    high: 0,
                    stride: 0,
                };
                let n = push_element(nodes, from, index, &none, place)?;
                Ok(Walk {
                    begin: Begin::At(Spot::Nowhere),
                    address: Some(n),
                    block: None,
                })
            }
        }
    }

    /// On to the element at an index: the nodes of the address and of the index are there.
    pub(crate) fn element(
        &self,
        nodes: &mut Vec<Node>,
        begin: Begin<'p>,
        from: usize,
        index: usize,
        place: Place,
    ) -> Result<Walk<'p>, ResolveFault>
        requires ordered { AreNodes nodes.old.items }
        requires from { from < length nodes.old.items }
        requires index { index < length nodes.old.items }
        ensures grows { OnOk result (Grows nodes.old.items nodes.new.items) }
        ensures spot { IfOk result (λ w. HasSpot w.begin) }
        ensures address { IfOk result (HasAddress nodes.new.items) }
        ensures room { (source : Source) (more : ℕ) → IsContext self.now source
            → most_at nodes.old.items from ≡ Some more
            → BeginsRoomy source.project more (begin_at begin.entry 0)
            → IfErr result (λ e. e ≡ NoMemory)
            × IfOk result (WalkRoomy source.project nodes.new.items) }
        ensures goes { (source : Source) (base : List NodeOf)
            (values : ℕ → Frame → Tried (List ℤ)) → IsContext self.now source
            → Makes base nodes.old.items (λ first ws. number_and_index from index ws) values
            → IfOk result (λ w. GoesOn source base nodes.new.items begin.entry w place values) }
    {
        match begin {
            Begin::In(part, laid) => self.part_element(nodes, part, laid, from, index, place),
            Begin::At(_) => Ok(Walk {
                begin: Begin::At(Spot::Nowhere),
                address: None,
                block: None,
            }),
        }
    }
}
