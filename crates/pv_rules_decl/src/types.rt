//! Types that aren't declared, or contain themselves.
//!
//! The types are numbered as the blocks are, and each leads to those that it names (`pv_graph`): one that leads to itself contains
//! itself, through however many others. Which ones do is found once for all of them.
ghost use Rattle.std.specs.Prelude.{◌≡◌, ◌↔◌, ◌++◌, List, map, flat_map, IfOk, OnOk, IsTrue};
ghost use Rattle.pv_types.specs.View.{type_tree};
ghost use Rattle.pv_tree.specs.Tree.{BlockTree};
ghost use Rattle.pv_tree.specs.View.{block_tree};
ghost use Rattle.pv_tree.specs.Scopes.{ProjectTree, is_type};
ghost use Rattle.pv_tree.specs.Rules.MissingTypes.{name_of_kind, IsMissingType};
ghost use Rattle.pv_rules_expr.specs.Members.{HasSome};
ghost use Rattle.pv_rules_expr.specs.Nearest.{Nears, IsNearest};
ghost use Rattle.pv_graph.specs.Graphs.{lists_of};
ghost use Rattle.pv_rules_decl.specs.TypeNumbers.{type_number, numbers_of_type, targets_in, types_graph, IsWrongNumber, IsWrongName, NamesWrongType, HasWrongType};
ghost use Rattle.pv_rules_decl.specs.Declarations.{HaveTheSame};
ghost use Rattle.pv_rules_decl.specs.TypeNames.{NumbersTypes, LeadToTheSame, AreTypesOf};

use crate::gathered::Gathered;
use pv_graph::{Graph, Targets, flag_at};
use pv_names::Firsts;
use pv_place::Place;
use pv_rules_expr::is_nearer;
use pv_tree::{Block, BlockKind};
use pv_types::{DeclType, Name};
use std::alloc::{AllocError, Global};

/// The names of blocks with their numbers, and which of the blocks are types.
#[derive(Drop)]
pub(crate) struct TypeNames {
    names: Firsts,
    kinds: Vec<bool>,
}

/// Whether blocks of the kind are types.
fn is_type(kind: &BlockKind) -> bool
    ensures { result ≡ is_type kind.now }
{
    matches!(kind, BlockKind::Fb | BlockKind::Udt)
}

impl TypeNames {
    /// Those of these blocks.
    fn of(alloc: Global, blocks: &[Block]) -> Result<TypeNames, AllocError>
        ensures { IfOk result (λ t. NumbersTypes t (map block_tree blocks.now)) }
    {
        let mut names = Firsts::new(alloc);
        let mut kinds = Vec::new(alloc);
        for (i, block) in blocks.iter().enumerate() {
            names.push(&block.name, i)?;
            kinds.push(is_type(&block.kind))?;
        }
        Ok(TypeNames { names, kinds })
    }

    /// The number of the type of this name.
    fn find(&self, name: &Name) -> Option<usize>
        ensures { (bs : List BlockTree) → NumbersTypes self.now bs → result ≡ type_number bs name.now.key }
    {
        match self.names.find(name) {
            None => None,
            Some(number) => {
                if flag_at(self.kinds.as_slice(), number) {
                    Some(number)
                } else {
                    None
                }
            }
        }
    }

    /// Adds the number of a type that is named.
    fn add_target(&self, ty: &DeclType, targets: &mut Vec<usize>) -> Result<(), AllocError>
        ensures { (bs : List BlockTree) → NumbersTypes self.now bs → OnOk result
            (targets.new.items ≡ targets.old.items ++ numbers_of_type bs (type_tree ty.now)) }
    {
        let DeclType::Named(name, _) = ty else {
            return Ok(());
        };
        if let Some(number) = self.find(name) {
            targets.push(number)?;
        }
        Ok(())
    }

    /// The numbers of the types that are named among these.
    fn targets_among(&self, alloc: Global, types: &[&DeclType]) -> Result<Vec<usize>, AllocError>
        ensures { (bs : List BlockTree) → NumbersTypes self.now bs → IfOk result
            (λ v. v.items ≡ flat_map (numbers_of_type bs) (map (λ t. type_tree t.now) types.now)) }
    {
        let mut targets = Vec::new(alloc);
        for ty in types {
            self.add_target(*ty, &mut targets)?;
        }
        Ok(targets)
    }

    /// The types that a block names, if it is a type.
    fn targets_in(&self, alloc: Global, block: &Block) -> Result<Targets, AllocError>
        ensures { (bs : List BlockTree) → NumbersTypes self.now bs → IfOk result
            (λ t. HaveTheSame t.list.items (targets_in bs (block_tree block.now))) }
    {
        if !is_type(&block.kind) {
            return Ok(Targets {
                list: Vec::new(alloc),
            });
        }
        let gathered = Gathered::of(alloc, block.interface.vars.as_slice())?;
        let list = self.targets_among(alloc, gathered.types.as_slice())?;
        Ok(Targets { list })
    }

    /// The types that each block names.
    fn all_targets(&self, alloc: Global, blocks: &[Block]) -> Result<Vec<Targets>, AllocError>
        ensures { (bs : List BlockTree) → NumbersTypes self.now bs → IfOk result
            (λ next. LeadToTheSame (lists_of next.items) (map (targets_in bs) (map block_tree blocks.now))) }
    {
        let mut next = Vec::new(alloc);
        for block in blocks {
            next.push(self.targets_in(alloc, block)?)?;
        }
        Ok(next)
    }
}

/// The types of a project by name, and which of them lead to themselves.
#[derive(Drop)]
struct DeclaredTypes {
    names: TypeNames,
    endless: Vec<bool>,
}

impl DeclaredTypes {
    /// Those of these blocks.
    fn of(alloc: Global, blocks: &[Block]) -> Result<DeclaredTypes, AllocError>
        ensures { IfOk result (λ t. AreTypesOf t (map block_tree blocks.now)) }
    {
        let names = TypeNames::of(alloc, blocks)?;
        let next = names.all_targets(alloc, blocks)?;
        let graph = Graph::new(alloc, next)?;
        let endless = graph.on_cycles(alloc)?;
        Ok(DeclaredTypes { names, endless })
    }

    /// Whether there is no type of this name, or it contains itself.
    fn is_wrong(&self, name: &Name) -> bool
        ensures { (bs : List BlockTree) → AreTypesOf self.now bs
            → (IsTrue result ↔ IsWrongNumber bs (type_number bs name.now.key)) }
    {
        match self.names.find(name) {
            None => true,
            Some(number) => flag_at(self.endless.as_slice(), number),
        }
    }

    /// Looks at a name of a type.
    fn wrong_name(&self, name: &Name, place: &Place, nearest: Option<Place>) -> Option<Place>
        ensures { (bs : List BlockTree) → AreTypesOf self.now bs
            → Nears (λ at. IsWrongName bs at (name.now, place.now)) nearest result }
    {
        if !is_nearer(nearest, place) {
            return nearest;
        }
        if self.is_wrong(name) {
            Some(*place)
        } else {
            nearest
        }
    }

    /// Looks at a type.
    fn wrong_type(&self, ty: &DeclType, nearest: Option<Place>) -> Option<Place>
        ensures { (bs : List BlockTree) → AreTypesOf self.now bs
            → Nears (λ at. NamesWrongType bs at (type_tree ty.now)) nearest result }
    {
        match ty {
            DeclType::Named(name, place) => self.wrong_name(name, place, nearest),
            DeclType::Plain(_) | DeclType::Array { .. } | DeclType::Struct(_) | DeclType::Unread =>
                { nearest }
        }
    }

    /// Looks at types.
    fn wrong_types(&self, types: &[&DeclType], nearest: Option<Place>) -> Option<Place>
        ensures { (bs : List BlockTree) → AreTypesOf self.now bs
            → Nears (λ at. HasSome (NamesWrongType bs at) (map (λ t. type_tree t.now) types.now)) nearest result }
    {
        let mut nearest = nearest;
        for ty in types {
            nearest = self.wrong_type(*ty, nearest);
        }
        nearest
    }

    /// Looks at the type that a data block is of.
    fn wrong_kind(&self, kind: &BlockKind, nearest: Option<Place>) -> Option<Place>
        ensures { (bs : List BlockTree) → AreTypesOf self.now bs
            → Nears (λ at. HasSome (IsWrongName bs at) (name_of_kind kind.now)) nearest result }
    {
        match kind {
            BlockKind::Db {
                of: Some((name, place)),
            } => self.wrong_name(name, place, nearest),
            BlockKind::Db { of: None }
            | BlockKind::Fb
            | BlockKind::Fc
            | BlockKind::Ob
            | BlockKind::Udt => nearest,
        }
    }

    /// Looks at a block.
    fn wrong_types_of(
        &self,
        alloc: Global,
        block: &Block,
        nearest: Option<Place>,
    ) -> Result<Option<Place>, AllocError>
        ensures { (bs : List BlockTree) → AreTypesOf self.now bs → IfOk result
            (λ r. Nears (λ at. HasWrongType bs at (block_tree block.now)) nearest r) }
    {
        let gathered = Gathered::of(alloc, block.interface.vars.as_slice())?;
        let nearest = self.wrong_types(gathered.types.as_slice(), nearest);
        Ok(self.wrong_kind(&block.kind, nearest))
    }
}

/// The least place of a name of a type that isn't declared, or contains itself.
pub fn missing_type(alloc: Global, blocks: &[Block]) -> Result<Option<Place>, AllocError>
    ensures { (project : ProjectTree) → project.blocks ≡ map block_tree blocks.now
        → IfOk result (λ r. IsNearest (IsMissingType project) r) }
{
    let types = DeclaredTypes::of(alloc, blocks)?;
    let mut nearest = None;
    for block in blocks {
        nearest = types.wrong_types_of(alloc, block, nearest)?;
    }
    Ok(nearest)
}
