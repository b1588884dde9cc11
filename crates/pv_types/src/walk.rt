//! The walk over declarations that are laid out.
//!
//! What is still to be laid out lies on a stack of our own: variables, or elements of an array,
//! each beneath a front of the one path that the walk keeps. A step takes the first of them off the
//! top, so the leaves come in the order of the declarations, and the leaves so far followed by
//! those of the stack, from its top down, are always those of the whole. So nothing recurses,
//! however deep types stand inside each other, and each path is built in place.
ghost use Rattle.std.specs.Prelude.{
  ◌≡◌,
  IsTrue,
  false,
  ◌<ℤ◌,
  ◌≤ℤ◌,
  IfSome,
  IfNone,
  ◌+◌,
  ◌++◌,
  ◌<◌,
  ◌≤◌,
  [],
  ◌∷◌,
  IfOk,
  IsErrOf,
  OnOk,
  length,
  List,
  ◌-◌,
  ◌*◌,
  ◌+ℤ◌,
  pos,
};
ghost use Rattle.pv_types.specs.Leaves.{
  section_within,
  start_value,
  field_path,
  element_path,
  leaves_of_type,
  leaves_of_named,
  leaves_of_vars,
  leaves_of_elements,
  count_between,
  block,
};
ghost use Rattle.pv_types.specs.View.{type_tree, var_trees, trees_from, listed};
ghost use Rattle.pv_types.specs.Leaves as spec;
ghost use Rattle.pv_types.specs.Walk.{
  around_view,
  pending,
  work_left,
  work_of_type,
  work_of_vars,
  work_of_named,
  work_of_rest,
  leaves_of_rest,
  IsSound,
  Adds,
  Pops,
  Steps,
  all_leaves,
  IsLeafSection,
};
ghost use Rattle.pv_types.specs.Named.{NamedType, types_of};

use crate::declaration::{DeclType, Literal, Section, Vars};
use crate::fault::FlattenFault;
use crate::layout::MAX_LEAVES;
use crate::leaf::{Leaf, Leaves};
use crate::name::Name;
use crate::named::Types;
use crate::search::has_leaf;
use crate::var::{First, first_from};
use itoa::Buffer;
use pv_edge::Text;
use pv_word::Ty;
use std::alloc::{AllocError, Global};

/// Where variables stand.
#[derive(Clone, Copy)]
pub(crate) enum Around {
    /// In a block itself.
    Block,
    /// In an instance of a named type, which lies in this section.
    Instance(Section),
    /// In a structure, which lies in this section.
    Fields(Section),
}

impl Around {
    /// The section of the leaves of a variable that is declared in this one, or none where it has
    /// no leaves.
    pub(crate) fn section_of(self, own: Section) -> Option<Section>
        ensures { result ≡ section_within (around_view self) own }
    {
        match self {
            Around::Block => block_section(own),
            Around::Instance(section) => instance_section(section, own),
            Around::Fields(section) => Some(section),
        }
    }
}

fn block_section(own: Section) -> Option<Section>
    ensures { result ≡ spec.block_section own }
{
    match own {
        Section::Input => Some(Section::Input),
        Section::Output => Some(Section::Output),
        Section::InOut => Some(Section::InOut),
        Section::Static => Some(Section::Static),
        Section::Temp => Some(Section::Temp),
        Section::Const => None,
    }
}

fn instance_section(section: Section, own: Section) -> Option<Section>
    ensures { result ≡ spec.instance_section section own }
{
    match own {
        Section::Input => Some(section),
        Section::Output => Some(section),
        Section::InOut => Some(section),
        Section::Static => Some(section),
        Section::Temp => None,
        Section::Const => None,
    }
}

fn start_value_of(start: Option<Literal>) -> i128
    ensures { result ≡ start_value start }
{
    match start {
        Some(literal) => literal.value,
        None => 0,
    }
}

/// The section of the leaves of a variable, or none where those that are declared with it have no
/// leaves, however many elements their type may have. Only the first of their names asks that of
/// the type.
fn leaf_section<'p>(
    alloc: Global,
    first: &First<'p>,
    around: Around,
    named: &Types<'p>,
) -> Result<Option<Section>, AllocError>
    ensures { IfOk result
        (λ section. IsLeafSection (types_of named.now) around first.now.var.of.now section) }
{
    let of = first.var.of;
    let Some(section) = around.section_of(of.section) else {
        return Ok(None);
    };
    if first.from == 1 && !has_leaf(alloc, &of.ty, named)? {
        return Ok(None);
    }
    Ok(Some(section))
}

/// Puts a variable's name behind the path, after a dot where there is something before it.
fn append_name(path: &mut Vec<u8>, name: &Name) -> Result<(), AllocError>
    ensures { OnOk result (path.new.items ≡ field_path path.old.items name.now) }
{
    if !path.is_empty() {
        path.push(b'.')?;
    }
    path.extend_from_slice(name.spelled())?;
    Ok(())
}

/// Puts an array's index behind the path.
fn append_index(path: &mut Vec<u8>, index: &i128) -> Result<(), AllocError>
    ensures { OnOk result (path.new.items ≡ element_path path.old.items index.now) }
{
    let mut buffer = Buffer::new();
    path.push(b'[')?;
    path.extend_from_slice(buffer.format(*index).as_bytes())?;
    path.push(b']')?;
    Ok(())
}

/// The elements of an array from `index` to `high`.
#[derive(Clone, Copy)]
pub(crate) struct Span {
    index: i128,
    high: i128,
}

impl Span {
    fn is_empty(&self) -> bool
        ensures empty { IsTrue result → self.now.high <ℤ self.now.index }
        ensures some { result ≡ false → self.now.index ≤ℤ self.now.high }
    {
        self.high < self.index
    }

    /// The elements behind the first one.
    fn behind_first(&self) -> Option<Span>
        ensures some { IfSome result (λ span. span
            ≡ record { index = self.now.index +ℤ pos 1; high = self.now.high }) }
        ensures none { IfNone result (self.now.high ≤ℤ self.now.index) }
    {
        if self.index >= self.high {
            return None;
        }
        Some(Span {
            index: self.index + 1,
            high: self.high,
        })
    }
}

/// What is still to be laid out beneath a path.
#[derive(Drop)]
pub(crate) enum Rest<'p> {
    /// Variables; of the first declaration only the names from this number on.
    Vars {
        vars: &'p [Vars],
        from: usize,
        around: Around,
    },
    Elements {
        of: &'p DeclType,
        span: Span,
        section: Section,
    },
}

/// What is still to be laid out beneath the first `path_len` bytes of the path, where at most
/// `levels` named types stand inside each other.
#[derive(Drop)]
pub(crate) struct Frame<'p> {
    rest: Rest<'p>,
    path_len: usize,
    levels: usize,
}

/// A walk: its stack, whose top is last, the path beneath which it stands, and the leaves so far.
#[derive(Drop)]
pub(crate) struct Walk<'p> {
    frames: Vec<Frame<'p>>,
    path: Vec<u8>,
    leaves: Vec<Leaf>,
}

impl<'p> Walk<'p> {
    /// Puts a leaf behind the others.
    ///
    /// `TooLarge` where there are as many as there may be.
    fn add_leaf(
        &mut self,
        alloc: Global,
        ty: Ty,
        start: Option<Literal>,
        section: Section,
    ) -> Result<(), FlattenFault>
        ensures frames { self.new.frames.items ≡ self.old.frames.items }
        ensures path { self.new.path.items ≡ self.old.path.items }
        ensures leaves { OnOk result (self.new.leaves.items ≡ self.old.leaves.items
            ++ record {
              path = self.old.path.items;
              ty = ty;
              start = start_value start;
              section =
                  section;
            } ∷ []) }
        ensures within { OnOk result (length self.new.leaves.items ≤ MAX_LEAVES) }
        ensures too_large { IsErrOf result FlattenFault.TooLarge
            → MAX_LEAVES ≤ length self.old.leaves.items }
    {
        if self.leaves.len() >= MAX_LEAVES {
            return Err(FlattenFault::TooLarge);
        }
        let path = Text::of(alloc, self.path.as_slice())?;
        let start = start_value_of(start);
        self.leaves.push(Leaf {
            path,
            ty,
            start,
            section,
        })?;
        Ok(())
    }

    /// Puts what is still to be laid out beneath the path on the stack.
    fn add_frame(&mut self, rest: Rest<'p>, levels: usize) -> Result<(), FlattenFault>
        requires { IsSound self.old }
        ensures adds { (types : List NamedType) → OnOk result (Adds types self.old self.new
            (leaves_of_rest types levels self.old.path.items rest.entry)
            (work_of_rest types levels rest.entry)) }
        ensures path { self.new.path.items ≡ self.old.path.items }
        ensures leaves { self.new.leaves.items ≡ self.old.leaves.items }
        ensures memory { IsErrOf result FlattenFault.TooLarge → ⊥ }
    {
        let path_len = self.path.len();
        self.frames.push(Frame {
            rest,
            path_len,
            levels,
        })?;
        Ok(())
    }

    /// Puts variables on the stack.
    fn add_vars(
        &mut self,
        vars: &'p [Vars],
        around: Around,
        levels: usize,
    ) -> Result<(), FlattenFault>
        requires { IsSound self.old }
        ensures adds { (types : List NamedType) → OnOk result (Adds types self.old self.new
            (leaves_of_vars (leaves_of_named types levels) (around_view around)
            self.old.path.items (listed (var_trees vars.now)))
            (work_of_vars (work_of_named types levels) (listed (var_trees vars.now)))) }
        ensures path { self.new.path.items ≡ self.old.path.items }
        ensures leaves { self.new.leaves.items ≡ self.old.leaves.items }
        ensures memory { IsErrOf result FlattenFault.TooLarge → ⊥ }
    {
        let from = 0;
        self.add_frame(Rest::Vars { vars, from, around }, levels)
    }

    /// Lays out a type beneath the path: its one leaf, or what it has inside, which goes on the
    /// stack.
    fn lay_out_type(
        &mut self,
        alloc: Global,
        ty: &'p DeclType,
        start: Option<Literal>,
        section: Section,
        levels: usize,
        named: &Types<'p>,
    ) -> Result<(), FlattenFault>
        requires { IsSound self.old }
        ensures adds { let types = types_of named.now in
            OnOk result (Adds types self.old self.new
            (leaves_of_type (leaves_of_named types levels) self.old.path.items (start_value start)
            section (type_tree ty.now))
            (work_of_type (work_of_named types levels) (type_tree ty.now))) }
        ensures too_large { let types = types_of named.now in
            IsErrOf result FlattenFault.TooLarge → MAX_LEAVES < length self.old.leaves.items
            + length (leaves_of_type (leaves_of_named types levels) self.old.path.items
            (start_value start) section (type_tree ty.now)) }
    {
        match ty {
            DeclType::Plain(ty) => self.add_leaf(alloc, *ty, start, section),
            DeclType::Array { low, high, of, .. } => {
                let span = Span {
                    index: *low,
                    high: *high,
                };
                self.add_frame(Rest::Elements { of, span, section }, levels)
            }
            DeclType::Struct(vars) => {
                let vars = vars.as_slice();
                let around = Around::Fields(section);
                self.add_vars(vars, around, levels)
            }
            DeclType::Named(name, _) => self.lay_out_named(name, section, levels, named),
            DeclType::Unread => Ok(()),
        }
    }

    /// Lays out the variables of a named type beneath the path.
    fn lay_out_named(
        &mut self,
        name: &Name,
        section: Section,
        levels: usize,
        named: &Types<'p>,
    ) -> Result<(), FlattenFault>
        requires { IsSound self.old }
        ensures adds { let types = types_of named.now in
            OnOk result (Adds types self.old self.new
            (leaves_of_named types levels name.now.key self.old.path.items section)
            (work_of_named types levels name.now.key)) }
        ensures memory { IsErrOf result FlattenFault.TooLarge → ⊥ }
    {
        let Some(below) = levels.checked_sub(1) else {
            return Ok(());
        };
        let Some(vars) = named.find(name) else {
            return Ok(());
        };
        let around = Around::Instance(section);
        self.add_vars(vars, around, below)
    }

    /// Lays out the first of the variables, and puts the others on the stack. Those that share a
    /// type without a leaf are passed over at once.
    fn lay_out_vars(
        &mut self,
        alloc: Global,
        vars: &'p [Vars],
        from: usize,
        around: Around,
        levels: usize,
        named: &Types<'p>,
    ) -> Result<(), FlattenFault>
        requires { IsSound self.old }
        ensures adds { let types = types_of named.now in
            OnOk result (Adds types self.old self.new
            (leaves_of_vars (leaves_of_named types levels) (around_view around)
            self.old.path.items (listed (trees_from vars.now from)))
            (work_of_vars (work_of_named types levels) (listed (trees_from vars.now from)) - 1)) }
        ensures too_large { let types = types_of named.now in
            IsErrOf result FlattenFault.TooLarge → MAX_LEAVES < length self.old.leaves.items
            + length (leaves_of_vars (leaves_of_named types levels) (around_view around)
            self.old.path.items (listed (trees_from vars.now from))) }
    {
        let Some(first) = first_from(vars, from) else {
            return Ok(());
        };
        match leaf_section(alloc, &first, around, named)? {
            None => self.add_vars(first.behind, around, levels),
            Some(section) => {
                let behind = Rest::Vars {
                    vars: first.vars,
                    from: first.from,
                    around,
                };
                self.add_frame(behind, levels)?;
                let var = first.var;
                append_name(&mut self.path, var.name)?;
                self.lay_out_type(alloc, &var.of.ty, var.of.start, section, levels, named)
            }
        }
    }

    /// Puts the elements behind the first one on the stack.
    fn add_next_elements(
        &mut self,
        of: &'p DeclType,
        span: &Span,
        section: Section,
        levels: usize,
    ) -> Result<(), FlattenFault>
        requires { IsSound self.old }
        ensures adds { (types : List NamedType)
            → let count = count_between (span.now.index +ℤ pos 1) span.now.high in
            OnOk result (Adds types self.old self.new
            (leaves_of_elements
            (λ i. leaves_of_type (leaves_of_named types levels)
            (element_path self.old.path.items i) (pos 0) section (type_tree of.now))
            (span.now.index +ℤ pos 1) count)
            (1 + count * (1 + work_of_type (work_of_named types levels) (type_tree of.now)))) }
        ensures path { self.new.path.items ≡ self.old.path.items }
        ensures leaves { self.new.leaves.items ≡ self.old.leaves.items }
        ensures memory { IsErrOf result FlattenFault.TooLarge → ⊥ }
    {
        match span.behind_first() {
            Some(span) => self.add_frame(Rest::Elements { of, span, section }, levels),
            None => Ok(()),
        }
    }

    /// Lays out the first of the elements of an array, and puts the others on the stack.
    fn lay_out_elements(
        &mut self,
        alloc: Global,
        of: &'p DeclType,
        span: &Span,
        section: Section,
        levels: usize,
        named: &Types<'p>,
    ) -> Result<(), FlattenFault>
        requires { IsSound self.old }
        ensures adds { let types = types_of named.now in
            OnOk result (Adds types self.old self.new
            (leaves_of_rest types levels self.old.path.items
            (Rest.Elements of.entry span.now section))
            (work_of_rest types levels (Rest.Elements of.entry span.now section) - 1)) }
        ensures too_large { let types = types_of named.now in
            IsErrOf result FlattenFault.TooLarge → MAX_LEAVES < length self.old.leaves.items
            + length (leaves_of_rest types levels self.old.path.items
            (Rest.Elements of.entry span.now section)) }
    {
        if span.is_empty() {
            return Ok(());
        }
        self.add_next_elements(of, span, section, levels)?;
        append_index(&mut self.path, &span.index)?;
        self.lay_out_type(alloc, of, None, section, levels, named)
    }

    /// Lays out the first of what lies beneath the path, and puts the rest on the stack.
    fn lay_out_rest(
        &mut self,
        alloc: Global,
        rest: Rest<'p>,
        levels: usize,
        named: &Types<'p>,
    ) -> Result<(), FlattenFault>
        requires { IsSound self.old }
        ensures adds { let types = types_of named.now in
            OnOk result (Adds types self.old self.new
            (leaves_of_rest types levels self.old.path.items rest.entry)
            (work_of_rest types levels rest.entry - 1)) }
        ensures too_large { let types = types_of named.now in
            IsErrOf result FlattenFault.TooLarge → MAX_LEAVES < length self.old.leaves.items
            + length (leaves_of_rest types levels self.old.path.items rest.entry) }
    {
        match rest {
            Rest::Vars { vars, from, around } => self.lay_out_vars(
                alloc, vars, from, around, levels, named,
            ),
            Rest::Elements { of, span, section } => self.lay_out_elements(
                alloc, of, &span, section, levels, named,
            ),
        }
    }

    /// Takes the top off the stack, and leaves the front of the path beneath which it stands.
    fn pop_frame(&mut self) -> Option<Frame<'p>>
        requires { IsSound self.old }
        ensures pops { IfSome result (λ frame. (types : List NamedType)
            → Pops types self.old self.new frame) }
        ensures none { IfNone result (self.old.frames.items ≡ []) }
        ensures unchanged { IfNone result (self.new.frames.items ≡ []) }
        ensures leaves { self.new.leaves.items ≡ self.old.leaves.items }
        ensures path { IfNone result (self.new.path.items ≡ self.old.path.items) }
    {
        let frame = self.frames.pop()?;
        self.path.truncate(frame.path_len);
        Some(frame)
    }

    /// Takes a step, and says whether there was one to take.
    fn step(&mut self, alloc: Global, named: &Types<'p>) -> Result<bool, FlattenFault>
        requires { IsSound self.old }
        ensures steps { IfOk result (λ going. Steps (types_of named.now) self.old self.new going) }
        ensures too_large { IsErrOf result FlattenFault.TooLarge
            → MAX_LEAVES < length (all_leaves (types_of named.now) self.old) }
    {
        let Some(frame) = self.pop_frame() else {
            return Ok(false);
        };
        match self.lay_out_rest(alloc, frame.rest, frame.levels, named) {
            Ok(()) => Ok(true),
            Err(fault) => Err(fault),
        }
    }

    /// A walk over a block's variables beneath a path.
    pub(crate) fn new(
        alloc: Global,
        path: &[u8],
        vars: &'p [Vars],
        levels: usize,
    ) -> Result<Walk<'p>, FlattenFault>
        ensures sound { IfOk result (λ walk. IsSound walk) }
        ensures all { (types : List NamedType) → IfOk result (λ walk. all_leaves types walk
            ≡ leaves_of_vars (leaves_of_named types levels) block path.now
            (listed (var_trees vars.now))) }
        ensures memory { IsErrOf result FlattenFault.TooLarge → ⊥ }
    {
        let mut walk = Walk {
            frames: Vec::new(alloc),
            path: Vec::from_slice(alloc, path)?,
            leaves: Vec::new(alloc),
        };
        walk.add_vars(vars, Around::Block, levels)?;
        Ok(walk)
    }

    /// Takes all steps, and gives the leaves.
    pub(crate) fn run(self, alloc: Global, named: &Types<'p>) -> Result<Leaves, FlattenFault>
        requires { IsSound self }
        ensures leaves { IfOk result (λ leaves. leaves
            ≡ all_leaves (types_of named.now) self.entry) }
        ensures within { OnOk result (length (all_leaves (types_of named.now) self.entry) ≤
            MAX_LEAVES) }
        ensures too_large { IsErrOf result FlattenFault.TooLarge
            → MAX_LEAVES < length (all_leaves (types_of named.now) self.entry) }
    {
        let mut walk = self;
        while walk.step(alloc, named)? {}
        Ok(Leaves::from(walk.leaves))
    }
}
