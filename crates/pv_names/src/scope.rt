//! A block of a project, in which names are looked up.
ghost use Rattle.std.specs.Prelude.{◌≡◌, option_map};
ghost use Rattle.pv_types.specs.View.{var_tree, var_trees};
ghost use Rattle.pv_tree.specs.View.{block_tree, body_tree, step_tree, operand_tree, expr_tree};
ghost use Rattle.pv_tree.specs.Scopes as scopes;
ghost use Rattle.pv_tree.specs.Things as things;
ghost use Rattle.pv_names.specs.Entries.{block_of};
ghost use Rattle.pv_names.specs.Tables.{project_of};
ghost use Rattle.pv_names.specs.Views.{held_tree, thing_tree};
ghost use Rattle.pv_names.specs.InScope.{scope_of};

use crate::doubled::Part;
use crate::entry::Entry;
use crate::tables::Tables;
use crate::thing::{Held, Thing, dated, is_address, level_of, thing_of_var, type_of_bits};
use pv_place::Place;
use pv_tree::{Block, BlockKind, Body, Root};
use pv_types::{Name, Var, Vars, named_among};
use pv_word::Ty;

/// A block of a project, in which names are looked up.
#[derive(Clone, Copy)]
pub struct Scope<'p> {
    pub tables: &'p Tables<'p>,
    pub entry: &'p Entry<'p>,
}

/// Whether a body is one of STL.
pub fn is_stl(body: &Body) -> bool
    ensures { result ≡ scopes.is_stl (body_tree body.now) }
{
    match body {
        Body::Stl(_) => true,
        Body::Scl(_) | Body::Starts(_) => false,
    }
}

/// Whether a block is a type.
fn is_type(kind: &BlockKind) -> bool
    ensures { result ≡ scopes.is_type kind.now }
{
    match kind {
        BlockKind::Fb | BlockKind::Udt => true,
        BlockKind::Fc | BlockKind::Ob | BlockKind::Db { .. } => false,
    }
}

/// The type of the value that a name means in a function.
pub fn own_value(block: &Block, name: &Name, hash: bool) -> Option<Ty>
    ensures { result ≡ scopes.own_value (block_tree block.now) name.now.key hash }
{
    if is_stl(&block.body) {
        if name.key().bytes() == b"ret_val".as_slice() {
            return block.interface.value;
        }
        return None;
    }
    if hash {
        return None;
    }
    if name.key() == block.name.key() {
        return block.interface.value;
    }
    None
}

/// The type of the value that a quoted or numbered name means in a function.
pub fn quoted_value(block: &Block, name: &Name) -> Option<Ty>
    ensures { result ≡ things.quoted_value (block_tree block.now) name.now.key }
{
    if is_stl(&block.body) {
        return None;
    }
    own_value(block, name, false)
}

/// The first of the variables of this name.
fn first_among<'p>(vars: &'p [Vars], name: &Name) -> Option<Var<'p>>
    ensures { option_map var_tree result ≡ scopes.first_var (var_trees vars.now) name.now.key }
{
    for of in vars {
        if let Some(var) = named_among(of, name) {
            return Some(var);
        }
    }
    None
}

impl<'p> Scope<'p> {
    /// What a word means, without and behind `#`.
    pub fn word(&self, name: &Name, hash: bool, place: Place) -> Thing<'p>
        ensures { thing_tree result
            ≡ things.thing_of_word (scope_of self.now) name.now.key hash place }
    {
        if let Some(var) = self.entry.find(name) {
            return thing_of_var(var);
        }
        if let Some(ty) = own_value(self.entry.block, name, hash) {
            return Thing::Part(Held::Plain(ty));
        }
        if hash {
            return Thing::NoName(place);
        }
        match self.tables.find_block(name) {
            Some(entry) => Thing::Block(entry),
            None => Thing::NoName(place),
        }
    }

    /// What a symbol stands for.
    fn symbol(&self, name: &Name, place: Place) -> Thing<'p>
        ensures { thing_tree result
            ≡ things.thing_of_symbol (scope_of self.now) name.now.key place }
    {
        match self.tables.find_symbol(name) {
            Some(symbol) => Thing::Part(Held::Plain(symbol.2)),
            None => Thing::NoName(place),
        }
    }

    /// What a quoted or numbered name means.
    fn name(&self, name: &Name, place: Place) -> Thing<'p>
        ensures { thing_tree result
            ≡ things.thing_of_name (scope_of self.now) name.now.key place }
    {
        if let Some(ty) = quoted_value(self.entry.block, name) {
            return Thing::Part(Held::Plain(ty));
        }
        match self.tables.find_block(name) {
            Some(entry) => Thing::Block(entry),
            None => self.symbol(name, place),
        }
    }

    /// What an operand begins with.
    pub fn root(&self, root: &Root, first: Place) -> Thing<'p>
        ensures { thing_tree result ≡ things.thing_of_root (scope_of self.now) root.now first }
    {
        match root {
            Root::Local { name, hash, place } => self.word(name, *hash, *place),
            Root::Named(name) => self.name(name, first),
            Root::Area {
                bits,
                byte,
                bit,
                ..
            } => {
                if is_address(*bits, *byte, *bit) {
                    Thing::Part(Held::Plain(type_of_bits(*bits)))
                } else {
                    Thing::Untold
                }
            }
        }
    }

    /// The block that is the type of this name.
    pub fn find_type(&self, name: &Name) -> Option<&'p Entry<'p>>
        ensures { option_map (λ e. block_of e.now) result
            ≡ scopes.type_named (project_of self.now.tables.now) name.now.key }
    {
        match self.tables.find_block(name) {
            Some(entry) => {
                if is_type(&entry.block.kind) {
                    Some(entry)
                } else {
                    None
                }
            }
            None => None,
        }
    }

    /// The field of this name in the type of that name.
    fn field_of_named(&self, type_name: &Name, name: &Name, place: Place) -> Thing<'p>
        ensures { thing_tree result ≡ things.field_of_named (scope_of self.now) type_name.now.key
            name.now.key place }
    {
        match self.find_type(type_name) {
            Some(entry) => match field_of_instance(entry, name) {
                Some(var) => Thing::Part(level_of(&var.of.ty)),
                None => Thing::NoName(place),
            },
            None => Thing::Untold,
        }
    }

    /// The field of this name in a type.
    fn field_of_type(&self, ty: Held<'p>, name: &Name, place: Place) -> Thing<'p>
        ensures { thing_tree result ≡ things.field_of_type (scope_of self.now) (held_tree ty.entry)
            name.now.key place }
    {
        match ty {
            Held::Struct(vars) => match first_among(vars, name) {
                Some(var) => Thing::Part(level_of(&var.of.ty)),
                None => Thing::NoName(place),
            },
            Held::Named(type_name, _) => self.field_of_named(type_name, name, place),
            Held::Plain(_) | Held::Array { .. } | Held::Unread => Thing::NoName(place),
        }
    }

    /// The field of this name in a block: a data block has the fields of its type, or its own.
    pub fn field_of_block(&self, entry: &Entry<'p>, name: &Name, place: Place) -> Thing<'p>
        ensures { thing_tree result ≡ things.field_of_kind (scope_of self.now)
            (block_of entry.now).kind (block_of entry.now).vars name.now.key place }
    {
        match &entry.block.kind {
            BlockKind::Db { of: None } => match entry.find(name) {
                Some(var) => Thing::Part(level_of(&var.of.ty)),
                None => Thing::NoName(place),
            },
            BlockKind::Db {
                of: Some((type_name, _)),
            } => self.field_of_named(type_name, name, place),
            BlockKind::Fb | BlockKind::Fc | BlockKind::Ob | BlockKind::Udt => Thing::NoName(place),
        }
    }

    /// The field of this name in a thing.
    pub fn field(&self, thing: Thing<'p>, name: &Name, place: Place) -> Thing<'p>
        ensures { thing_tree result ≡ things.field_of_thing (scope_of self.now)
            (thing_tree thing.entry) name.now.key place }
    {
        match thing {
            Thing::Part(ty) => self.field_of_type(ty, name, place),
            Thing::Constant(_) => Thing::NoName(place),
            Thing::Block(entry) => self.field_of_block(entry, name, place),
            Thing::NoName(at) => Thing::NoName(at),
            Thing::NoArray(at) => Thing::NoArray(at),
            Thing::ADate(at) => Thing::ADate(at),
            Thing::Untold => Thing::Untold,
        }
    }

    /// An element of a type; the place is that of the index's first token.
    fn element_of_type(&self, ty: Held<'p>, place: Place) -> Thing<'p>
        ensures { thing_tree result ≡ things.element_of_type (scope_of self.now)
            (held_tree ty.entry) place }
    {
        match ty {
            Held::Array { of, .. } => Thing::Part(level_of(of)),
            Held::Named(name, _) => match self.find_type(name) {
                Some(_) => Thing::NoArray(place),
                None => Thing::Untold,
            },
            Held::Plain(_) | Held::Struct(_) | Held::Unread => Thing::NoArray(place),
        }
    }

    /// An element of a thing; the place is that of the index's first token.
    pub fn element(&self, thing: Thing<'p>, place: Place) -> Thing<'p>
        ensures { thing_tree result ≡ things.element_of_thing (scope_of self.now)
            (thing_tree thing.entry) place }
    {
        match thing {
            Thing::Part(ty) => self.element_of_type(ty, place),
            Thing::Constant(_) | Thing::Block(_) => Thing::NoArray(place),
            Thing::NoName(at) => Thing::NoName(at),
            Thing::NoArray(at) => Thing::NoArray(at),
            Thing::ADate(at) => Thing::ADate(at),
            Thing::Untold => Thing::Untold,
        }
    }
}

/// The first variable of this name that an instance of the block has.
fn field_of_instance<'p>(entry: &Entry<'p>, name: &Name) -> Option<Var<'p>>
    ensures { option_map var_tree result
        ≡ scopes.first_var (things.fields_of_type (block_of entry.now)) name.now.key }
{
    entry.find_of(Part::Fields, name)
}
