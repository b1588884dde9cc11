//! Which block a call runs.
ghost use Rattle.std.specs.Prelude.{◌≡◌, length, Some, true, false};
ghost use Rattle.std.specs.List.{list_all};
ghost use Rattle.std.specs.Char.{is_ascii_digit};
ghost use Rattle.pv_tree.specs.View.{block_tree, call_tree};
ghost use Rattle.pv_types.specs.View.{type_tree, var_tree};
ghost use Rattle.pv_tree.specs.Scopes as scopes;
ghost use Rattle.pv_tree.specs.Callees as callees;
ghost use Rattle.pv_tree.specs.Callees.{as_statement, a_variable, undeclared};
ghost use Rattle.pv_tree.specs.declared.block.BlockKind.TheVariants.{Db};
ghost use Rattle.pv_tree.specs.Parts as parts;
ghost use Rattle.pv_tree.specs.Parts.{site};
ghost use Rattle.pv_names.specs.Entries.{block_of};
ghost use Rattle.pv_names.specs.InScope.{scope_of};
ghost use Rattle.pv_names.specs.Callees.{how_tree, called_tree, callee_tree};

use crate::entry::Entry;
use crate::scope::{Scope, is_stl, own_value};
use pv_place::Place;
use pv_tree::{Block, BlockKind, CallTree, Op};
use pv_types::{DeclType, Name, Section, Var};

/// How a call is made: as a statement of SCL, as the value of an assignment, by CALL, or by UC.
#[derive(Clone, Copy)]
pub enum How {
    Statement,
    Value,
    Call,
    Uc,
}

/// How an instruction calls.
pub fn how_of(op: Op) -> How
    ensures { how_tree result ≡ parts.how_of op }
{
    if let Op::Uc = op { How::Uc } else { How::Call }
}

/// What a called name or a second name means.
#[derive(Clone, Copy)]
pub enum Called<'p> {
    /// A declaration of the block.
    Variable(Var<'p>),
    Block(&'p Entry<'p>),
    /// A name that is declared, and can't be called.
    NoCallee,
    /// A name that isn't declared.
    Undeclared,
}

/// What a call comes to.
#[derive(Clone, Copy)]
pub enum Callee<'p> {
    /// The block that it runs.
    Runs(&'p Entry<'p>),
    /// A name that isn't declared, at its place.
    NotDeclared(Place),
    /// A name that can't be called so, at its place.
    NotCallable(Place),
    /// An instance of a type that isn't declared.
    Unknown,
}

/// Whether a call is one of STL.
pub fn is_by_stl(how: How) -> bool
    ensures { result ≡ callees.is_by_stl (how_tree how) }
{
    match how {
        How::Statement | How::Value => false,
        How::Call | How::Uc => true,
    }
}

/// Whether a name stands in quotes.
fn is_quoted(name: &Name) -> bool
    ensures { result ≡ callees.is_quoted name.now }
{
    name.spelled().starts_with(b"\"".as_slice())
}

/// Whether a text is decimal digits.
fn all_digits(text: &[u8]) -> bool
    ensures { result ≡ list_all is_ascii_digit text.now }
{
    text.iter().all(|b| b.is_ascii_digit())
}

/// Whether a text is decimal digits, at least one.
fn is_number_text(text: &[u8]) -> bool
    ensures { result ≡ callees.is_number_text text.now }
{
    match text.split_first() {
        Some(_) => all_digits(text),
        None => false,
    }
}

/// Whether a key is this word and a number.
fn has_number_behind(prefix: &[u8], key: &[u8]) -> bool
    ensures { result ≡ callees.has_number_behind prefix.now key.now (length prefix.now) }
{
    key.starts_with(prefix) && is_number_text(&key[prefix.len()..])
}

/// Whether a key is that of a numbered name.
fn is_numbered(key: &[u8]) -> bool
    ensures { result ≡ callees.is_numbered key.now }
{
    has_number_behind(b"ob".as_slice(), key)
        || has_number_behind(b"fb".as_slice(), key)
        || has_number_behind(b"fc".as_slice(), key)
        || has_number_behind(b"db".as_slice(), key)
        || has_number_behind(b"udt".as_slice(), key)
}

/// Whether a name is an unquoted word, as opposed to a quoted, a paired (`FB 1`) or a numbered one (`FB1`).
pub fn is_word(name: &Name) -> bool
    ensures { result ≡ callees.is_word name.now }
{
    !is_quoted(name) && !(name.paired() || is_numbered(name.key().bytes()))
}

/// Whether a block is a function block.
pub(crate) fn is_fb(kind: &BlockKind) -> bool
    ensures { result ≡ scopes.is_fb kind.now }
{
    matches!(kind, BlockKind::Fb)
}

/// Whether a variable may be called as an instance in a block.
fn may_be_instance(block: &Block, var: Var) -> bool
    ensures { result ≡ callees.may_be_instance (block_tree block.now) (var_tree var.entry) }
{
    match var.of.section {
        Section::Input => is_fb(&block.kind),
        Section::Output => is_fb(&block.kind),
        Section::InOut => is_fb(&block.kind),
        Section::Static => is_fb(&block.kind),
        Section::Temp => false,
        Section::Const => false,
    }
}

/// What a function comes to: an assignment takes its value.
fn function_runs<'p>(how: How, entry: &'p Entry<'p>, place: Place) -> Callee<'p>
    ensures { callee_tree result
        ≡ callees.function_runs (how_tree how) (block_of entry.now) place }
{
    match how {
        How::Statement => Callee::Runs(entry),
        How::Value => {
            if entry.block.interface.value.is_some() {
                Callee::Runs(entry)
            } else {
                Callee::NotCallable(place)
            }
        }
        How::Call => Callee::Runs(entry),
        How::Uc => Callee::Runs(entry),
    }
}

/// The function block that an instance is of, where it is one.
fn block_where_fb<'p>(entry: &'p Entry<'p>, place: Place) -> Callee<'p>
    ensures { callee_tree result ≡ callees.instance_runs as_statement (block_of entry.now) place }
{
    if is_fb(&entry.block.kind) {
        Callee::Runs(entry)
    } else {
        Callee::NotCallable(place)
    }
}

/// What an instance of a block comes to.
fn instance_runs<'p>(how: How, entry: &'p Entry<'p>, place: Place) -> Callee<'p>
    ensures { callee_tree result
        ≡ callees.instance_runs (how_tree how) (block_of entry.now) place }
{
    match how {
        How::Statement => block_where_fb(entry, place),
        How::Value => Callee::NotCallable(place),
        How::Call => block_where_fb(entry, place),
        How::Uc => Callee::NotCallable(place),
    }
}

impl<'p> Scope<'p> {
    /// What a block of this name is, and what there is where there is none.
    fn block_alone(&self, name: &Name) -> Called<'p>
        ensures { called_tree result ≡ callees.called_block
            (scopes.first_block (scope_of self.now).project.blocks name.now.key) undeclared }
    {
        match self.tables.find_block(name) {
            Some(entry) => Called::Block(entry),
            None => Called::Undeclared,
        }
    }

    /// What an unquoted word means.
    fn called_word(&self, name: &Name, hash: bool) -> Called<'p>
        requires { callees.is_word name.now ≡ true }
        ensures { called_tree result
            ≡ callees.called_name (scope_of self.now) name.now hash }
    {
        if let Some(var) = self.entry.find(name) {
            return Called::Variable(var);
        }
        if is_stl(&self.entry.block.body) {
            if let Some(_) = own_value(self.entry.block, name, hash) {
                return Called::NoCallee;
            }
        }
        if hash {
            Called::Undeclared
        } else {
            self.block_alone(name)
        }
    }

    /// What a quoted or numbered name means behind `#`.
    fn called_behind_hash(&self, name: &Name) -> Called<'p>
        requires { callees.is_word name.now ≡ false }
        ensures { called_tree result
            ≡ callees.called_name (scope_of self.now) name.now true }
    {
        match self.entry.find(name) {
            Some(_) => Called::NoCallee,
            None => Called::Undeclared,
        }
    }

    /// What a quoted or numbered name means.
    fn called_block(&self, name: &Name) -> Called<'p>
        requires { callees.is_word name.now ≡ false }
        ensures { called_tree result
            ≡ callees.called_name (scope_of self.now) name.now false }
    {
        if let Some(entry) = self.tables.find_block(name) {
            return Called::Block(entry);
        }
        match self.tables.find_symbol(name) {
            Some(_) => Called::NoCallee,
            None => Called::Undeclared,
        }
    }

    /// What a called name means, without and behind `#`.
    pub fn called_name(&self, name: &Name, hash: bool) -> Called<'p>
        ensures { called_tree result
            ≡ callees.called_name (scope_of self.now) name.now hash }
    {
        if is_word(name) {
            return self.called_word(name, hash);
        }
        if hash {
            self.called_behind_hash(name)
        } else {
            self.called_block(name)
        }
    }

    /// What an instance of the type of this name comes to.
    fn instance_of(&self, how: How, type_name: &Name, place: Place) -> Callee<'p>
        ensures { callee_tree result ≡ callees.instance_of (scope_of self.now) (how_tree how)
            type_name.now.key place }
    {
        match self.find_type(type_name) {
            Some(entry) => instance_runs(how, entry, place),
            None => Callee::Unknown,
        }
    }

    /// What a variable of this type comes to.
    fn variable_runs(&self, how: How, ty: &DeclType, place: Place) -> Callee<'p>
        ensures { callee_tree result ≡ callees.variable_runs (scope_of self.now) (how_tree how)
            (type_tree ty.now) place }
    {
        match ty {
            DeclType::Named(name, _) => self.instance_of(how, name, place),
            DeclType::Plain(_) => Callee::NotCallable(place),
            DeclType::Array { .. } => Callee::NotCallable(place),
            DeclType::Struct(_) => Callee::NotCallable(place),
            DeclType::Unread => Callee::NotCallable(place),
        }
    }

    /// What a variable comes to.
    fn var_runs(&self, how: How, var: Var<'p>, place: Place) -> Callee<'p>
        ensures { callee_tree result ≡ callees.one_name_runs (scope_of self.now) (how_tree how)
            (a_variable (var_tree var.entry)) place }
    {
        let callee = self.variable_runs(how, &var.of.ty, place);
        if may_be_instance(self.entry.block, var) {
            return callee;
        }
        match callee {
            Callee::Unknown => Callee::Unknown,
            Callee::Runs(_) => Callee::NotCallable(place),
            Callee::NotDeclared(_) => Callee::NotCallable(place),
            Callee::NotCallable(_) => Callee::NotCallable(place),
        }
    }

    /// What a block comes to: a data block alone is called in SCL, as an instance of its function block.
    fn block_runs(&self, how: How, entry: &'p Entry<'p>, place: Place) -> Callee<'p>
        ensures { callee_tree result ≡ callees.block_runs (scope_of self.now) (how_tree how)
            (block_of entry.now).kind (block_of entry.now) place }
    {
        match &entry.block.kind {
            BlockKind::Fc => function_runs(how, entry, place),
            BlockKind::Db {
                of: Some((type_name, _)),
            } => {
                if is_by_stl(how) {
                    Callee::NotCallable(place)
                } else {
                    self.instance_of(how, type_name, place)
                }
            }
            BlockKind::Db { of: None } => Callee::NotCallable(place),
            BlockKind::Fb => Callee::NotCallable(place),
            BlockKind::Ob => Callee::NotCallable(place),
            BlockKind::Udt => Callee::NotCallable(place),
        }
    }

    /// What a call by one name comes to.
    fn one_name_runs(&self, how: How, called: Called<'p>, place: Place) -> Callee<'p>
        ensures { callee_tree result ≡ callees.one_name_runs (scope_of self.now) (how_tree how)
            (called_tree called.entry) place }
    {
        match called {
            Called::Variable(var) => self.var_runs(how, var, place),
            Called::Block(entry) => self.block_runs(how, entry, place),
            Called::NoCallee => Callee::NotCallable(place),
            Called::Undeclared => Callee::NotDeclared(place),
        }
    }

    /// What a function block comes to with an instance of the type of this name.
    fn named_runs(
        &self,
        how: How,
        fb: &'p Entry<'p>,
        first: Place,
        type_name: &(Name, Place),
        place: Place,
    ) -> Callee<'p>
        ensures { callee_tree result ≡ callees.data_block_runs (scope_of self.now) (how_tree how)
            (block_of fb.now) first (Db (Some type_name.now)) place }
    {
        match self.find_type(&type_name.0) {
            Some(entry) => {
                if entry.block.name.key() == fb.block.name.key() {
                    instance_runs(how, fb, first)
                } else {
                    Callee::NotCallable(place)
                }
            }
            None => Callee::Unknown,
        }
    }

    /// What a function block comes to with this block behind it.
    fn data_block_runs(
        &self,
        how: How,
        fb: &'p Entry<'p>,
        first: Place,
        second: &'p Entry<'p>,
        place: Place,
    ) -> Callee<'p>
        ensures { callee_tree result ≡ callees.data_block_runs (scope_of self.now) (how_tree how)
            (block_of fb.now) first (block_of second.now).kind place }
    {
        match &second.block.kind {
            BlockKind::Db { of: Some(named) } => self.named_runs(how, fb, first, named, place),
            BlockKind::Db { of: None } => Callee::NotCallable(place),
            BlockKind::Fb => Callee::NotCallable(place),
            BlockKind::Fc => Callee::NotCallable(place),
            BlockKind::Ob => Callee::NotCallable(place),
            BlockKind::Udt => Callee::NotCallable(place),
        }
    }

    /// What a function block comes to with this second name.
    fn second_name_runs(
        &self,
        how: How,
        fb: &'p Entry<'p>,
        first: Place,
        called: Called<'p>,
        place: Place,
    ) -> Callee<'p>
        ensures { callee_tree result ≡ callees.second_name_runs (scope_of self.now) (how_tree how)
            (block_of fb.now) first (called_tree called.entry) place }
    {
        match called {
            Called::Variable(_) => Callee::NotCallable(place),
            Called::Block(entry) => self.data_block_runs(how, fb, first, entry, place),
            Called::NoCallee => Callee::NotDeclared(place),
            Called::Undeclared => Callee::NotDeclared(place),
        }
    }

    /// What a call by two names comes to.
    fn first_name_runs(
        &self,
        how: How,
        called: Called<'p>,
        place: Place,
        second: Called<'p>,
        second_place: Place,
    ) -> Callee<'p>
        ensures { callee_tree result ≡ callees.first_name_runs (scope_of self.now) (how_tree how)
            (called_tree called.entry) place (called_tree second.entry) second_place }
    {
        match called {
            Called::Variable(_) => Callee::NotCallable(place),
            Called::Block(fb) => {
                if is_fb(&fb.block.kind) {
                    self.second_name_runs(how, fb, place, second, second_place)
                } else {
                    Callee::NotCallable(place)
                }
            }
            Called::NoCallee => Callee::NotCallable(place),
            Called::Undeclared => Callee::NotDeclared(place),
        }
    }

    /// What a call comes to.
    pub fn callee_of(&self, how: How, call: &CallTree) -> Callee<'p>
        ensures { callee_tree result ≡ callees.callee_of (scope_of self.now)
            (site (how_tree how) (call_tree call.now)) }
    {
        let called = self.called_name(&call.name, call.hash);
        match &call.base {
            None => self.one_name_runs(how, called, call.name_place),
            Some((name, place)) => {
                let second = self.called_name(name, false);
                self.first_name_runs(how, called, call.name_place, second, *place)
            }
        }
    }
}
