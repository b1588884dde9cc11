//! Where variables, fields and elements are laid out.
ghost use Rattle.std.specs.Prelude.{◌≡◌, ◌*◌, ◌++◌, ◌-ℤ◌, ◌&&◌, int_le, unsigned_abs, List, length, option_map, Bool, true};
ghost use Rattle.pv_types.specs.Tree.{VarTree};
ghost use Rattle.pv_types.specs.View.{type_tree, vars_tree, var_trees};
ghost use Rattle.pv_mean.specs.Layout as layout;
ghost use Rattle.pv_mean.specs.Sized.{sized_project};
ghost use Rattle.pv_tree.specs.Tree.{BlockTree};
ghost use Rattle.pv_tree.specs.View.{block_tree};
ghost use Rattle.pv_types.specs.declared.declaration.Section.{Section};
ghost use Rattle.pv_mean.specs.Counts.{capped};
ghost use Rattle.pv_mean.specs.LaidOut.{laid_tree, capped_laid, laid_counted, test_of, goes_on, size_where};

use crate::count::{BEYOND, count_of, product, sum};
use crate::sizes::Sizes;
use pv_tree::{Block, BlockKind};
use pv_types::{DeclType, MAX_LEAVES, Name, Section, Vars, is_named};

/// A type, and the number of the first of its cells.
#[derive(Clone, Copy)]
pub struct Laid<'p> {
    pub ty: &'p DeclType,
    pub first: u32,
}

/// Which of the variables that are declared together have cells there.
#[derive(Clone, Copy, PartialEq, Eq, Debug)]
pub enum Part {
    /// All: those of a structure.
    Fields,
    /// All but the temporary ones and constants: those of an instance.
    Instance,
    /// The temporary ones: those of a function block's activation.
    Temporary,
    /// All but constants: those of a function's or an OB's activation.
    Activation,
}

impl Part {
    /// Whether variables of the section are among them.
    pub fn has(self, section: Section) -> bool
        ensures { result ≡ test_of self section }
    {
        match self {
            Part::Fields => true,
            Part::Instance => match section {
                Section::Input | Section::Output | Section::InOut | Section::Static => true,
                Section::Temp | Section::Const => false,
            },
            Part::Temporary => match section {
                Section::Temp => true,
                Section::Input
                | Section::Output
                | Section::InOut
                | Section::Static
                | Section::Const => false,
            },
            Part::Activation => match section {
                Section::Const => false,
                Section::Input
                | Section::Output
                | Section::InOut
                | Section::Static
                | Section::Temp => true,
            },
        }
    }
}

/// How far two numbers are apart, as a number of cells.
fn distance(from: &i128, to: &i128) -> u32
    ensures { result ≡ capped (unsigned_abs (to.now -ℤ from.now)) }
{
    let span = to.abs_diff(*from);
    if span > MAX_LEAVES as u128 {
        return BEYOND;
    }
    span as u32
}

/// Whether a number lies between bounds.
fn lies_between(low: &i128, index: &i128, high: &i128) -> bool
    ensures { result ≡ int_le low.now index.now && int_le index.now high.now }
{
    *low <= *index && *index <= *high
}

/// What a look at a variable finds: it, or the number of the next one's first cell.
#[derive(Clone, Copy)]
enum Seen<'p> {
    Found(Laid<'p>),
    Behind(u32),
}

/// The part of an activation's cells that are a block's variables.
pub fn activation_part(kind: &BlockKind) -> Part
    ensures { (block : BlockTree) (section : Section) → block.kind ≡ kind.now
        → test_of result section ≡ layout.is_brief_in block section }
{
    match kind {
        BlockKind::Fb => Part::Temporary,
        BlockKind::Fc | BlockKind::Ob | BlockKind::Db { .. } | BlockKind::Udt => Part::Activation,
    }
}

impl<'p> Sizes<'p> {
    /// Looks at variables that are declared at once, of which the first begins at this cell.
    fn look_at_each(&self, of: &'p Vars, name: &Name, at: u32) -> Seen<'p>
        ensures { (test : Section → Bool) (rest : List VarTree) → test of.now.section ≡ true
            → goes_on result (laid_counted (sized_project self.now) test rest name.now.key)
            ≡ laid_counted (sized_project self.now) test (vars_tree of.now ++ rest) name.now.key at }
    {
        let size = self.of_type(&of.ty);
        let mut at = at;
        for word in &of.names {
            if is_named(word, name) {
                return Seen::Found(Laid {
                    ty: &of.ty,
                    first: at,
                });
            }
            at = sum(at, size);
        }
        Seen::Behind(at)
    }

    /// Looks at variables that are declared at once, of which the first begins at this cell if they
    /// have any there.
    fn look(&self, of: &'p Vars, part: Part, name: &Name, at: u32) -> Seen<'p>
        ensures { (rest : List VarTree)
            → goes_on result (laid_counted (sized_project self.now) (test_of part) rest name.now.key)
            ≡ laid_counted (sized_project self.now) (test_of part) (vars_tree of.now ++ rest)
            name.now.key at }
    {
        if !part.has(of.section) {
            return Seen::Behind(at);
        }
        self.look_at_each(of, name, at)
    }

    /// The variable of this name among a part of these, of which the first begins at this cell.
    pub fn variable(
        &self,
        vars: &'p [Vars],
        part: Part,
        name: &Name,
        first: u32,
    ) -> Option<Laid<'p>>
        ensures { option_map laid_tree result
            ≡ option_map capped_laid (layout.laid_among (sized_project self.now) (test_of part)
            (var_trees vars.now) name.now.key first) }
    {
        let mut at = first.min(BEYOND);
        for of in vars {
            match self.look(of, part, name, at) {
                Seen::Found(laid) => return Some(laid),
                Seen::Behind(next) => at = next,
            }
        }
        None
    }

    /// How many cells variables that are declared at once have in a part.
    fn of_declared(&self, of: &Vars, part: Part) -> u32
        ensures { result ≡ capped (length (vars_tree of.now) * size_where (test_of part of.now.section)
            (layout.size_in (sized_project self.now) (type_tree of.now.ty))) }
    {
        if part.has(of.section) {
            product(count_of(of), self.of_type(&of.ty))
        } else {
            0
        }
    }

    /// How many cells a part of these variables has.
    pub fn of_variables(&self, vars: &[Vars], part: Part) -> u32
        ensures { result ≡ capped (layout.size_among (sized_project self.now) (test_of part)
            (var_trees vars.now)) }
    {
        let mut total = 0;
        for of in vars {
            total = sum(total, self.of_declared(of, part));
        }
        total
    }

    /// How many cells the variables of a block have in its activation; a function's value lies behind them.
    pub fn of_activation(&self, block: &Block) -> u32
        ensures { result ≡ capped (layout.size_among (sized_project self.now)
            (layout.is_brief_in (block_tree block.now)) (block_tree block.now).vars) }
    {
        let part = activation_part(&block.kind);
        self.of_variables(block.interface.vars.as_slice(), part)
    }

    /// The field of this name.
    pub fn field(&self, laid: &Laid<'p>, name: &Name) -> Option<Laid<'p>>
        ensures { option_map laid_tree result
            ≡ option_map capped_laid (layout.field_laid (sized_project self.now)
            (laid_tree laid.now) name.now.key) }
    {
        match laid.ty {
            DeclType::Struct(vars) => {
                self.variable(vars.as_slice(), Part::Fields, name, laid.first)
            }
            DeclType::Named(type_name, _) => match self.find_type(type_name) {
                Some(block) => {
                    let vars = block.interface.vars.as_slice();
                    self.variable(vars, Part::Instance, name, laid.first)
                }
                None => None,
            },
            DeclType::Plain(_) | DeclType::Array { .. } | DeclType::Unread => None,
        }
    }

    /// The element at an index, where it lies within the bounds.
    pub fn element(&self, laid: &Laid<'p>, index: &i128) -> Option<Laid<'p>>
        ensures { option_map laid_tree result
            ≡ option_map capped_laid (layout.element_laid (sized_project self.now)
            (laid_tree laid.now) index.now) }
    {
        let DeclType::Array { low, high, of, .. } = laid.ty else {
            return None;
        };
        if !lies_between(low, index, high) {
            return None;
        }
        let behind = product(distance(low, index), self.of_type(of));
        Some(Laid {
            ty: of,
            first: sum(laid.first, behind),
        })
    }
}
