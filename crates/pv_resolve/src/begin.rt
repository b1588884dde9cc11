//! Where the names of a block begin.
ghost use Rattle.std.specs.Prelude.{◌≡◌, ◌+◌, ◌<◌, ◌≤◌, ℕ, false, true, nat_eq, length, FitsSigned, IfOk, IfErr, IfSome, IsOk, option_map};
ghost use Rattle.std.specs.Int.{w64};
ghost use Rattle.std.specs.List.{position_or_len};
ghost use Rattle.pv_types.specs.View as view;
ghost use Rattle.pv_types.specs.Leaves.{start_value};
ghost use Rattle.pv_tree.specs.View.{block_tree};
ghost use Rattle.pv_tree.specs.Scopes as scopes;
ghost use Rattle.pv_tree.specs.Things as things;
ghost use Rattle.pv_names.specs.Entries.{block_of};
ghost use Rattle.pv_names.specs.Views.{held_tree};
ghost use Rattle.pv_mean.specs.Sources.{Source, byte_number, data_block_first};
ghost use Rattle.pv_mean.specs.AreaBytes.{place_of_byte};
ghost use Rattle.pv_mean.specs.Spots as spots;
ghost use Rattle.pv_mean.specs.Activations as act;
ghost use Rattle.pv_mean.specs.Layout as layout;
ghost use Rattle.pv_mean.specs.LaidOut.{test_of};
ghost use Rattle.pv_mean.specs.LaidOut as counted;
ghost use Rattle.pv_mean.specs.Sized.{sized_project};
ghost use Rattle.pv_eval.specs.Operands.{spot_of, IsSpot};
ghost use Rattle.pv_eval.specs.Means.{activation};
ghost use Rattle.pv_mean.specs.declared.count.TheConstants.{BEYOND};
ghost use Rattle.pv_resolve.specs.declared.fault.ResolveFault.TheVariants.{TooLarge};
ghost use Rattle.pv_resolve.specs.Laying.{laid_tree};
ghost use Rattle.pv_resolve.specs.Rooms.{IsShort, FitsRoot, HasRoom};
ghost use Rattle.pv_bytes.specs.Lent.{bytes_tree};
ghost use Rattle.pv_resolve.specs.Contexts.{IsContext, block_in, address_spot_at, area_spot};
ghost use Rattle.pv_resolve.specs.Begins.{begin_at, begins_found, cells_begin, undeclared_begins, HasSpot, type_held};

use crate::context::Context;
use crate::fault::ResolveFault;
use crate::laid::{LaidLevel, exact};
use pv_bytes::AreaBytes;
use pv_eval::Spot;
use pv_mean::{BEYOND, Laid, Part, activation_part};
use pv_names::{Entry, Held, is_const, own_value, quoted_value, type_of_bits};
use pv_tree::{Area, Block, BlockKind, Root};
use pv_types::{Name, Section, Var, Vars};
use pv_word::Ty;

/// Where a name begins, with the steps behind it so far.
#[derive(Clone, Copy)]
pub enum Begin<'p> {
    In(Where, LaidLevel<'p>),
    At(Spot),
}

/// Among which cells something is laid out.
#[derive(Clone, Copy)]
pub enum Where {
    /// The visible ones from the first one of the instance on.
    Own,
    Visible,
    Brief,
}

/// The value of constants that are declared at once.
pub fn start_of(of: &Vars) -> Result<i64, ResolveFault>
    ensures value { IfOk result (λ v. v ≡ start_value of.now.start) }
    ensures fits { FitsSigned w64 (start_value of.now.start) → IsOk result }
{
    let Some(literal) = of.start else {
        return Ok(0);
    };
    number_of(&literal.value)
}

/// The number, where 64 bits hold it.
pub fn number_of(n: &i128) -> Result<i64, ResolveFault>
    ensures value { IfOk result (λ v. v ≡ n.now) }
    ensures fits { FitsSigned w64 n.now → IsOk result }
    ensures too_large { IfErr result (λ e. (e ≡ TooLarge) × (FitsSigned w64 n.now → ⊥)) }
{
    match i64::try_from(*n) {
        Ok(v) => Ok(v),
        Err(_) => Err(ResolveFault::TooLarge),
    }
}

/// Where a byte stands among those of its area.
fn place_in(bytes: &[u64], n: u64) -> usize
    ensures place { result ≡ position_or_len (nat_eq n) bytes.now }
    ensures within { result ≤ length bytes.now }
{
    let mut place = 0;
    for byte in bytes {
        if n == *byte {
            return place;
        }
        place += 1;
    }
    place
}

/// Where a byte of an area stands among those of all areas.
fn place_of(bytes: AreaBytes, area: Area, n: u64) -> usize
    ensures place { result ≡ place_of_byte (bytes_tree bytes.entry) area n }
    ensures within { result ≤ length bytes.entry.inputs.now + length bytes.entry.outputs.now
        + length bytes.entry.flags.now }
{
    match area {
        Area::I => place_in(bytes.inputs, n),
        Area::Q => bytes.inputs.len() + place_in(bytes.outputs, n),
        Area::M => bytes.inputs.len() + bytes.outputs.len() + place_in(bytes.flags, n),
    }
}

/// What a data block holds.
fn held_by<'p>(block: &'p Block) -> Option<Held<'p>>
    ensures { option_map held_tree result ≡ type_held (block_tree block.now) }
{
    match &block.kind {
        BlockKind::Db {
            of: Some((name, place)),
        } => Some(Held::Named(name, *place)),
        BlockKind::Db { of: None } => Some(Held::Struct(block.interface.vars.as_slice())),
        BlockKind::Fb | BlockKind::Fc | BlockKind::Ob | BlockKind::Udt => None,
    }
}

/// What is read or written at an address, as a value of a type.
fn address_spot(ty: Ty, bits: u32, number: u32, n: u64) -> Result<Spot, ResolveFault>
    ensures value { IfOk result (λ s. spot_of s ≡ address_spot_at ty bits number n) }
    ensures spot { IfOk result IsSpot }
    ensures short { IsShort bits n → IsOk result }
{
    if bits <= 1 {
        if n >= 8 {
            return Err(ResolveFault::TooLarge);
        }
        return Ok(Spot::Bit(number, n as u32));
    }
    if bits / 8 > 4 {
        return Err(ResolveFault::TooLarge);
    }
    Ok(Spot::Bytes(ty, number, bits / 8))
}

/// What was found among a part of the cells, if anything.
pub(crate) fn begin_with<'p>(part: Where, found: Option<LaidLevel<'p>>) -> Begin<'p>
    ensures value { (first : ℕ) → begin_at result first
        ≡ begins_found part first (option_map laid_tree found.entry) }
    ensures spot { HasSpot result }
{
    match found {
        Some(laid) => Begin::In(part, laid),
        None => Begin::At(Spot::Nowhere),
    }
}

impl<'p> Context<'p> {
    /// The number of the cell of an area's byte.
    fn byte_number(&self, area: Area, byte: u64) -> Result<u32, ResolveFault>
        ensures value { (source : Source) → IsContext self.now source
            → IfOk result (λ n. n ≡ byte_number source area byte) }
        ensures room { (source : Source) → IsContext self.now source
            → HasRoom source (block_in self.now) → IsOk result }
    {
        let place = place_of(self.bytes, area, byte);
        let number = (self.bytes_first as usize).saturating_add(place);
        match u32::try_from(number) {
            Ok(n) => Ok(n),
            Err(_) => Err(ResolveFault::TooLarge),
        }
    }

    /// The variable of this name that lives within one activation.
    fn brief_found(&self, name: &Name) -> Option<Laid<'p>>
        ensures { (source : Source) → IsContext self.now source
            → option_map counted.laid_tree result ≡ option_map counted.capped_laid
            (layout.laid_among source.project (layout.is_brief_in (block_in self.now))
            (block_in self.now).vars name.now.key 0) }
    {
        let entry = self.scope.entry;
        let part = activation_part(&entry.block().kind);
        self.variable_in(self.number, entry, part, name)
    }

    /// The variable of this name of the instance.
    fn own_found(&self, name: &Name) -> Option<Laid<'p>>
        ensures { (source : Source) → IsContext self.now source
            → option_map counted.laid_tree result ≡ option_map counted.capped_laid
            (layout.laid_among source.project scopes.is_of_instance (block_in self.now).vars
            name.now.key 0) }
    {
        self.variable_in(self.number, self.scope.entry, Part::Instance, name)
    }

    /// A variable of this name that lives within one activation.
    fn brief(&self, name: &Name) -> Result<Begin<'p>, ResolveFault>
        ensures value { (source : Source) (first : ℕ) → IsContext self.now source
            → IfOk result (λ b. begin_at b first ≡ act.brief_where
            (layout.laid_among source.project (layout.is_brief_in (block_in self.now))
            (block_in self.now).vars name.now.key 0)) }
        ensures spot { IfOk result HasSpot }
        ensures near { (source : Source) → IsContext self.now source
            → IfSome (layout.laid_among source.project (layout.is_brief_in (block_in self.now))
            (block_in self.now).vars name.now.key 0) (λ l. l.first < BEYOND) → IsOk result }
    {
        let found = exact(self.brief_found(name))?;
        Ok(begin_with(Where::Brief, found))
    }

    /// A variable of this name of the instance.
    fn own(&self, name: &Name) -> Result<Begin<'p>, ResolveFault>
        ensures value { (source : Source) (first : ℕ) → IsContext self.now source
            → IfOk result (λ b. begin_at b first ≡ act.visible_where
            (layout.laid_among source.project scopes.is_of_instance
            (block_in self.now).vars name.now.key first)) }
        ensures spot { IfOk result HasSpot }
        ensures near { (source : Source) → IsContext self.now source
            → IfSome (layout.laid_among source.project scopes.is_of_instance
            (block_in self.now).vars name.now.key 0) (λ l. l.first < BEYOND) → IsOk result }
    {
        let found = exact(self.own_found(name))?;
        Ok(begin_with(Where::Own, found))
    }

    /// A variable of the block, which lives within one activation or is one of the instance.
    fn cells_of(&self, name: &Name, section: Section) -> Result<Begin<'p>, ResolveFault>
        ensures value { (source : Source) (first : ℕ) → IsContext self.now source
            → IfOk result (λ b. begin_at b first ≡ cells_begin source
            (activation (block_in self.now) first) name.now.key section) }
        ensures spot { IfOk result HasSpot }
        ensures room { (source : Source) → IsContext self.now source
            → HasRoom source (block_in self.now) → IsOk result }
    {
        let block = self.scope.entry.block();
        if activation_part(&block.kind).has(section) {
            self.brief(name)
        } else {
            self.own(name)
        }
    }

    /// A variable or a constant of the block.
    fn variable(&self, name: &Name, var: Var) -> Result<Begin<'p>, ResolveFault>
        ensures value { (source : Source) (first : ℕ) → IsContext self.now source
            → IfOk result (λ b. begin_at b first ≡ act.variable_begins source
            (activation (block_in self.now) first) name.now.key (view.var_tree var.entry)) }
        ensures spot { IfOk result HasSpot }
        ensures room { (source : Source) → IsContext self.now source
            → HasRoom source (block_in self.now) → FitsSigned w64 (start_value var.entry.of.now.start)
            → IsOk result }
    {
        if is_const(var.of.section) {
            let value = start_of(var.of)?;
            Ok(Begin::At(Spot::Fixed(value)))
        } else {
            self.cells_of(name, var.of.section)
        }
    }

    /// A data block that holds this.
    fn data_block(&self, block: &Block, ty: Held<'p>) -> Result<Begin<'p>, ResolveFault>
        ensures value { (source : Source) (first : ℕ) → IsContext self.now source
            → IfOk result (λ b. begin_at b first ≡ act.in_visible (record {
              ty = held_tree ty.entry;
              first = data_block_first source block.now.name.key;
            })) }
        ensures spot { IfOk result HasSpot }
        ensures room { (source : Source) → IsContext self.now source
            → HasRoom source (block_in self.now) → IsOk result }
    {
        let first = self.sizes.data_first(&block.name, self.data_first);
        if first >= BEYOND {
            return Err(ResolveFault::TooLarge);
        }
        Ok(Begin::In(Where::Visible, LaidLevel { ty, first }))
    }

    /// A block: a data block, as no other is a value or has fields.
    fn block(&self, entry: &'p Entry<'p>) -> Result<Begin<'p>, ResolveFault>
        ensures value { (source : Source) (first : ℕ) → IsContext self.now source
            → IfOk result (λ b. begin_at b first ≡ act.block_begins source (block_of entry.now)) }
        ensures spot { IfOk result HasSpot }
        ensures room { (source : Source) → IsContext self.now source
            → HasRoom source (block_in self.now) → IsOk result }
    {
        let block = entry.block();
        match held_by(block) {
            Some(ty) => self.data_block(block, ty),
            None => Ok(Begin::At(Spot::Nowhere)),
        }
    }

    /// A function's value.
    fn value(&self, ty: Ty) -> Result<Begin<'p>, ResolveFault>
        ensures value { (source : Source) (first : ℕ) → IsContext self.now source
            → IfOk result (λ b. begin_at b first
            ≡ act.at (spots.brief ty (act.value_number source (block_in self.now)))) }
        ensures spot { IfOk result HasSpot }
        ensures room { (source : Source) → IsContext self.now source
            → HasRoom source (block_in self.now) → IsOk result }
    {
        let block = self.scope.entry.block();
        let number = self.sizes.of_activation(block);
        if number >= BEYOND {
            return Err(ResolveFault::TooLarge);
        }
        Ok(Begin::At(Spot::Brief(ty, number as usize)))
    }

    /// The block of this name, if there is one.
    fn block_named(&self, name: &Name) -> Result<Begin<'p>, ResolveFault>
        ensures value { (source : Source) (first : ℕ) → IsContext self.now source
            → IfOk result (λ b. begin_at b first ≡ act.block_or source
            (scopes.first_block source.project.blocks name.now.key) (act.at spots.nowhere)) }
        ensures spot { IfOk result HasSpot }
        ensures room { (source : Source) → IsContext self.now source
            → HasRoom source (block_in self.now) → IsOk result }
    {
        match self.scope.tables.find_block(name) {
            Some(entry) => self.block(entry),
            None => Ok(Begin::At(Spot::Nowhere)),
        }
    }

    /// What a word names that isn't declared.
    fn undeclared(&self, name: &Name, hash: bool) -> Result<Begin<'p>, ResolveFault>
        ensures value { (source : Source) (first : ℕ) → IsContext self.now source
            → IfOk result (λ b. begin_at b first ≡ undeclared_begins source
            (activation (block_in self.now) first) name.now.key hash) }
        ensures spot { IfOk result HasSpot }
        ensures room { (source : Source) → IsContext self.now source
            → HasRoom source (block_in self.now) → IsOk result }
    {
        match own_value(self.scope.entry.block(), name, hash) {
            Some(ty) => self.value(ty),
            None => {
                if hash {
                    Ok(Begin::At(Spot::Nowhere))
                } else {
                    self.block_named(name)
                }
            }
        }
    }

    /// What a word names, without or behind `#`.
    pub fn word(&self, name: &Name, hash: bool) -> Result<Begin<'p>, ResolveFault>
        ensures value { (source : Source) (first : ℕ) → IsContext self.now source
            → IfOk result (λ b. begin_at b first ≡ act.word_begins source
            (activation (block_in self.now) first) name.now.key hash) }
        ensures spot { IfOk result HasSpot }
        ensures room { (source : Source) → IsContext self.now source
            → HasRoom source (block_in self.now) → IsOk result }
    {
        match self.scope.entry.find(name) {
            Some(var) => self.variable(name, var),
            None => self.undeclared(name, hash),
        }
    }

    /// An area operand, read as a value of a type.
    fn address(&self, ty: Ty, at: &Root) -> Result<Spot, ResolveFault>
        ensures value { (source : Source) → IsContext self.now source
            → IfOk result (λ s. spot_of s ≡ area_spot source ty at.now) }
        ensures spot { IfOk result IsSpot }
        ensures room { (source : Source) → IsContext self.now source
            → HasRoom source (block_in self.now) → FitsRoot at.now → IsOk result }
    {
        match at {
            Root::Area {
                area,
                bits,
                byte,
                bit,
            } => {
                let number = self.byte_number(*area, *byte)?;
                address_spot(ty, *bits, number, *bit)
            }
            Root::Local { .. } | Root::Named(_) => Ok(Spot::Nowhere),
        }
    }

    /// The symbol of this name, if there is one.
    fn symbol(&self, name: &Name) -> Result<Begin<'p>, ResolveFault>
        ensures value { (source : Source) (first : ℕ) → IsContext self.now source
            → IfOk result (λ b. begin_at b first ≡ act.symbol_or_none source
            (scopes.first_symbol source.project.symbols name.now.key)) }
        ensures spot { IfOk result HasSpot }
        ensures room { (source : Source) → IsContext self.now source
            → HasRoom source (block_in self.now) → IsOk result }
    {
        match self.scope.tables.find_symbol(name) {
            Some(symbol) => {
                let spot = self.address(symbol.2, &symbol.1.root)?;
                Ok(Begin::At(spot))
            }
            None => Ok(Begin::At(Spot::Nowhere)),
        }
    }

    /// What a quoted or numbered name names that isn't a function's value.
    fn block_or_symbol(&self, name: &Name) -> Result<Begin<'p>, ResolveFault>
        ensures value { (source : Source) (first : ℕ) → IsContext self.now source
            → IfOk result (λ b. begin_at b first ≡ act.block_or source
            (scopes.first_block source.project.blocks name.now.key) (act.symbol_or_none source
            (scopes.first_symbol source.project.symbols name.now.key))) }
        ensures spot { IfOk result HasSpot }
        ensures room { (source : Source) → IsContext self.now source
            → HasRoom source (block_in self.now) → IsOk result }
    {
        match self.scope.tables.find_block(name) {
            Some(entry) => self.block(entry),
            None => self.symbol(name),
        }
    }

    /// What a quoted or numbered name names.
    pub fn name(&self, name: &Name) -> Result<Begin<'p>, ResolveFault>
        ensures value { (source : Source) (first : ℕ) → IsContext self.now source
            → IfOk result (λ b. begin_at b first ≡ act.name_begins source
            (activation (block_in self.now) first) name.now.key) }
        ensures spot { IfOk result HasSpot }
        ensures room { (source : Source) → IsContext self.now source
            → HasRoom source (block_in self.now) → IsOk result }
    {
        match quoted_value(self.scope.entry.block(), name) {
            Some(ty) => self.value(ty),
            None => self.block_or_symbol(name),
        }
    }

    /// An area operand, read by its width.
    fn area(&self, root: &Root, bits: u32) -> Result<Begin<'p>, ResolveFault>
        ensures value { (source : Source) (first : ℕ) → IsContext self.now source
            → IfOk result (λ b. begin_at b first
            ≡ act.at (area_spot source (things.type_of_bits bits) root.now)) }
        ensures spot { IfOk result HasSpot }
        ensures room { (source : Source) → IsContext self.now source
            → HasRoom source (block_in self.now) → FitsRoot root.now → IsOk result }
    {
        let spot = self.address(type_of_bits(bits), root)?;
        Ok(Begin::At(spot))
    }

    /// What an operand begins with.
    pub fn root(&self, root: &Root) -> Result<Begin<'p>, ResolveFault>
        ensures value { (source : Source) (first : ℕ) → IsContext self.now source
            → IfOk result (λ b. begin_at b first ≡ act.root_begins source
            (activation (block_in self.now) first) root.now) }
        ensures spot { IfOk result HasSpot }
        ensures room { (source : Source) → IsContext self.now source
            → HasRoom source (block_in self.now) → FitsRoot root.now → IsOk result }
    {
        match root {
            Root::Local { name, hash, .. } => self.word(name, *hash),
            Root::Named(name) => self.name(name),
            Root::Area { bits, .. } => self.area(root, *bits),
        }
    }
}
