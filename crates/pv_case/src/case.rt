//! What a case says.
use pv_lex::Language;
use pv_tree::Operand;
use pv_types::Name;
use pv_word::Ty;

/// A case: what is to be checked, how, and within which limits.
#[derive(Drop)]
pub struct Case {
    /// 1 to 64 letters, digits, `_` or `-`.
    pub name: String,
    /// 1 to 64 sources, in the order in which the case names them.
    pub sources: Vec<Source>,
    /// The text that names the entry block.
    pub entry: String,
    /// The paths of the inputs that are parameters.
    pub params: Vec<String>,
    /// The paths of the inputs that have one value each, in the order of their bytes.
    pub bind: Vec<Bound>,
    /// In the order of their names' bytes.
    pub symbols: Vec<Symbol>,
    pub pattern: PatternText,
    pub limits: Limits,
    pub reductions: Reductions,
    /// The certificate's file name, not empty, where the case has one.
    pub certificate: Option<String>,
}

/// A source: its file's name, not empty, and its language.
#[derive(Drop)]
pub struct Source {
    pub file: String,
    pub language: Language,
}

/// An input's path with its one value; TRUE is 1 and FALSE is 0.
#[derive(Drop)]
pub struct Bound {
    pub path: String,
    pub value: i128,
}

/// A name for an address, with the type that the address is read as: BOOL for a bit, BYTE for a byte, WORD or INT for a word,
/// and DWORD, DINT or TIME for a double word. The operand's place is that of its token in the symbol's own text, as file 0.
#[derive(Drop)]
pub struct Symbol {
    pub name: Name,
    pub at: Operand,
    pub ty: Ty,
}

/// The requirement: its kind, and as many texts of expressions as the kind has.
#[derive(Drop)]
pub struct PatternText {
    pub kind: PatternKind,
    pub expressions: Vec<String>,
}

/// What a requirement says of a scan, with its expressions a, b and c.
#[derive(Clone, Copy, PartialEq, Eq, Debug)]
pub enum PatternKind {
    /// a holds at the end.
    Invariant,
    /// a doesn't hold at the end.
    Forbidden,
    /// Where a holds at the end, so does b.
    Implication,
    /// Where a holds at the beginning, b holds at the end.
    Within,
    /// Where a held at the end of the scan before and b holds at the end, so does c.
    Between,
    /// a holds at the end of some scan: what is to be reached.
    Reach,
}

/// The four limits of a case.
#[derive(Clone, Copy, Debug, PartialEq, Eq)]
pub struct Limits {
    /// How often a loop may turn in one scan, 1 to 256.
    pub loop_bound: u32,
    /// The deepest query, 0 to 64.
    pub depth: u32,
    /// How many lemmas a query may learn, 1 to 10,000,000.
    pub lemmas: u32,
    /// The words of the solver's region, 16 to 250,000,000.
    pub region_words: u64,
}

/// Which reductions a check may use; all where the case doesn't say.
#[derive(Clone, Copy, Debug, PartialEq, Eq)]
pub struct Reductions {
    pub constants: bool,
    pub abstraction: bool,
    pub cone: bool,
}

/// The longest text value of a case, in bytes.
pub const MAX_TEXT: usize = 4_194_304;

/// The longest name of a case, in bytes.
pub const MAX_NAME: usize = 64;

/// The most sources of a case.
pub const MAX_SOURCES: usize = 64;

/// The most turns that a case lets a loop take.
pub const MAX_LOOP_BOUND: u32 = 256;

/// The deepest query that a case may ask.
pub const MAX_DEPTH: u32 = 64;

/// The most lemmas that a case lets a query learn.
pub const MAX_LEMMAS: u32 = 10_000_000;

/// The fewest words that a case may give the solver's region, and the most.
pub const MIN_REGION_WORDS: u64 = 16;

pub const MAX_REGION_WORDS: u64 = 250_000_000;
