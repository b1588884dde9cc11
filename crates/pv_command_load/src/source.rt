//! A source: its blocks, or why it has none.
ghost use Rattle.std.specs.Prelude.{◌≡◌, ◌++◌, ◌≤◌, ℕ, length, take, drop, codes, Some, IfOk, IfErr, string_bytes};
ghost use Rattle.pv_place.specs.declared.place.Place.{Place as A_place};
ghost use Rattle.pv_lex.specs.declared.lex.TheConstants.{MAX_SOURCE};
ghost use Rattle.pv_lex.specs.declared.token.Language.TheVariants.{Scl, Stl};
ghost use Rattle.pv_lex.specs.Tokens.{AreTokens};
ghost use Rattle.pv_parse.specs.declared.fault.ParseFault.TheVariants.{Outside as Is_outside};
ghost use Rattle.pv_tree.specs.View.{block_trees};
ghost use Rattle.pv_command_load.specs.Words.{lex_word};
ghost use Rattle.pv_command_load.specs.Refusals.{place_line, limit_line, source_line};
ghost use Rattle.pv_command_load.specs.Sources.{ReadsAs};
ghost use Rattle.pv_command_load.specs.Stopped.{stopped_text};
ghost use Rattle.pv_command_load.specs.Stops.{text_tree, at_text, source_stopped, source_status, StopsAtSource};
ghost use Rattle.pv_command_load.specs.Passing.{source_named, IsWordAt, lex_stopped, parse_stopped};
ghost use Rattle.pv_command_load.specs.declared.source.SourceStop.TheVariants.{NoMemory};

use crate::position::{SourcePosition, SourceText};
use crate::reading::{ReadStop, read_line};
use crate::status::{NO_MEMORY, READ_FAULT, SOURCE_REFUSED, Status};
use pv_lex::{FaultKind, Language, LexFault, MAX_SOURCE, Token, tokens};
use pv_parse::ParseFault;
use pv_place::Place;
use pv_tree::Blocks;
use std::alloc::{AllocError, Global};
use thiserror::Error;

/// Why a command stops at a source.
#[derive(Debug, Drop, Error)]
pub enum SourceStop {
    /// Its file can't be read.
    #[error("{file} can't be read")]
    Unread { file: String },
    /// It has more than [`pv_lex::MAX_SOURCE`] bytes.
    #[error("the source is too long")]
    TooLarge,
    /// No token begins there.
    #[error("no token begins there")]
    Lex { kind: FaultKind, at: SourcePosition },
    /// A word stands there that is outside the profile, spelled so.
    #[error("{word} is outside the profile")]
    Outside { word: String, at: SourcePosition },
    /// The grammar doesn't allow what stands there.
    #[error("the grammar doesn't allow this")]
    Syntax { at: SourcePosition },
    /// What begins there is nested too deep.
    #[error("the source nests too deep")]
    Deep { at: SourcePosition },
    #[error("out of memory")]
    NoMemory,
}

impl From<AllocError> for SourceStop {
    ghost from_gives = { λ _ stop. stop ≡ NoMemory };

    fn from(_error: AllocError) -> SourceStop {
        SourceStop::NoMemory
    }
}

impl From<ReadStop> for SourceStop {
    ghost use Rattle.std.specs.Prelude.{◌≡◌};
    ghost use Rattle.pv_command_load.specs.Passing.{unread_source};

    ghost from_gives = { λ stop passed. passed ≡ unread_source stop };

    fn from(stop: ReadStop) -> SourceStop {
        match stop {
            ReadStop::Unread { file } => SourceStop::Unread { file },
            ReadStop::NoMemory => SourceStop::NoMemory,
        }
    }
}

/// The name of what stands where no token begins.
fn name_of(kind: FaultKind) -> &'static str
    ensures { result.now ≡ lex_word kind }
{
    match kind {
        FaultKind::BadByte => "BadByte",
        FaultKind::OpenComment => "OpenComment",
        FaultKind::OpenQuote => "OpenQuote",
        FaultKind::NumberTooWide => "NumberTooWide",
    }
}

/// The fault line of a place in a source.
pub(crate) fn place_line(
    alloc: Global,
    at: &SourcePosition,
    what: &str,
) -> Result<String, AllocError>
    ensures { IfOk result (λ text. string_bytes text ≡ place_line (at_text at.now) what.now) }
{
    let at = at.text(alloc)?;
    format!(in alloc; "plcv: {at}: {what}\n")
}

fn lex_line(alloc: Global, at: &SourcePosition, kind: FaultKind) -> Result<String, AllocError>
    ensures { IfOk result (λ text. string_bytes text ≡ place_line (at_text at.now) (codes "Lex " ++ lex_word kind)) }
{
    let at = at.text(alloc)?;
    let kind = name_of(kind);
    format!(in alloc; "plcv: {at}: Lex {kind}\n")
}

fn outside_line(alloc: Global, at: &SourcePosition, word: &String) -> Result<String, AllocError>
    ensures { IfOk result (λ text. string_bytes text ≡ place_line (at_text at.now) (codes "Outside " ++ string_bytes word.now)) }
{
    let at = at.text(alloc)?;
    format!(in alloc; "plcv: {at}: Outside {word}\n")
}

/// The fault line of a count that passes its limit.
pub(crate) fn limit_line(alloc: Global, what: &str, limit: usize) -> Result<String, AllocError>
    ensures { IfOk result (λ text. string_bytes text ≡ limit_line what.now limit) }
{
    format!(in alloc; "plcv: TooLarge {what} {limit}\n")
}

impl SourceStop {
    pub fn status(&self) -> Status
        ensures { result ≡ source_status self.now }
    {
        match self {
            SourceStop::Unread { .. } => READ_FAULT,
            SourceStop::TooLarge => SOURCE_REFUSED,
            SourceStop::Lex { .. } => SOURCE_REFUSED,
            SourceStop::Outside { .. } => SOURCE_REFUSED,
            SourceStop::Syntax { .. } => SOURCE_REFUSED,
            SourceStop::Deep { .. } => SOURCE_REFUSED,
            SourceStop::NoMemory => NO_MEMORY,
        }
    }

    /// The fault line; an error where memory ends, or ended before.
    pub fn text(&self, alloc: Global) -> Result<String, AllocError>
        ensures { IfOk result (λ text. stopped_text source_line (source_stopped self.now) ≡ Some (string_bytes text)) }
    {
        match self {
            SourceStop::Unread { file } => read_line(alloc, file),
            SourceStop::TooLarge => limit_line(alloc, "bytes", MAX_SOURCE),
            SourceStop::Lex { kind, at } => lex_line(alloc, at, *kind),
            SourceStop::Outside { word, at } => outside_line(alloc, at, word),
            SourceStop::Syntax { at } => place_line(alloc, at, "Syntax"),
            SourceStop::Deep { at } => place_line(alloc, at, "Deep"),
            SourceStop::NoMemory => Err(AllocError),
        }
    }
}

/// The bytes of a word of the source, as text.
fn word_at(alloc: Global, source: &SourceText, place: Place, len: u32) -> Result<String, AllocError>
    requires { IsWordAt source.now.bytes.items place len }
    ensures { IfOk result (λ word. string_bytes word ≡ take len (drop place.offset source.now.bytes.items)) }
{
    let (_before, from) = source.bytes.as_slice().split_at(place.offset as usize);
    let (word, _behind) = from.split_at(len as usize);
    match str::from_utf8(word) {
        Ok(word) => String::from_str(alloc, word),
        Err(_) => unreachable!(),
    }
}

/// The stop of a source without tokens.
fn of_lex(alloc: Global, source: &SourceText, fault: LexFault) -> Result<SourceStop, AllocError>
    ensures { IfOk result (λ stop. source_stopped stop ≡ lex_stopped (text_tree source.now) fault) }
{
    match fault {
        LexFault::NoToken { kind, place } => {
            let at = source.position(alloc, place.offset)?;
            Ok(SourceStop::Lex { kind, at })
        }
        LexFault::NoMemory => Ok(SourceStop::NoMemory),
    }
}

fn outside(
    alloc: Global,
    source: &SourceText,
    place: Place,
    len: u32,
) -> Result<SourceStop, AllocError>
    requires { IsWordAt source.now.bytes.items place len }
    ensures { IfOk result (λ stop. source_stopped stop ≡ parse_stopped (text_tree source.now) (Is_outside place len)) }
{
    let word = word_at(alloc, source, place, len)?;
    let at = source.position(alloc, place.offset)?;
    Ok(SourceStop::Outside { word, at })
}

/// The stop of a source that doesn't read.
fn of_parse(alloc: Global, source: &SourceText, fault: ParseFault) -> Result<SourceStop, AllocError>
    requires { (place : A_place) (len : ℕ) → fault ≡ Is_outside place len → IsWordAt source.now.bytes.items place len }
    ensures { IfOk result (λ stop. source_stopped stop ≡ parse_stopped (text_tree source.now) fault) }
{
    match fault {
        ParseFault::Outside { place, len } => outside(alloc, source, place, len),
        ParseFault::Syntax { place } => {
            let at = source.position(alloc, place.offset)?;
            Ok(SourceStop::Syntax { at })
        }
        ParseFault::Deep { place } => {
            let at = source.position(alloc, place.offset)?;
            Ok(SourceStop::Deep { at })
        }
        ParseFault::NoMemory => Ok(SourceStop::NoMemory),
    }
}

/// The tokens of a source.
fn tokens_of(
    alloc: Global,
    number: u32,
    language: Language,
    source: &SourceText,
) -> Result<Vec<Token>, SourceStop>
    requires { length source.now.bytes.items ≤ MAX_SOURCE }
    ensures cut { IfOk result (λ tokens. AreTokens language number source.now.bytes.items tokens.items) }
    ensures stopped { IfErr result (StopsAtSource number (source_named source.now language) source.now.bytes.items) }
{
    match tokens(alloc, number, language, source.bytes.as_slice()) {
        Ok(tokens) => Ok(tokens),
        Err(fault) => Err(of_lex(alloc, source, fault)?),
    }
}

/// The blocks that the tokens of a source of SCL are.
fn scl_parsed(
    alloc: Global,
    number: u32,
    source: &SourceText,
    tokens: &[Token],
) -> Result<Blocks, SourceStop>
    requires short { length source.now.bytes.items ≤ MAX_SOURCE }
    requires cut { AreTokens Scl number source.now.bytes.items tokens.now }
    ensures read { IfOk result (λ blocks. ReadsAs number (source_named source.now Scl) source.now.bytes.items
        (block_trees blocks.list.items)) }
    ensures stopped { IfErr result (StopsAtSource number (source_named source.now Scl) source.now.bytes.items) }
{
    match pv_scl_parse::parse(alloc, source.bytes.as_slice(), tokens) {
        Ok(blocks) => Ok(blocks),
        Err(fault) => Err(of_parse(alloc, source, fault)?),
    }
}

/// The blocks that the tokens of a source of STL are.
fn stl_parsed(
    alloc: Global,
    number: u32,
    source: &SourceText,
    tokens: &[Token],
) -> Result<Blocks, SourceStop>
    requires short { length source.now.bytes.items ≤ MAX_SOURCE }
    requires cut { AreTokens Stl number source.now.bytes.items tokens.now }
    ensures read { IfOk result (λ blocks. ReadsAs number (source_named source.now Stl) source.now.bytes.items
        (block_trees blocks.list.items)) }
    ensures stopped { IfErr result (StopsAtSource number (source_named source.now Stl) source.now.bytes.items) }
{
    match pv_stl_parse::parse(alloc, source.bytes.as_slice(), tokens) {
        Ok(blocks) => Ok(blocks),
        Err(fault) => Err(of_parse(alloc, source, fault)?),
    }
}

/// The blocks of a source of SCL.
fn scl_blocks(alloc: Global, number: u32, source: &SourceText) -> Result<Blocks, SourceStop>
    requires { length source.now.bytes.items ≤ MAX_SOURCE }
    ensures read { IfOk result (λ blocks. ReadsAs number (source_named source.now Scl) source.now.bytes.items
        (block_trees blocks.list.items)) }
    ensures stopped { IfErr result (StopsAtSource number (source_named source.now Scl) source.now.bytes.items) }
{
    let tokens = tokens_of(alloc, number, Language::Scl, source)?;
    scl_parsed(alloc, number, source, tokens.as_slice())
}

/// The blocks of a source of STL.
fn stl_blocks(alloc: Global, number: u32, source: &SourceText) -> Result<Blocks, SourceStop>
    requires { length source.now.bytes.items ≤ MAX_SOURCE }
    ensures read { IfOk result (λ blocks. ReadsAs number (source_named source.now Stl) source.now.bytes.items
        (block_trees blocks.list.items)) }
    ensures stopped { IfErr result (StopsAtSource number (source_named source.now Stl) source.now.bytes.items) }
{
    let tokens = tokens_of(alloc, number, Language::Stl, source)?;
    stl_parsed(alloc, number, source, tokens.as_slice())
}

/// The blocks of the source of this number: its length is asked first, then its tokens, its words outside the profile, its grammar, and how
/// deep it nests.
pub fn blocks_of(
    alloc: Global,
    number: u32,
    language: Language,
    source: &SourceText,
) -> Result<Blocks, SourceStop>
    ensures read { IfOk result (λ blocks. ReadsAs number (source_named source.now language) source.now.bytes.items
        (block_trees blocks.list.items)) }
    ensures stopped { IfErr result (StopsAtSource number (source_named source.now language) source.now.bytes.items) }
{
    if source.bytes.len() > MAX_SOURCE {
        return Err(SourceStop::TooLarge);
    }
    match language {
        Language::Scl => scl_blocks(alloc, number, source),
        Language::Stl => stl_blocks(alloc, number, source),
    }
}
