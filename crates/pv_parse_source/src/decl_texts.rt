//! What single tokens of declarations say, once the grammar let them stand where they do.
ghost use Rattle.std.specs.Prelude.{◌≡◌};
ghost use Rattle.pv_tree.specs.Literals.{type_of_value, type_alone};
ghost use Rattle.pv_parse.specs.DeclTexts.{type_of_word, section_of_word};

use pv_parse::is_text;
use pv_types::Section;
use pv_word::Ty;

/// The simple type of a word.
#[tactic(auto, unfolding(pv_parse::specs::DeclTexts::type_of_word))]
pub fn type_of_word(bytes: &[u8]) -> Ty
    ensures { result ≡ type_of_word bytes.now }
{
    if is_text(bytes, b"BOOL") {
        Ty::Bool
    } else if is_text(bytes, b"BYTE") {
        Ty::Byte
    } else if is_text(bytes, b"WORD") {
        Ty::Word
    } else if is_text(bytes, b"DWORD") {
        Ty::Dword
    } else if is_text(bytes, b"INT") {
        Ty::Int
    } else if is_text(bytes, b"DINT") {
        Ty::Dint
    } else {
        Ty::Time
    }
}

/// The section that a word opens.
#[tactic(auto, unfolding(pv_parse::specs::DeclTexts::section_of_word))]
pub fn section_of_word(bytes: &[u8]) -> Section
    ensures { result ≡ section_of_word bytes.now }
{
    if is_text(bytes, b"VAR_INPUT") {
        Section::Input
    } else if is_text(bytes, b"VAR_OUTPUT") {
        Section::Output
    } else if is_text(bytes, b"VAR_IN_OUT") {
        Section::InOut
    } else if is_text(bytes, b"VAR") {
        Section::Static
    } else {
        Section::Temp
    }
}

/// The type that a number without one has alone: INT where that holds it, else DINT.
fn type_of_value(value: i128) -> Ty
    ensures { result ≡ type_of_value value }
{
    if -32768 <= value && value <= 32767 {
        Ty::Int
    } else {
        Ty::Dint
    }
}

/// The type that a literal has alone.
pub fn type_alone(own: Option<Ty>, value: i128) -> Ty
    ensures { result ≡ type_alone own value }
{
    match own {
        Some(ty) => ty,
        None => type_of_value(value),
    }
}
