//! What a case's text says, member by member.
use crate::trees::{View, tell_operand, tell_place, ty_word};
use pv_case::{Case, CaseFault, read};
use pv_lex::Language;
use pv_rows_form::Told;

const PLAIN: View = View {
    full: false,
    before: 0,
};

fn tell_text(text: &[u8], told: &mut Told) {
    told.text(" [");
    told.bytes(text);
    told.text("]");
}

fn tell_texts(texts: &[String], told: &mut Told) {
    for text in texts {
        tell_text(text.as_bytes(), told);
    }
}

fn tell_sources(case: &Case, told: &mut Told) {
    told.text("; sources");
    for source in case.sources.as_slice() {
        tell_text(source.file.as_bytes(), told);
        told.text(match source.language {
            Language::Scl => "scl",
            Language::Stl => "stl",
        });
    }
}

fn tell_bound(case: &Case, told: &mut Told) {
    told.text("; bind");
    for bound in case.bind.as_slice() {
        tell_text(bound.path.as_bytes(), told);
        told.number(bound.value);
    }
}

fn tell_symbols(case: &Case, told: &mut Told) {
    told.text("; symbols");
    for symbol in case.symbols.as_slice() {
        tell_text(symbol.name.spelled(), told);
        tell_operand(PLAIN, &symbol.at, told);
        tell_place(PLAIN, symbol.at.place, told);
        told.text(":");
        told.text(ty_word(symbol.ty));
    }
}

fn tell_pattern(case: &Case, told: &mut Told) {
    told.text("; pattern ");
    told.words(&case.pattern.kind);
    tell_texts(case.pattern.expressions.as_slice(), told);
}

fn tell_limits(case: &Case, told: &mut Told) {
    told.text("; limits ");
    told.number(i128::from(case.limits.loop_bound));
    told.text(" ");
    told.number(i128::from(case.limits.depth));
    told.text(" ");
    told.number(i128::from(case.limits.lemmas));
    told.text(" ");
    told.number(i128::from(case.limits.region_words));
}

fn tell_reductions(case: &Case, told: &mut Told) {
    told.text("; reduce");
    if case.reductions.constants {
        told.text(" constants");
    }
    if case.reductions.abstraction {
        told.text(" abstract");
    }
    if case.reductions.cone {
        told.text(" cone");
    }
}

fn tell_members(case: &Case, told: &mut Told) {
    told.text("name");
    tell_text(case.name.as_bytes(), told);
    tell_sources(case, told);
    told.text("; entry");
    tell_text(case.entry.as_bytes(), told);
    told.text("; params");
    tell_texts(case.params.as_slice(), told);
    tell_bound(case, told);
    tell_symbols(case, told);
    tell_pattern(case, told);
    tell_limits(case, told);
    tell_reductions(case, told);
    told.text("; certificate");
    if let Some(file) = &case.certificate {
        tell_text(file.as_bytes(), told);
    }
}

/// What the case says, or the rule that is broken first with its member.
pub fn tell_case(bytes: &[u8], told: &mut Told) {
    match read(told.alloc(), bytes) {
        Ok(case) => {
            tell_members(&case, told);
            drop(case);
        }
        Err(CaseFault::Broken { kind, field }) => {
            told.words(&kind);
            told.text(" ");
            told.bytes(field.as_bytes());
        }
        Err(fault) => told.words(&fault),
    }
}
