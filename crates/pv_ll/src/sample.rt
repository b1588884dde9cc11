//! A sample language: assignments of expressions with parentheses and two priorities.
ghost use Rattle.std.specs.Prelude.{◌≡◌, IfOk, IsTrue};
ghost use Rattle.pv_ll.specs.Check.{is_ll1};
ghost use Rattle.pv_ll.specs.Turns.{IsExact};
ghost use Rattle.pv_ll.specs.Reading.{answer_of};
ghost use Rattle.pv_ll.specs.Table.{grammar_of};
ghost use Rattle.pv_ll.specs.Sample.{program, sample_grammar};

use crate::machine::recognize;
use crate::table::{Alternative, Language, Rule, Symbol};
use crate::turn::Turn;
use std::alloc::{AllocError, Global};

/// Reads a program of the sample language, given by the kinds of its tokens: 0 for a name, 1 for `:=`, 2 for `;`, 3 and
/// 4 for parentheses, 5 for OR and 6 for AND. It answers what `recognize` does.
pub fn recognize_sample(
    alloc: Global,
    acts: &[bool],
    kinds: &[u8],
) -> Result<Result<Vec<Turn>, usize>, AllocError>
    ensures { IfOk result (λ answer. IsExact sample_grammar program acts.now kinds.now (answer_of answer)) }
{
    recognize(alloc, &sample(), acts, kinds)
}

// Written by tools/ll_table.py from crates/pv_ll/grammar/sample.txt: change that file, and write this one again.
const RULES: [Rule; 7] = [
    // program
    Rule {
        nullable: true,
        first: 0x1,
        follow: 0x80,
        weight: 2,
        from: 0,
        to: 2,
    },
    // statement
    Rule {
        nullable: false,
        first: 0x1,
        follow: 0x81,
        weight: 1,
        from: 2,
        to: 3,
    },
    // expression
    Rule {
        nullable: false,
        first: 0x9,
        follow: 0x14,
        weight: 3,
        from: 3,
        to: 4,
    },
    // or_tail
    Rule {
        nullable: true,
        first: 0x20,
        follow: 0x14,
        weight: 1,
        from: 4,
        to: 6,
    },
    // conjunct
    Rule {
        nullable: false,
        first: 0x9,
        follow: 0x34,
        weight: 2,
        from: 6,
        to: 7,
    },
    // and_tail
    Rule {
        nullable: true,
        first: 0x40,
        follow: 0x34,
        weight: 1,
        from: 7,
        to: 9,
    },
    // atom
    Rule {
        nullable: false,
        first: 0x9,
        follow: 0x74,
        weight: 1,
        from: 9,
        to: 11,
    },
];

const ALTERNATIVES: [Alternative; 11] = [
    // program = statement program
    Alternative {
        name: 0,
        when: 0x1,
        from: 0,
        to: 2,
    },
    // program =
    Alternative {
        name: 0,
        when: 0x80,
        from: 2,
        to: 2,
    },
    // statement = ident assign expression semicolon
    Alternative {
        name: 1,
        when: 0x1,
        from: 2,
        to: 6,
    },
    // expression = conjunct or_tail
    Alternative {
        name: 2,
        when: 0x9,
        from: 6,
        to: 8,
    },
    // or_tail = or_sign conjunct or_tail
    Alternative {
        name: 3,
        when: 0x20,
        from: 8,
        to: 11,
    },
    // or_tail =
    Alternative {
        name: 3,
        when: 0x14,
        from: 11,
        to: 11,
    },
    // conjunct = atom and_tail
    Alternative {
        name: 4,
        when: 0x9,
        from: 11,
        to: 13,
    },
    // and_tail = and_sign atom and_tail
    Alternative {
        name: 5,
        when: 0x40,
        from: 13,
        to: 16,
    },
    // and_tail =
    Alternative {
        name: 5,
        when: 0x34,
        from: 16,
        to: 16,
    },
    // atom = ident
    Alternative {
        name: 6,
        when: 0x1,
        from: 16,
        to: 17,
    },
    // atom = left_paren expression right_paren
    Alternative {
        name: 6,
        when: 0x8,
        from: 17,
        to: 20,
    },
];

const SYMBOLS: [Symbol; 20] = [
    Symbol::Name(1),
    Symbol::Name(0),
    Symbol::Token(0),
    Symbol::Token(1),
    Symbol::Name(2),
    Symbol::Token(2),
    Symbol::Name(4),
    Symbol::Name(3),
    Symbol::Token(5),
    Symbol::Name(4),
    Symbol::Name(3),
    Symbol::Name(6),
    Symbol::Name(5),
    Symbol::Token(6),
    Symbol::Name(6),
    Symbol::Name(5),
    Symbol::Token(0),
    Symbol::Token(3),
    Symbol::Name(2),
    Symbol::Token(4),
];

/// The table of the grammar.
pub(crate) fn sample() -> Language
    ensures ll1 { IsTrue (is_ll1 result) }
    ensures grammar { grammar_of result ≡ sample_grammar }
    ensures start { result.start ≡ 0 }
{
    Language {
        rules: &RULES,
        alternatives: &ALTERNATIVES,
        symbols: &SYMBOLS,
        start: 0,
        kinds: 7,
    }
}
