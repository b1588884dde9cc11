//! The recognizer: what happens along a walk, a table that is refused, and laws at concrete types.
ghost use Rattle.std.specs.Prelude.{◌≡◌, false, IsTrue};
ghost use Rattle.pv_ll.specs.Check.{is_ll1};

use pv_ll::{
    Alternative, Language, Rule, Symbol, Turn, makings_follow_along_walks, recognize,
    turns_do_what_texts_do, walks_do_what_texts_do,
};
use std::alloc::Global;
use std::test::Fail;

const PAIR_RULES: [Rule; 1] = [Rule {
    nullable: true,
    first: 1,
    follow: 6,
    weight: 1,
    from: 0,
    to: 2,
}];

const PAIR_ALTERNATIVES: [Alternative; 2] = [
    Alternative {
        name: 0,
        when: 1,
        from: 0,
        to: 3,
    },
    Alternative {
        name: 0,
        when: 6,
        from: 3,
        to: 3,
    },
];

/// As many `a` as `b`: an `a`, such a text and a `b`, or nothing.
fn pairs() -> Language
    ensures { IsTrue (is_ll1 result) }
{
    Language {
        rules: &PAIR_RULES,
        alternatives: &PAIR_ALTERNATIVES,
        symbols: &[Symbol::Token(0), Symbol::Name(0), Symbol::Token(1)],
        start: 0,
        kinds: 2,
    }
}

/// What happens along the walk through `a a b b`.
fn turns_of_pairs(alloc: Global, acts: &[bool]) -> Result<Vec<Turn>, Fail> {
    match recognize(alloc, &pairs(), acts, &[0, 0, 1, 1])? {
        Ok(turns) => Ok(turns),
        Err(_) => Ok(Vec::new(alloc)),
    }
}

/// Where all alternatives act, and where the empty one doesn't.
#[test]
fn turns_are_in_order(rt: HostRuntime) -> Result<(), Fail> {
    let all = turns_of_pairs(rt.alloc(), &[true, true])?;
    let wanted = [
        Turn::Pass,
        Turn::Pass,
        Turn::Leave(1),
        Turn::Pass,
        Turn::Leave(0),
        Turn::Pass,
        Turn::Leave(0),
    ];
    assert_eq!(rt; all.as_slice(), wanted.as_slice());
    let some = turns_of_pairs(rt.alloc(), &[true])?;
    let wanted = [
        Turn::Pass,
        Turn::Pass,
        Turn::Pass,
        Turn::Leave(0),
        Turn::Pass,
        Turn::Leave(0),
    ];
    assert_eq!(rt; some.as_slice(), wanted.as_slice());
    Ok(())
}

const CONFLICT_RULES: [Rule; 1] = [Rule {
    nullable: false,
    first: 1,
    follow: 4,
    weight: 1,
    from: 0,
    to: 2,
}];

const CONFLICT_ALTERNATIVES: [Alternative; 2] = [
    Alternative {
        name: 0,
        when: 1,
        from: 0,
        to: 1,
    },
    Alternative {
        name: 0,
        when: 1,
        from: 0,
        to: 2,
    },
];

/// One name for `a` and for `a b`: both alternatives begin with `a`, so the test refuses the table.
fn conflicting() -> Language
    ensures { is_ll1 result ≡ false }
{
    Language {
        rules: &CONFLICT_RULES,
        alternatives: &CONFLICT_ALTERNATIVES,
        symbols: &[Symbol::Token(0), Symbol::Token(1)],
        start: 0,
        kinds: 2,
    }
}

#[test]
fn a_conflict_is_refused_and_laws_stand_at_concrete_types(rt: HostRuntime) {
    let language = conflicting();
    assert_eq!(rt; language.alternatives.len(), 2);
    walks_do_what_texts_do::<u8, bool>();
    turns_do_what_texts_do::<u8, bool>();
    makings_follow_along_walks::<u8, bool, u16>();
}
