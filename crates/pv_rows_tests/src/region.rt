//! A region of 20 words for 4 variables, worked out by hand.
ghost use Rattle.std.specs.Prelude.{◌≡◌, false};
ghost use Rattle.pv_cnf.specs.Literal.{is_outside};

use pv_region::{Full, MakeFault, Region, Watch};
use std::test::Fail;

#[test]
fn variables_are_too_many(rt: HostRuntime) -> Result<(), Fail> {
    let none = Region::make(rt.alloc(), 7, 4);
    assert!(rt; matches!(none, Err(MakeFault::Full { need: 8 })));
    Ok(())
}

// Two clauses of three literals fill it: 8 words for the variables, 6 for each clause.
#[test]
fn words_to_the_last(rt: HostRuntime) -> Result<(), Fail> {
    let mut region = Region::make(rt.alloc(), 20, 4)?;
    assert_eq!(rt; region.used(), 8);
    assert_eq!(rt; region.put_clause(&[2, 4, 6]), Ok(1));
    assert_eq!(rt; region.used(), 14);
    assert_eq!(rt; region.put_clause(&[3, 5, 9]), Ok(2));
    assert_eq!(rt; region.used(), 20);
    assert_eq!(rt; region.put_lemma(&[2], &[1]), Err(Full { need: 26 }));
    assert_eq!(rt; region.used(), 20);
    assert_eq!(rt; region.lits(1), [2, 4, 6].as_slice());
    assert_eq!(rt; region.lits(2), [3, 5, 9].as_slice());
    assert_eq!(rt; region.hints(2).len(), 0);
    assert_eq!(rt; (region.clauses(), region.lemmas()), (2, 0));
    Ok(())
}

#[test]
fn lemmas_with_hints(rt: HostRuntime) -> Result<(), Fail> {
    let mut region = Region::make(rt.alloc(), 26, 4)?;
    assert_eq!(rt; region.put_clause(&[2, 4]), Ok(1));
    assert_eq!(rt; region.put_lemma(&[2], &[1, 1]), Ok(2));
    assert_eq!(rt; region.put_lemma(&[8], &[2]), Ok(3));
    assert_eq!(rt; region.used(), 26);
    assert_eq!(rt; region.lits(1), [2, 4].as_slice());
    assert_eq!(rt; region.lits(2), [2].as_slice());
    assert_eq!(rt; region.hints(2), [1, 1].as_slice());
    assert_eq!(rt; region.lits(3), [8].as_slice());
    assert_eq!(rt; region.hints(3), [2].as_slice());
    Ok(())
}

/// The first two entries of the list of a literal.
fn first_two(region: &Region, lit: u32) -> (Option<Watch>, Option<Watch>)
    requires { is_outside region.now.variables lit ≡ false }
{
    match region.first_watch(lit) {
        None => (None, None),
        Some(watch) => (Some(watch), region.next_watch(watch)),
    }
}

// The second entry stands before the first one, and without it that is the last.
#[test]
fn a_list_of_two_watches(rt: HostRuntime) -> Result<(), Fail> {
    let mut region = Region::make(rt.alloc(), 20, 4)?;
    assert_eq!(rt; region.put_clause(&[2, 4, 6]), Ok(1));
    assert_eq!(rt; region.put_clause(&[3, 5, 9]), Ok(2));
    let zero = Watch { id: 1, slot: 0 };
    let one = Watch { id: 2, slot: 1 };
    region.watch(2, 1, 0);
    region.watch(2, 2, 1);
    assert_eq!(rt; first_two(&region, 2), (Some(one), Some(zero)));
    region.unwatch(2, None);
    assert_eq!(rt; first_two(&region, 2), (Some(zero), None));
    Ok(())
}
