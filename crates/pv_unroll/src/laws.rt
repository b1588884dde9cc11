//! The tables are right, and what is laid is the automaton of the copies.
ghost use Rattle.pv_unroll.specs.Correct.{EdgesAreSized, CopiesAreSized, CopiesAreLaid};

/// The pass counts the edges.
pub fn edges_are_sized()
    ensures { EdgesAreSized }
{}

/// And the copies.
pub fn copies_are_sized()
    ensures { CopiesAreSized }
{}

/// What is laid is the automaton of the copies, list by list.
pub fn copies_are_laid()
    ensures { CopiesAreLaid }
{}
