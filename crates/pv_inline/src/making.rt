//! What is made of copies: terms, deeds, loops, and edges that are drawn, with where they lead before ends have numbers.
ghost use Rattle.std.specs.Prelude.{◌≡◌, ◌++◌, ◌∷◌, [], length, map, ◌≤◌, IfOk, IfErr};
ghost use Rattle.pv_call_tables.specs.Wanted.{IsMemory};
ghost use Rattle.pv_inline.specs.Numbers.{MOST};
ghost use Rattle.pv_call_terms.specs.Deeds.{deed_seen};
ghost use Rattle.pv_inline.specs.Walking.{first_making, drawn_more, looped, deed_put};
ghost use Rattle.pv_inline.specs.Seen.{making_seen};
ghost use Rattle.pv_flow.specs.View.{loop_of};

use pv_call_tables::{Drawn, Wanting, number_of};
use pv_flow::{Deed, Loop, Node, Set};
use pv_word::Ty;
use smallvec::SmallVec;
use std::alloc::{AllocError, Global};

/// The number of the deed whose guard is TRUE and that sets nothing.
pub(crate) const PLAIN: u32 = 0;

/// The number of the node TRUE.
const TRUE: u32 = 0;

/// What is made so far.
#[derive(Drop)]
pub(crate) struct Making {
    pub nodes: Vec<Node>,
    pub deeds: Vec<Deed>,
    pub drawn: Vec<Drawn>,
    pub loops: Vec<Loop>,
}

impl Making {
    /// Nothing but the node TRUE and the plain deed.
    pub fn new(alloc: Global) -> Result<Making, AllocError>
        ensures { IfOk result (λ made. making_seen made ≡ first_making) }
    {
        let mut made = Making {
            nodes: Vec::new(alloc),
            deeds: Vec::new(alloc),
            drawn: Vec::new(alloc),
            loops: Vec::new(alloc),
        };
        made.nodes.push(Node::Constant(Ty::Bool, 1))?;
        made.add_deed(SmallVec::new(alloc))?;
        Ok(made)
    }

    /// Adds a deed whose guard is TRUE, with these sets.
    pub fn add_deed(&mut self, sets: SmallVec<Set, 2>) -> Result<(), AllocError>
        ensures { IfOk result (λ _. making_seen self.new ≡ deed_put sets.items (making_seen self.old)) }
    {
        self.deeds.push(Deed { guard: TRUE, sets })?;
        Ok(())
    }

    /// The number of the next deed.
    pub fn next_deed(&self) -> Result<u32, Wanting>
        ensures number { IfOk result (λ n. n ≡ length (making_seen self.now).deeds) }
        ensures short { length (making_seen self.now).deeds ≤ MOST → IfErr result IsMemory }
    {
        number_of(self.deeds.len())
    }

    /// Draws an edge.
    pub fn draw(&mut self, drawn: Drawn) -> Result<(), Wanting>
        ensures drawn { IfOk result (λ _. making_seen self.new ≡ drawn_more drawn (making_seen self.old)) }
        ensures memory { IfErr result IsMemory }
    {
        self.drawn.push(drawn)?;
        Ok(())
    }

    /// Adds a loop.
    pub fn add_loop(&mut self, range: Loop) -> Result<(), Wanting>
        ensures added { IfOk result (λ _. making_seen self.new ≡ looped (loop_of range) (making_seen self.old)) }
        ensures memory { IfErr result IsMemory }
    {
        self.loops.push(range)?;
        Ok(())
    }
}
