//! Parts, made spot by spot.
ghost use Rattle.std.specs.Prelude.{◌≡◌, true, ◌+◌, ◌*◌, ◌<◌, ◌∷◌, [], ◌++◌, map, length, nat_lt, IsTrue, ◌↔◌, IfOk, OnOk};
ghost use Rattle.pv_flow.specs.View.{term_of, term_at, loop_of};
ghost use Rattle.pv_flow.specs.Tables.{has_operands};
ghost use Rattle.pv_layout.specs.Spots.{Enter};
ghost use Rattle.pv_layout.specs.Layout.{bare};
ghost use Rattle.pv_layer.specs.Making.{guard_nodes, last_none, deed_seen, plain_deed, trap_deeds, plain_edge, trap_edges, trap_ends, turned_once};

use crate::checks::{add_guards, add_traps, checks_lie};
use crate::tables::{add_fork, add_node};
use crate::types::{Check, Way};
use crate::ways::{add_turn, add_way, sets_lie, turn_lies};
use pv_flow::{CallEdge, Loop, Node, Parts, Variable};
use pv_place::Place;
use pv_word::Ty;
use std::alloc::{AllocError, Global};

/// What is laid out so far. Spots come in the order of their locations, loops outermost first, each before the spots of its range, and
/// terms before the spots that name them.
#[derive(Drop)]
pub struct Layer {
    parts: Parts,
    /// The location of the next spot.
    here: u32,
    /// The number of the term TRUE.
    yes: u32,
}

impl Layer {
    ghost use Rattle.pv_layer.specs.Standing.{StandsFor, head_by, the_terms, terms_in, act_of, branch_of, loops_in, checks_below, way_below, HasSpot, HasRoom, KeepsTerms, Stays, Lays, Opens, LeavesRest, LeavesLoops, LeavesTables};
    ghost use Rattle.pv_layer.specs.Finished.{IsLaid, IsLegal, IsBody};

    /// Nothing yet. `done` is how many spots will come.
    pub fn new(
        alloc: Global,
        vars: Vec<Variable>,
        bound: u32,
        shared: u32,
        done: u32,
    ) -> Result<Layer, AllocError>
        requires { done < 4294967295 }
        ensures stands { IfOk result (λ layer. StandsFor (head_by vars.items bound shared) done [] [] layer) }
        ensures terms { IfOk result (λ layer. terms_in layer ≡ 1) }
    {
        let mut nodes = Vec::new(alloc);
        let yes = add_node(&mut nodes, Node::Constant(Ty::Bool, 1))?;
        let parts = Parts {
            nodes,
            deeds: Vec::new(alloc),
            vars,
            bound,
            shared,
            locations: done + 1,
            edges: Vec::new(alloc),
            calls: Vec::new(alloc),
            loops: Vec::new(alloc),
            done,
            traps: Vec::new(alloc),
            overs: Vec::new(alloc),
        };
        Ok(Layer {
            parts,
            here: 0,
            yes,
        })
    }

    /// Whether a spot is still to come.
    pub fn has_spot(&self) -> bool
        ensures { IsTrue result ↔ HasSpot self.now }
    {
        self.here < self.parts.done
    }

    /// Whether there is room for a spot with so many checks.
    pub fn has_room(&self, checks: usize) -> bool
        ensures { IsTrue result ↔ HasRoom self.now checks }
    {
        checks <= 1_431_655_764
            && self.parts.nodes.len() <= 4_294_967_292 - 3 * checks
            && self.parts.deeds.len() <= 4_294_967_293 - checks
            && self.parts.edges.len() <= 4_294_967_293 - checks
            && (self.parts.locations as usize) <= 4_294_967_295 - checks
    }

    /// Whether there is a term of this number.
    pub fn has_term(&self, term: u32) -> bool
        ensures { result ≡ nat_lt term (terms_in self.now) }
    {
        (term as usize) < self.parts.nodes.len()
    }

    /// Whether the terms are there that the checks name.
    pub fn has_checks(&self, checks: &[Check]) -> bool
        ensures { result ≡ checks_below (terms_in self.now) checks.now }
    {
        checks_lie(checks, self.parts.nodes.len())
    }

    /// Whether the terms and the loop are there that the way names.
    pub fn has_way(&self, way: &Way) -> bool
        ensures { result ≡ way_below (terms_in self.now) (loops_in self.now) way.now }
    {
        sets_lie(way.sets.as_slice(), self.parts.nodes.len())
            && turn_lies(way.turn, self.parts.loops.len())
    }

    /// The number of a term. Operands are numbers of terms that came before.
    pub fn term(&mut self, node: Node) -> Result<u32, AllocError>
        requires room { terms_in self.old < 4294967295 }
        requires operands { has_operands (terms_in self.old) node ≡ true }
        ensures number { IfOk result (λ n. n ≡ terms_in self.old) }
        ensures term { OnOk result (term_at (the_terms self.new) (terms_in self.old) ≡ term_of (the_terms self.old) node) }
        ensures terms { OnOk result (KeepsTerms self.old self.new 1) }
        ensures stands { OnOk result (Stays self.old self.new) }
    {
        let number = add_node(&mut self.parts.nodes, node)?;
        Ok(number)
    }

    /// The next loop. Both ends of its range are locations in it.
    pub fn open(
        &mut self,
        alloc: Global,
        first: u32,
        last: u32,
        entry_turn: bool,
        place: Place,
    ) -> Result<(), AllocError>
        ensures terms { OnOk result (KeepsTerms self.old self.new 0) }
        ensures stands { OnOk result (Opens self.old self.new (bare first last entry_turn place)) }
    {
        self.parts.loops.push(Loop {
            first,
            last,
            entry_turn,
            turns: Vec::new(alloc),
            place,
        })?;
        Ok(())
    }

    /// The checks of the next spot: the number of the term that none of them fails.
    fn check(&mut self, alloc: Global, checks: &[Check]) -> Result<u32, AllocError>
        requires { HasRoom self.old (length checks.now) }
        ensures none { IfOk result (λ n. n ≡ last_none (length self.old.parts.nodes.items) self.old.yes checks.now) }
        ensures nodes { OnOk result (self.new.parts.nodes.items
            ≡ self.old.parts.nodes.items ++ guard_nodes (length self.old.parts.nodes.items) self.old.yes checks.now) }
        ensures deeds { OnOk result (map deed_seen self.new.parts.deeds.items
            ≡ map deed_seen self.old.parts.deeds.items ++ trap_deeds (length self.old.parts.nodes.items) checks.now) }
        ensures count { OnOk result (length self.new.parts.deeds.items ≡ length self.old.parts.deeds.items + length checks.now) }
        ensures edges { OnOk result (self.new.parts.edges.items
            ≡ self.old.parts.edges.items ++ trap_edges self.old.here self.old.parts.locations (length self.old.parts.deeds.items) checks.now) }
        ensures size { OnOk result (length self.new.parts.edges.items ≡ length self.old.parts.edges.items + length checks.now) }
        ensures ends { OnOk result (self.new.parts.traps.items ≡ self.old.parts.traps.items ++ trap_ends self.old.parts.locations checks.now) }
        ensures locations { OnOk result (self.new.parts.locations ≡ self.old.parts.locations + length checks.now) }
        ensures loops { OnOk result (LeavesLoops self.old self.new) }
        ensures rest { OnOk result (LeavesRest self.old self.new) }
    {
        let deed = self.parts.deeds.len() as u32;
        let none = add_guards(
            alloc,
            &mut self.parts.nodes,
            &mut self.parts.deeds,
            self.yes,
            checks,
        )?;
        add_traps(
            &mut self.parts.edges,
            &mut self.parts.traps,
            self.here,
            self.parts.locations,
            deed,
            checks,
        )?;
        self.parts.locations += checks.len() as u32;
        Ok(none)
    }

    /// A way of the next spot.
    fn go(&mut self, guard: u32, way: Way) -> Result<(), AllocError>
        requires deeds { length self.old.parts.deeds.items < 4294967295 }
        requires edges { length self.old.parts.edges.items < 4294967295 }
        ensures deeds { OnOk result (map deed_seen self.new.parts.deeds.items
            ≡ map deed_seen self.old.parts.deeds.items ++ plain_deed guard way.sets.items ∷ []) }
        ensures count { OnOk result (length self.new.parts.deeds.items ≡ length self.old.parts.deeds.items + 1) }
        ensures edges { OnOk result (self.new.parts.edges.items
            ≡ self.old.parts.edges.items ++ plain_edge self.old.here way.to (length self.old.parts.deeds.items) ∷ []) }
        ensures size { OnOk result (length self.new.parts.edges.items ≡ length self.old.parts.edges.items + 1) }
        ensures loops { OnOk result (map loop_of self.new.parts.loops.items
            ≡ turned_once way.turn 0 (length self.old.parts.edges.items) (map loop_of self.old.parts.loops.items)) }
        ensures tables { OnOk result (LeavesTables self.old self.new) }
        ensures rest { OnOk result (LeavesRest self.old self.new) }
    {
        let turn = way.turn;
        let edge = add_way(
            &mut self.parts.deeds,
            &mut self.parts.edges,
            self.here,
            guard,
            way,
        )?;
        add_turn(&mut self.parts.loops, turn, edge)
    }

    /// The next spot: checks, and then a way on.
    pub fn act(&mut self, alloc: Global, checks: &[Check], way: Way) -> Result<(), AllocError>
        requires spot { HasSpot self.old }
        requires checks { checks_below (terms_in self.old) checks.now ≡ true }
        requires way { way_below (terms_in self.old) (loops_in self.old) way ≡ true }
        requires room { HasRoom self.old (length checks.now) }
        ensures terms { OnOk result (KeepsTerms self.old self.new (3 * length checks.now)) }
        ensures stands { OnOk result (Lays self.old self.new (act_of (the_terms self.old) checks.now way)) }
    {
        let none = self.check(alloc, checks)?;
        self.go(none, way)?;
        self.here += 1;
        Ok(())
    }

    /// The next spot: checks, and then the first way where the condition is true.
    pub fn branch(
        &mut self,
        alloc: Global,
        checks: &[Check],
        condition: u32,
        one: Way,
        other: Way,
    ) -> Result<(), AllocError>
        requires spot { HasSpot self.old }
        requires checks { checks_below (terms_in self.old) checks.now ≡ true }
        requires condition { condition < terms_in self.old }
        requires one { way_below (terms_in self.old) (loops_in self.old) one ≡ true }
        requires other { way_below (terms_in self.old) (loops_in self.old) other ≡ true }
        requires room { HasRoom self.old (length checks.now) }
        ensures terms { OnOk result (KeepsTerms self.old self.new (3 * length checks.now + 3)) }
        ensures stands { OnOk result (Lays self.old self.new (branch_of (the_terms self.old) checks.now condition one other)) }
    {
        let none = self.check(alloc, checks)?;
        let guard = add_fork(&mut self.parts.nodes, condition, none)?;
        self.go(guard, one)?;
        self.go(guard + 2, other)?;
        self.here += 1;
        Ok(())
    }

    /// The next spot: a call.
    pub fn enter(
        &mut self,
        block: u32,
        instance: u32,
        place: Place,
        to: u32,
    ) -> Result<(), AllocError>
        requires spot { HasSpot self.old }
        ensures terms { OnOk result (KeepsTerms self.old self.new 0) }
        ensures stands { OnOk result (Lays self.old self.new (Enter block instance place to)) }
    {
        self.parts.calls.push(CallEdge {
            from: self.here,
            to,
            block,
            instance,
            place,
        })?;
        self.here += 1;
        Ok(())
    }

    /// The parts.
    pub fn finish(self) -> Parts
        ensures parts { IsLaid self result }
        ensures legal { IsLegal self result }
        ensures body { IsBody self result }
    {
        self.parts
    }
}
