//! Locations, edges and ends of the copies, as they are laid one behind another.
ghost use Rattle.std.specs.Prelude.{◌≡◌, length, IfOk, OnOk};
ghost use Rattle.pv_unroll.specs.Laying.{trap_number, trap_laid, led_by, laid_by, led, led_laid, way_in, edge_laid, one_laid, edges_laid, over_put, over_laid, copy_laid};
ghost use Rattle.pv_unroll.specs.Seen.{laid_seen, table_seen};

use crate::endings::{Ending, ending_at};
use crate::lead::{Lead, Open, Table, Way, lead_of, turning_at};
use crate::numbers::{narrow, number_at, plus};
use pv_flow::{Edge, OverEnd, TrapEnd};
use pv_place::{Place, TrapKind};
use std::alloc::AllocError;

/// What is laid so far.
#[derive(Drop)]
pub(crate) struct Laid {
    pub(crate) edges: Vec<Edge>,
    pub(crate) traps: Vec<TrapEnd>,
    pub(crate) overs: Vec<OverEnd>,
    /// The number of the next copy.
    pub(crate) here: u64,
    /// The number of the location where a scan is done, behind all copies.
    pub(crate) done: u64,
}

/// How the edge of this number leads.
fn way_in(table: &Table, number: usize, edge: &Edge) -> Way
    ensures { result ≡ way_in (table_seen table.now) number edge.now }
{
    Way {
        from: edge.from,
        to: edge.to,
        turning: turning_at(table.turned, number),
    }
}

impl Laid {
    /// Lays a location where a scan ends by a trap, and gives its number.
    fn trap(&mut self, kind: TrapKind, place: Place) -> Result<u64, AllocError>
        ensures number { IfOk result (λ to. to ≡ trap_number (laid_seen self.old)) }
        ensures laid { OnOk result (laid_seen self.new ≡ trap_laid kind place (laid_seen self.old)) }
    {
        let at = plus(plus(self.done, 1), self.traps.len() as u64);
        self.traps.push(TrapEnd {
            location: narrow(at),
            kind,
            place,
        })?;
        Ok(at)
    }

    /// The number of the location that is led to, by what it ends.
    fn led_on(&mut self, ending: Ending, place: u64) -> Result<u64, AllocError>
        ensures number { IfOk result (λ to. to ≡ led_by ending place (laid_seen self.old)) }
        ensures laid { OnOk result (laid_seen self.new ≡ laid_by ending (laid_seen self.old)) }
    {
        match ending {
            Ending::Goes => Ok(place),
            Ending::Done => Ok(self.done),
            Ending::Trapped(kind, place) => self.trap(kind, place),
            Ending::Gone(_) => Ok(place),
        }
    }

    /// Where a copy of the edge leads.
    fn led(&mut self, table: &Table, nest: &[Open], way: Way) -> Result<u64, AllocError>
        ensures number { IfOk result (λ to. to ≡ led (table_seen table.now) nest.now way (laid_seen self.old)) }
        ensures laid { OnOk result (laid_seen self.new ≡ led_laid (table_seen table.now) nest.now way (laid_seen self.old)) }
    {
        match lead_of(table, nest, way) {
            Lead::On(place) => self.led_on(ending_at(table.endings, way.to), place),
            Lead::Over(place) => Ok(place),
        }
    }

    /// Lays a copy of the edge of this number.
    fn lay_edge(
        &mut self,
        table: &Table,
        nest: &[Open],
        number: usize,
        edge: &Edge,
    ) -> Result<(), AllocError>
        ensures { OnOk result (laid_seen self.new ≡ edge_laid (table_seen table.now) nest.now number edge.now (laid_seen self.old)) }
    {
        let to = self.led(table, nest, way_in(table, number, edge))?;
        self.edges.push(Edge {
            from: narrow(self.here),
            to: narrow(to),
            deed: edge.deed,
        })?;
        Ok(())
    }

    /// Lays a copy of the edge of this number, if there is one.
    fn lay_one(&mut self, table: &Table, nest: &[Open], number: usize) -> Result<(), AllocError>
        ensures { OnOk result (laid_seen self.new ≡ one_laid (table_seen table.now) nest.now number (laid_seen self.old)) }
    {
        match table.edges.get(number) {
            Some(edge) => self.lay_edge(table, nest, number, edge),
            None => Ok(()),
        }
    }

    /// Lays copies of the edges of a chain from this number on, numbers being one more.
    fn lay_edges(&mut self, table: &Table, nest: &[Open], head: u64) -> Result<(), AllocError>
        ensures { OnOk result (laid_seen self.new
            ≡ edges_laid (table_seen table.now) nest.now (length table.now.edges.now) head (laid_seen self.old)) }
    {
        let mut left = head;
        for _ in 0..table.edges.len() {
            if left == 0 {
                return Ok(());
            }
            let number = (left - 1) as usize;
            self.lay_one(table, nest, number)?;
            left = number_at(table.nexts, number);
        }
        Ok(())
    }

    /// The next copy is one where a bound is gone over.
    fn end_here(&mut self, place: Place) -> Result<(), AllocError>
        ensures { OnOk result (laid_seen self.new ≡ over_put place (laid_seen self.old)) }
    {
        self.overs.push(OverEnd {
            location: narrow(self.here),
            place,
        })?;
        Ok(())
    }

    /// Lays a location where a bound is gone over.
    pub(crate) fn lay_over(&mut self, place: Place) -> Result<(), AllocError>
        ensures { OnOk result (laid_seen self.new ≡ over_laid place (laid_seen self.old)) }
    {
        self.end_here(place)?;
        self.here = plus(self.here, 1);
        Ok(())
    }

    /// Lays a copy of a location with its edges, unless it stands behind the text.
    pub(crate) fn lay_copy(
        &mut self,
        table: &Table,
        nest: &[Open],
        ending: Ending,
        head: u64,
    ) -> Result<(), AllocError>
        ensures { OnOk result (laid_seen self.new ≡ copy_laid (table_seen table.now) nest.now head ending (laid_seen self.old)) }
    {
        match ending {
            Ending::Goes => {}
            Ending::Done => return Ok(()),
            Ending::Trapped(_, _) => return Ok(()),
            Ending::Gone(place) => self.end_here(place)?,
        }
        self.lay_edges(table, nest, head)?;
        self.here = plus(self.here, 1);
        Ok(())
    }
}
