//! Laws of flows and their layouts, each the contract of a function that does nothing. Their statements are those of `specs/Correct`.
ghost use Rattle.pv_layout.specs.Correct.{SpotsChoose, OneEdge, FlowsAreEdges, WholesEnd, PartsRun, BlocksRun, TextsAreLegal, LayoutsAreLegal, EdgesAreCounted};

/// A spot's edge that is taken is that of its first check that fails, or of its way.
pub fn spots_choose()
    ensures { SpotsChoose }
{}

/// Of a spot's edges exactly one guard is true, in every valuation.
pub fn one_edge()
    ensures { OneEdge }
{}

/// A flow that is laid out, its exits outside of it, acts as one edge where its loops' counts are those of entering them, with a loop
/// bound of 1 at least.
pub fn flows_are_edges()
    ensures { FlowsAreEdges }
{}

/// A whole flow that is laid out comes to what it ends as, with a loop bound of 1 at least.
pub fn wholes_end()
    ensures { WholesEnd }
{}

/// Edges by number come to what the spots come to, where ways lead to spots or where a scan is done, and calls do what the called blocks'
/// automata come to.
pub fn parts_run()
    ensures { PartsRun }
{}

/// Where blocks fit, a block's automaton ends as its flow, and calls as the flows of the called blocks, with a loop bound of 1 at least.
pub fn blocks_run()
    ensures { BlocksRun }
{}

/// The automaton of a sound text of spots and loops has no fault and is well made, where its variables' starts are values of their types.
pub fn texts_are_legal()
    ensures { TextsAreLegal }
{}

/// So has that of a flow with typed terms.
pub fn layouts_are_legal()
    ensures { LayoutsAreLegal }
{}

/// It has as many edges and call edges as are counted.
pub fn edges_are_counted()
    ensures { EdgesAreCounted }
{}
