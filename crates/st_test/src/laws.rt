//! Laws on the answers of the tests: empty functions, whose contracts are theorems.
ghost use Rattle.st_test.specs.Planar.{AcyclicIsLoopless, IsPlanarSt};
ghost use Rattle.st_test.specs.PolesAnswer.{OnePolesAnswer};

use crate::StGraph;

/// Two answers of `poles` for one graph are the same, want of memory aside. So each answer comes exactly where it is the
/// answer: no fault where another comes first, and of all cycles this one.
pub fn one_poles_answer()
    ensures { OnePolesAnswer }
{}

/// A graph without a cycle has no edge from a vertex to itself.
pub fn no_loop()
    ensures { AcyclicIsLoopless }
{}

/// Every `StGraph` is a planar st-graph: all seven tests hold.
pub fn planar_st(graph: &StGraph)
    ensures { IsPlanarSt graph.now.map.graph graph.now.source graph.now.sink graph.now.outer }
{
    let _ = graph.map();
}
