//! What the definitions say of the graphs that are made. The contract of each function is the law; the body does nothing, or
//! cites a law of a crate below.
ghost use Rattle.st_gen.specs.Accepted.{AcceptedLaw, PlainAcceptedLaw};
ghost use Rattle.st_gen.specs.Made.{OneGraphLaw};

use st_test::laws::one_poles_answer;

/// A graph that is made is a planar st-graph with source 0 and sink 1, where each clockwise list has the edges out in file
/// order and then the edges in in reverse file order, and the outer face is that of the first end at the source. It passes
/// each test of the verdict, so no fault can be named.
pub fn accepted()
    ensures { AcceptedLaw }
{
    one_poles_answer();
}

/// What `make` answers passes each test of the verdict, with the orders that it has.
pub fn plain_accepted()
    ensures { PlainAcceptedLaw }
{
    accepted();
}

/// Each number of vertices and each seed have the edges of one graph, and no others.
pub fn one_graph()
    ensures { OneGraphLaw }
{}
