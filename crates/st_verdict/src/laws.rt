//! Laws on the stages. The contract of each function is the law; the body does nothing, or cites a law of a crate below.
ghost use Rattle.st_verdict.specs.File.{OneGraph, OneTree};
ghost use Rattle.st_verdict.specs.Verdict.{OneVerdict};
ghost use Rattle.st_verdict.specs.Every.{SomeGraph};

use gml_core::laws::one_answer;
use st_test::laws::one_poles_answer;

/// Bytes are the text of one tree, or have one first fault.
pub fn one_tree()
    ensures { OneTree }
{}

/// A tree has one graph within the limits, or one first fault.
pub fn one_graph()
    ensures { OneGraph }
{}

/// A graph is a planar st-graph in one way, or fails one of the seven tests first, with one evidence.
pub fn one_verdict()
    ensures { OneVerdict }
{
    one_poles_answer();
}

/// Bytes have a graph within the limits, or a refusal.
pub fn some_graph()
    ensures { SomeGraph }
{
    one_answer();
}
