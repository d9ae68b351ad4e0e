//! What the definitions say together. Each function does nothing, and its contract is a law.
ghost use Rattle.st_input.specs.Laws.{FirstSameEdgeId, FirstSameName, FitsTogether, KeepsLimits, LengthsDefault};
ghost use Rattle.st_input.specs.Laws.{ReadIsWritable};

/// The tables of the graph of a text without a fault fit together: one name, one label and one order for each vertex,
/// one name and one length for each edge, different names, labels that can be shown, and orders that list edges of the
/// graph alone.
pub fn tables_fit_together()
    ensures { FitsTogether }
{}

/// The graph of a text without a fault has no more vertices and no more edges than the limits allow.
pub fn limits_hold()
    ensures { KeepsLimits }
{}

/// Where no edge of a text has the key `minlen`, each edge of its graph has the length 1.
pub fn lengths_default()
    ensures { LengthsDefault }
{}

/// The graph of a sound text without a fault, within limits that leave room in a list for all its pairs, can be
/// written.
pub fn read_is_writable()
    ensures { ReadIsWritable }
{}

/// The first fault of the names of nodes, by their places: the first node without a name, or with one that an earlier
/// node has; none exactly where all have names, and different ones.
pub fn first_same_name()
    ensures { FirstSameName }
{}

/// The first fault of the names of edges, by their places: where all edges have ids, the first id that an earlier edge
/// has too; none exactly where an edge has no id, or the ids differ.
pub fn first_same_edge_id()
    ensures { FirstSameEdgeId }
{}
