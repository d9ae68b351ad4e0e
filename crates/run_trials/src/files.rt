//! The files of the trials.

/// Two vertices and one edge.
pub const EDGE: &str = "graph [ node [ id 1 ] node [ id 2 ] edge [ source 1 target 2 ] ]\n";

/// Two vertices and two edges between them.
pub const PAIR: &str =
    "graph [ node [ id 1 ] node [ id 2 ] edge [ source 1 target 2 ] edge [ source 1 target 2 ] ]\n";

/// Three vertices, one above the other.
pub const CHAIN: &str =
    "graph [ node [ id 1 ] node [ id 2 ] node [ id 3 ] edge [ source 1 target 2 ] edge [ source 2 target 3 ] ]\n";

/// A diamond.
pub const DIAMOND: &str =
    "graph [ node [ id 1 ] node [ id 2 ] node [ id 3 ] node [ id 4 ] edge [ source 1 target 2 ] edge [ source 1 target 3 ] edge [ source 2 target 4 ] edge [ source 3 target 4 ] ]\n";

/// One diamond above another.
pub const DIAMONDS: &str =
    "graph [ node [ id 1 ] node [ id 2 ] node [ id 3 ] node [ id 4 ] node [ id 5 ] node [ id 6 ] node [ id 7 ] edge [ source 1 target 2 ] edge [ source 1 target 3 ] edge [ source 2 target 4 ] edge [ source 3 target 4 ] edge [ source 4 target 5 ] edge [ source 4 target 6 ] edge [ source 5 target 7 ] edge [ source 6 target 7 ] ]\n";

/// A diamond with an edge between its sides.
pub const CHORDS: &str =
    "graph [ node [ id 1 ] node [ id 2 ] node [ id 3 ] node [ id 4 ] edge [ source 1 target 2 ] edge [ source 2 target 4 ] edge [ source 2 target 3 ] edge [ source 1 target 3 ] edge [ source 3 target 4 ] ]\n";

/// A diamond with an edge that goes straight past both of its sides.
pub const CHORD: &str =
    "graph [ node [ id 1 ] node [ id 2 ] node [ id 3 ] node [ id 4 ] edge [ source 1 target 2 ] edge [ source 2 target 4 ] edge [ source 1 target 4 ] edge [ source 1 target 3 ] edge [ source 3 target 4 ] ]\n";

/// Three vertices whose edges form a cycle.
pub const CYCLE: &str =
    "graph [ node [ id 1 ] node [ id 2 ] node [ id 3 ] edge [ source 1 target 2 ] edge [ source 2 target 3 ] edge [ source 3 target 1 ] ]\n";

/// Two vertices whose edges form a cycle.
pub const TURNS: &str =
    "graph [ node [ id 1 ] node [ id 2 ] edge [ source 1 target 2 ] edge [ source 2 target 1 ] ]\n";

/// A diamond with a vertex that no edge reaches.
pub const APART: &str =
    "graph [ node [ id 1 ] node [ id 2 ] node [ id 3 ] node [ id 4 ] node [ id 5 ] edge [ source 1 target 2 ] edge [ source 1 target 3 ] edge [ source 2 target 4 ] edge [ source 3 target 4 ] ]\n";

/// A file in the manner of yEd.
pub const NESTED: &str =
    "Creator \"yFiles\"\nVersion \"2.17\"\ngraph\n[\n  hierarchic 1\n  label \"\"\n  directed 1\n  node\n  [\n    id 0\n    label \"A\"\n    graphics\n    [\n      x 12.5\n      y 30.0\n      type \"rectangle\"\n      fill \"#FFCC00\"\n    ]\n  ]\n  node\n  [\n    id 1\n    label \"B (1)\"\n  ]\n  edge\n  [\n    source 0\n    target 1\n    graphics\n    [\n      fill \"#000000\"\n      targetArrow \"standard\"\n    ]\n  ]\n]\n";

/// Files with one fault, each with its line.
pub const FAULTY: [(&str, &str); 20] = [
    ("", "gml: no graph\n"),
    ("graph [ node [ id 1 label \"A", "gml: open string at 26\n"),
    ("graph [ node [ id 1 ]", "gml: unclosed list at 6\n"),
    ("graph", "gml: key without value at 0\n"),
    ("graph [ ] ]", "gml: stray token at 10\n"),
    ("graph [ x 9223372036854775808 ]", "gml: big number at 10\n"),
    ("graph [ x 1e ]", "gml: bad number at 10\n"),
    ("graph [ x @ ]", "gml: bad byte at 10\n"),
    (
        "a [ a [ a [ a [ a [ a [ a [ a [ a [ a [ a [ a [ a [ a [ a [ a [ a [ a [ a [ a [ a [ a [ a [ a [ a [ a [ a [ a [ a [ a [ a [ a [ a [ ",
        "gml: list too deep at 130\n",
    ),
    ("graph [ ] graph [ ]", "gml: second graph at 10\n"),
    (
        "graph [ node [ id 1.5 ] ]",
        "gml: wrong kind of value at 15\n",
    ),
    ("graph [ node [ ] ]", "gml: node without id at 8\n"),
    (
        "graph [ node [ id 1 ] node [ id 1 ] ]",
        "gml: node id 1 twice\n",
    ),
    ("graph [ edge [ source 1 ] ]", "gml: edge 0 lacks an end\n"),
    (
        "graph [ node [ id 1 ] node [ id 2 ] edge [ source 1 target 3 ] ]",
        "gml: edge 0 ends at unknown node 3\n",
    ),
    (
        "graph [ node [ id 1 ] node [ id 2 ] edge [ id 7 source 1 target 2 ] edge [ id 7 source 1 target 2 ] ]",
        "gml: edge id 7 twice\n",
    ),
    (
        "graph [ node [ id 1 order [ e 5 ] ] ]",
        "gml: unknown edge at 28\n",
    ),
    ("graph [ outer [ edge 0 ] ]", "gml: bad outer at 8\n"),
    ("graph [ x [ y \"", "gml: open string at 14\n"),
    ("graph [ x ]", "gml: key without value at 8\n"),
];
