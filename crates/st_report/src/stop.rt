//! How a run ends.
ghost use Rattle.std.specs.Prelude.{◌≡◌, [], ◌∷◌, ◌++◌, OnOk, OnErr};
ghost use Rattle.st_report.specs.Lines.{code_of, status_of, stop_status};

use gml_core::GmlFault;
use st_ids::NoMemory;
use st_input::ShapeFault;
use st_shape::Fault;
use std::alloc::Global;
use std::marker::Model;

/// How a run ended. Each status has a number, which the program ends with.
#[derive(Clone, Copy, Debug, PartialEq, Eq)]
pub enum Status {
    /// The whole output was written and flushed.
    Done,
    /// The graph is no planar st-graph.
    NotSt,
    /// The words are no form of a command.
    Words,
    /// The file is no GML text, or its tree is no graph, or one of its records is bad.
    Gml,
    /// The file has too many bytes or records, or the graph too many vertices or edges.
    Limit,
    /// A read failed.
    ReadFault,
    /// A write of the output failed.
    WriteFault,
    /// Memory ran out.
    NoMemory,
    /// The paths of the file are not valid.
    Path,
    /// A name in the words, or in a question of the file, is the name of no vertex.
    UnknownVertex,
    /// A drawing is not clean.
    NotClean,
    /// The file is no EPS text of the dialect.
    Eps,
    /// An edit was refused.
    Edit,
    /// There is no orientation.
    NoOrientation,
}

impl Status {
    /// The number that the program ends with.
    pub fn code(self) -> u8
        ensures { result ≡ code_of self }
    {
        match self {
            Status::Done => 0,
            Status::NotSt => 1,
            Status::Words => 2,
            Status::Gml => 3,
            Status::Limit => 4,
            Status::ReadFault => 5,
            Status::WriteFault => 6,
            Status::NoMemory => 7,
            Status::Path => 8,
            Status::UnknownVertex => 9,
            Status::NotClean => 10,
            Status::Eps => 11,
            Status::Edit => 12,
            Status::NoOrientation => 13,
        }
    }
}

/// Names in a list, which a contract sees as such.
#[derive(Debug, Drop)]
pub struct NameList {
    held: Vec<i64>,
}

impl Model for NameList {
    ghost use Rattle.std.specs.Prelude.{List, ℤ};

    ghost Value = { List ℤ };

    ghost view = { λ a. a.held.items };
}

impl NameList {
    /// No name.
    pub fn new(alloc: Global) -> NameList
        ensures { result ≡ [] }
    {
        NameList {
            held: Vec::new(alloc),
        }
    }

    /// Appends a name.
    pub fn push(&mut self, name: i64) -> Result<(), NoMemory>
        ensures ok { OnOk result (self.new ≡ self.old ++ name ∷ []) }
        ensures err { OnErr result (self.new ≡ self.old) }
    {
        match self.held.push(name) {
            Ok(()) => Ok(()),
            Err(_) => Err(NoMemory),
        }
    }

    /// All names.
    pub fn items(&self) -> &[i64]
        ensures { result.now ≡ self.now }
    {
        &self.held
    }
}

/// Why a graph is no planar st-graph: the first of the seven tests that fails, with its evidence in the names of the
/// file.
#[derive(Debug, Drop)]
pub enum NotSt {
    /// There are fewer than two vertices.
    TooFew {
        n: u32,
    },
    /// There is a cycle, of these edges.
    Cycle {
        edges: NameList,
    },
    /// There are several vertices without an edge in: the first two, and how many.
    Sources {
        first: i64,
        second: i64,
        count: u32,
    },
    /// There are several vertices without an edge out: the first two, and how many.
    Sinks {
        first: i64,
        second: i64,
        count: u32,
    },
    /// The order of this vertex doesn't list each edge at it once and no other.
    BadOrder {
        vertex: i64,
    },
    /// The numbers of vertices, edges and faces are not those of a planar embedding.
    BadFaces {
        v: u32,
        e: u32,
        f: u32,
    },
    /// The outer face misses a pole.
    Outer {
        misses_source: bool,
        misses_sink: bool,
    },
}

/// Why the paths of a file can't be drawn in one column each: the first fault, in the names of the file. Paths are told by
/// their places, from 0.
#[derive(Clone, Copy, Debug, PartialEq, Eq)]
pub enum BadPath {
    /// A name in the path is that of no edge.
    UnknownEdge { path: u32, name: i64 },
    /// The path has no edge, or one that doesn't begin where the one before it ends.
    NotAPath { path: u32 },
    /// This edge of the path is in an earlier path too.
    SharedEdge { path: u32, edge: i64 },
    /// The path crosses this other one, an earlier one, at this vertex.
    Crossing { path: u32, other: u32, vertex: i64 },
}

/// Why the graph of a file has no orientation with these poles, in the names of the file. Some causes are those of
/// `NotSt`.
#[derive(Clone, Copy, Debug, PartialEq, Eq)]
pub enum NoOrientation {
    /// One vertex is to be both poles.
    OnePole,
    /// The edge is a loop. It is the first one.
    Loop { edge: i64 },
    /// No undirected walk joins the vertex to the source. It is the first such vertex.
    Apart { vertex: i64 },
    /// Each undirected walk from `apart` to a pole goes through `cut`. It is the first such `cut`, and for it the first
    /// such `apart`.
    Cut { cut: i64, apart: i64 },
}

/// Why an edit is refused: the first of its faults, in names of vertices and edges.
#[derive(Clone, Copy, Debug, PartialEq, Eq)]
pub enum BadEdit {
    /// A vertex has the new vertex's name.
    UsedVertex { name: i64 },
    /// An edge has the new edge's name.
    UsedEdge { name: i64 },
    /// No vertex has the name.
    UnknownVertex { name: i64 },
    /// No edge has the name.
    UnknownEdge { name: i64 },
    /// The tail of the new edge is its head.
    Loop,
    /// The edge has no end at the vertex.
    NotAt { edge: i64, vertex: i64 },
    /// An end of the new edge would be in the outer face.
    OuterCorner,
    /// The head of the new edge reaches its tail.
    Cycle { tail: i64, head: i64 },
    /// The ends of the new edge would be in two faces.
    OtherFace,
    /// The vertex would have no edge in.
    Source { vertex: i64 },
    /// The vertex would have no edge out.
    Sink { vertex: i64 },
}

/// What words and bytes answer in place of an output.
#[derive(Debug, Drop)]
pub enum Refusal {
    /// The words are no form of a command.
    Words,
    /// The file has more bytes than the limit.
    TooManyBytes,
    /// The bytes are no GML text.
    Gml(GmlFault),
    /// The tree of the file is no graph, or one with too many vertices or edges; or an edit makes it such a one.
    Shape(ShapeFault),
    /// The graph is no planar st-graph.
    NotSt(NotSt),
    /// The paths of the file can't be drawn in one column each.
    Path(BadPath),
    /// The first name in the words, or in the first question without an answer, that is the name of no vertex.
    UnknownVertex(i64),
    /// The file to check has more bytes than the limit of drawings.
    TooLongDrawing,
    /// The bytes are no EPS text of the dialect: the first bad line, from 1.
    Eps(u32),
    /// The drawing is not clean: its first fault, by items from 0.
    NotClean(Fault),
    /// The graph has no orientation with these poles.
    NoOrientation(NoOrientation),
    /// The first record that hasn't the shape of its key, by the byte at which the key begins.
    BadRecord(u32),
    /// The file has so many records, more than the limit.
    TooManyRecords(usize),
    /// The first record that is refused, by its number from 0, is an edit.
    Edit { number: u32, fault: BadEdit },
}

impl Refusal {
    /// The status that the run ends with.
    pub fn status(&self) -> Status
        ensures { result ≡ status_of self.now }
    {
        match self {
            Refusal::Words => Status::Words,
            Refusal::TooManyBytes => Status::Limit,
            Refusal::Gml(_) => Status::Gml,
            Refusal::Shape(ShapeFault::TooManyVertices { .. }) => Status::Limit,
            Refusal::Shape(ShapeFault::TooManyEdges { .. }) => Status::Limit,
            Refusal::Shape(_) => Status::Gml,
            Refusal::NotSt(_) => Status::NotSt,
            Refusal::Path(_) => Status::Path,
            Refusal::UnknownVertex(_) => Status::UnknownVertex,
            Refusal::TooLongDrawing => Status::Limit,
            Refusal::Eps(_) => Status::Eps,
            Refusal::NotClean(_) => Status::NotClean,
            Refusal::NoOrientation(_) => Status::NoOrientation,
            Refusal::BadRecord(_) => Status::Gml,
            Refusal::TooManyRecords(_) => Status::Limit,
            Refusal::Edit { .. } => Status::Edit,
        }
    }
}

/// Why a run is not done.
#[derive(Debug, Drop)]
pub enum Stop {
    /// The answer is a refusal.
    Refused(Refusal),
    /// A read failed.
    ReadFault,
    /// A write of the output failed.
    WriteFault,
    /// Memory ran out.
    NoMemory,
}

impl From<NoMemory> for Stop {
    ghost use Rattle.std.specs.Prelude.{◌≡◌};
    ghost use Rattle.st_report.specs.declared.stop.Stop.TheVariants.{NoMemory as no_memory};

    ghost from_gives = { λ _ s. s ≡ no_memory };

    fn from(_e: NoMemory) -> Stop {
        Stop::NoMemory
    }
}

impl Stop {
    /// The status that the run ends with.
    pub fn status(&self) -> Status
        ensures { result ≡ stop_status self.now }
    {
        match self {
            Stop::Refused(refusal) => refusal.status(),
            Stop::ReadFault => Status::ReadFault,
            Stop::WriteFault => Status::WriteFault,
            Stop::NoMemory => Status::NoMemory,
        }
    }
}
