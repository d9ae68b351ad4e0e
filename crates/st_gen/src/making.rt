//! The graph that grows by ears along its right boundary.
ghost use Rattle.st_gen.specs.Made.{range, ear_edges, IsMade};
ghost use Rattle.st_input.specs.InputGraph.{IsConsistent};
ghost use Rattle.st_input.specs.Plain.{plain_graph};
ghost use Rattle.std.specs.Prelude.{◌≡◌, ◌<◌, ◌≤◌, ◌+◌, ◌*◌, ◌^◌, ◌++◌, length, take, drop, OnOk, IfOk};

use crate::row::Row;
use rand_core::SeedableRng;
use rand_core::utils::NextWord;
use rand_pcg::Pcg32;
use st_ids::{Digraph, NoMemory, VertexId};
use st_input::GraphSpec;
use std::alloc::Global;

/// Adds the edges of a path from a vertex through new vertices to another.
fn add_ear(graph: &mut Digraph, from: u32, first: u32, many: u32, to: u32) -> Result<(), NoMemory>
    requires from { from < first }
    requires to { to < first }
    requires there { first + many ≤ graph.old.vertices }
    requires few { graph.old.vertices < 2 ^ 30 }
    requires room { length graph.old.ends + many + 1 < 2 ^ 30 }
    ensures vertices { graph.new.vertices ≡ graph.old.vertices }
    ensures edges { OnOk result (graph.new.ends ≡ graph.old.ends ++ ear_edges from first many to) }
{
    let mut last = from;
    for v in first..first + many {
        graph.add_edge(VertexId(last), VertexId(v))?;
        last = v;
    }
    graph.add_edge(VertexId(last), VertexId(to))?;
    Ok(())
}

/// Replaces the places from one up to before another by new vertices. Errors: `NoMemory`; the row is of no more use.
fn replace(row: &mut Row, at: usize, end: usize, first: u32, many: u32) -> Result<(), NoMemory>
    requires order { at ≤ end }
    requires within { end < length row.old }
    requires room { length row.old + many < 2 ^ 32 }
    requires fits { first + many < 2 ^ 32 }
    ensures { OnOk result (row.new ≡ take at row.old ++ (range first many ++ drop end row.old)) }
{
    for _ in at..end {
        row.remove(at);
    }
    for k in 0..many {
        row.insert(at, first + (many - 1 - k))?;
    }
    Ok(())
}

/// The digraph: ears are added along its right boundary until it has all vertices.
fn made_graph(alloc: Global, n: u32, seed: u64) -> Result<Digraph, NoMemory>
    requires least { 2 ≤ n }
    requires most { n ≤ 1000000 }
    ensures vertices { IfOk result (λ g. g.vertices ≡ n) }
    ensures edges { IfOk result (λ g. IsMade n seed g.ends) }
    ensures few { IfOk result (λ g. length g.ends + 3 ≤ 2 * n) }
{
    let mut graph = Digraph::new(alloc);
    graph.add_vertices(n);
    graph.add_edge(VertexId(0), VertexId(1))?;
    let mut right = Row::of_two(alloc, 0, 1)?;
    let mut words = Pcg32::seed_from_u64(seed);
    let mut count = 2;
    while count < n {
        let last = right.len() - 1;
        let i = words.next_word() as usize % last;
        let j = i + 1 + words.next_word() as usize % (last - i).min(4);
        let k = (1 + words.next_word() % 3).min(n - count);
        add_ear(&mut graph, right.get(i), count, k, right.get(j))?;
        replace(&mut right, i + 1, j, count, k)?;
        count += k;
    }
    Ok(graph)
}

/// The graph of n vertices and a seed, as if it came from a file with its vertices named 1, 2 and on, and with nothing else but
/// its edges.
///
/// Shape: the first vertex is the source and the second the sink; it passes each test of a planar st-graph, by the law
/// `plain_accepted`.
/// Errors: `NoMemory`; nothing is kept.
/// Cost: at most n - 2 ears. An ear looks at the lengths of at most 1 + n / 512 chunks of the boundary, and moves at most
/// 1,024 numbers for each place that it takes out or puts in, of which there are at most six. Up to 1,000,000 vertices the time
/// grows about as n does. Not proved.
pub fn make(alloc: Global, n: u32, seed: u64) -> Result<GraphSpec, NoMemory>
    requires least { 2 ≤ n }
    requires most { n ≤ 1000000 }
    ensures vertices { IfOk result (λ s. s.graph.vertices ≡ n) }
    ensures edges { IfOk result (λ s. IsMade n seed s.graph.ends) }
    ensures few { IfOk result (λ s. length s.graph.ends + 3 ≤ 2 * n) }

    // Names and orders are those of a file that has nothing but vertices and edges.
    ensures plain { IfOk result (λ s. s ≡ plain_graph s.graph) }
    ensures consistent { IfOk result IsConsistent }
{
    let graph = made_graph(alloc, n, seed)?;
    GraphSpec::plain(alloc, graph)
}
