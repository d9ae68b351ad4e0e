//! A graph that a program builds edge by edge.
ghost use Rattle.std.specs.Prelude.{◌≡◌, [], ◌∷◌, IfOk, IfSome};
ghost use Rattle.st_map.specs.Orders.{embed};
ghost use Rattle.st_callers.specs.Triangle.{triangle_graph, triangle_orders};

use st_ids::{Digraph, EdgeId, EdgeList, IdVec, NoMemory, VertexId};
use st_map::Map;
use st_test::laws::no_loop;
use st_test::{StGraph, poles, test};
use std::alloc::Global;

// A list of two edges.
fn two(alloc: Global, first: EdgeId, second: EdgeId) -> Result<EdgeList, NoMemory>
    ensures { IfOk result (λ list. list ≡ first.0 ∷ second.0 ∷ []) }
{
    let mut list = EdgeList::new(alloc);
    list.push(first)?;
    list.push(second)?;
    Ok(list)
}

// Three vertices and three edges, and the edges at each vertex, clockwise.
fn parts(alloc: Global) -> Result<(Digraph, IdVec<VertexId, EdgeList>), NoMemory>
    ensures graph { IfOk result (λ parts. parts.0 ≡ triangle_graph) }
    ensures orders { IfOk result (λ parts. parts.1 ≡ triangle_orders) }
{
    let mut graph = Digraph::new(alloc);
    graph.add_vertices(3);
    let low = graph.add_edge(VertexId(0), VertexId(1))?;
    let high = graph.add_edge(VertexId(1), VertexId(2))?;
    let long = graph.add_edge(VertexId(0), VertexId(2))?;
    let mut orders = IdVec::new(alloc);
    orders.push(two(alloc, low, long)?)?;
    orders.push(two(alloc, high, low)?)?;
    orders.push(two(alloc, long, high)?)?;
    Ok((graph, orders))
}

/// A triangle: two edges one behind the other, and one past them on their right. `None` where memory runs out.
pub fn triangle(alloc: Global) -> Option<StGraph>
    ensures { IfSome result (λ st. st.map.graph ≡ embed triangle_graph triangle_orders) }
{
    let Ok((graph, orders)) = parts(alloc) else {
        return None
    };
    let Ok(poles) = poles(alloc, &graph) else {
        return None
    };
    // Without a cycle no edge is a loop, which a map asks for.
    no_loop();
    let Ok(map) = Map::from_orders(alloc, &graph, &orders) else {
        return None
    };
    test(alloc, map, poles, None).ok()
}
