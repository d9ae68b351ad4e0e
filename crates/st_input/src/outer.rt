//! The outer face, where it is named, and the limits.
ghost use Rattle.st_input.specs.EdgeNames.{known_names};
ghost use Rattle.st_input.specs.Embedding.{written_end, outer_end};
ghost use Rattle.st_input.specs.Faults.{FailsBy};
ghost use Rattle.st_input.specs.FirstFault.{limits_fault, outer_fault, side_fault};
ghost use Rattle.std.specs.Prelude.{◌≡◌, ◌<◌, ◌≤◌, ◌*◌, ◌^◌, length, option_map, None, IfOk, OnOk};

use crate::edges::{EdgeNames, mentioned};
use crate::fault::ShapeFault;
use st_ids::Dart;
use st_parts::parts::{Mention, Outer};

fn side_of(
    names: &EdgeNames,
    at: u32,
    edge: Option<Mention>,
    side: Option<i64>,
) -> Result<Option<Dart>, ShapeFault>
    requires { length (known_names names.now) < 2 ^ 31 }
    ensures value { IfOk result (λ d. option_map (λ e. e.0) d ≡ written_end (known_names names.now) edge side) }
    ensures none { OnOk result (side_fault (known_names names.now) at edge side ≡ None) }
    ensures fault { FailsBy (side_fault (known_names names.now) at edge side) result }
{
    match (edge, side) {
        (Some(mention), Some(side)) => {
            if 0 <= side && side <= 1 {
                let edge = mentioned(names, mention)?;
                Ok(Some(Dart(2 * edge + side.unsigned_abs() as u32)))
            } else {
                Err(ShapeFault::BadOuter { at })
            }
        }
        _ => Err(ShapeFault::BadOuter { at }),
    }
}

/// The end that the pair `outer` names.
pub(crate) fn outer_of(names: &EdgeNames, outer: Option<Outer>) -> Result<Option<Dart>, ShapeFault>
    requires { length (known_names names.now) < 2 ^ 31 }
    ensures value { IfOk result (λ d. option_map (λ e. e.0) d ≡ outer_end (known_names names.now) outer) }
    ensures none { OnOk result (outer_fault (known_names names.now) outer ≡ None) }
    ensures fault { FailsBy (outer_fault (known_names names.now) outer) result }
{
    match outer {
        Some(o) => side_of(names, o.at, o.edge, o.side),
        None => Ok(None),
    }
}

/// Whether the numbers of vertices and edges are at most the limits.
pub(crate) fn limits(n: u32, m: u32, max_vertices: u32, max_edges: u32) -> Result<(), ShapeFault>
    ensures vertices { OnOk result (n ≤ max_vertices) }
    ensures edges { OnOk result (m ≤ max_edges) }
    ensures none { OnOk result (limits_fault n m max_vertices max_edges ≡ None) }
    ensures fault { FailsBy (limits_fault n m max_vertices max_edges) result }
{
    if max_vertices < n {
        return Err(ShapeFault::TooManyVertices { n });
    }
    if max_edges < m {
        return Err(ShapeFault::TooManyEdges { m });
    }
    Ok(())
}
