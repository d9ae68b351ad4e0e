//! The written paths, by the names of their edges.
ghost use Rattle.st_input.specs.EdgeNames.{known_names};
ghost use Rattle.st_input.specs.Paths.{PathsFailBy, edge_by, edges_by, first_unknown, name_fault, path_fault, paths_by};
ghost use Rattle.std.specs.Prelude.{◌≡◌, ◌<◌, ◌^◌, length, None, IfOk, OnOk};

use crate::edges::{EdgeNames, edge_of};
use crate::fault::PathNameFault;
use sqlite_items::Items;
use st_ids::{EdgeId, EdgeList, PathList};
use std::alloc::Global;

fn named_edge(names: &EdgeNames, path: u32, name: i64) -> Result<EdgeId, PathNameFault>
    requires { length (known_names names.now) < 2 ^ 32 }
    ensures edge { IfOk result (λ e. e.0 ≡ edge_by (known_names names.now) name) }
    ensures known { OnOk result (name_fault (known_names names.now) path name ≡ None) }
    ensures fault { PathsFailBy (name_fault (known_names names.now) path name) result }
{
    match edge_of(names, name) {
        Some(n) => Ok(EdgeId(n)),
        None => Err(PathNameFault::UnknownEdge { path, name }),
    }
}

fn path_of(
    alloc: Global,
    names: &EdgeNames,
    i: u32,
    path: &[i64],
) -> Result<EdgeList, PathNameFault>
    requires { length (known_names names.now) < 2 ^ 32 }
    ensures edges { IfOk result (λ es. es ≡ edges_by (known_names names.now) path.now) }
    ensures known { OnOk result (path_fault (known_names names.now) i path.now ≡ None) }
    ensures fault { PathsFailBy (path_fault (known_names names.now) i path.now) result }
{
    let mut edges = EdgeList::new(alloc);
    for name in path {
        let edge = named_edge(names, i, *name)?;
        edges.push(edge)?;
    }
    Ok(edges)
}

/// The edges of each path, or the first name that no edge has.
pub(crate) fn paths_of(
    alloc: Global,
    names: &EdgeNames,
    paths: &[Items<i64>],
) -> Result<PathList, PathNameFault>
    requires names { length (known_names names.now) < 2 ^ 32 }
    requires paths { length paths.now < 2 ^ 31 }
    ensures paths { IfOk result (λ ps. ps ≡ paths_by (known_names names.now) paths.now) }
    ensures known { OnOk result (first_unknown (known_names names.now) 0 paths.now ≡ None) }
    ensures fault { PathsFailBy (first_unknown (known_names names.now) 0 paths.now) result }
{
    let mut out = PathList::new(alloc);
    for (i, path) in paths.iter().enumerate() {
        let edges = path_of(alloc, names, i as u32, path.as_slice())?;
        out.push(edges)?;
    }
    Ok(out)
}
