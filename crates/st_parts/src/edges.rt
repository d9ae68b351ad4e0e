//! What a pair `edge` says.
ghost use Rattle.gml_core.specs.Sound.{IsSound};
ghost use Rattle.gml_core.specs.Trees.{listed};
ghost use Rattle.gml_core.specs.Views.{entry_view, view};
ghost use Rattle.st_parts.specs.Kinds.{earlier, edge_wrong, inside};
ghost use Rattle.st_parts.specs.Parts.{edge_in, edge_says, minlen_of as minlen_from};
ghost use Rattle.st_parts.specs.Used.{HasSoundList, datum_of};
ghost use Rattle.std.specs.Prelude.{◌≡◌, option_map};

use crate::firsts::firsts_of;
use crate::kinds::{earlier_of, not_int_of};
use crate::parts::{Edge, Minlen};
use crate::used::{int_of, int_of_first, list_of, place};
use gml_core::{Pair, Tree};

/// An edge, and the least place of a wrong kind.
#[derive(Clone, Copy)]
pub(crate) struct EdgeSaid {
    pub(crate) edge: Edge,
    pub(crate) wrong: Option<u32>,
}

/// The least length of a pair that may be there, where its value is an integer.
fn minlen_of(pair: Option<&Pair>) -> Option<Minlen>
    ensures { result ≡ minlen_from (option_map (λ p. entry_view p.now) pair.entry) }
{
    let pair = pair?;
    let rows = int_of(pair)?;
    Some(Minlen {
        rows,
        at: place(pair),
    })
}

fn edge_at(tree: &Tree) -> EdgeSaid
    requires { IsSound (view tree.now) }
    ensures edge { result.edge ≡ edge_says (listed (view tree.now)) }
    ensures wrong { result.wrong ≡ edge_wrong (listed (view tree.now)) }
{
    let firsts = firsts_of(tree);
    let target = earlier_of(not_int_of(firsts.target), not_int_of(firsts.minlen));
    let ends = earlier_of(not_int_of(firsts.source), target);
    let edge = Edge {
        id: int_of_first(firsts.id),
        source: int_of_first(firsts.source),
        target: int_of_first(firsts.target),
        minlen: minlen_of(firsts.minlen),
    };
    EdgeSaid {
        edge,
        wrong: earlier_of(not_int_of(firsts.id), ends),
    }
}

/// The edge of a pair.
pub(crate) fn edge_of(pair: &Pair) -> EdgeSaid
    requires { HasSoundList (datum_of (entry_view pair.now)) }
    ensures edge { result.edge ≡ edge_in (entry_view pair.now) }
    ensures wrong { result.wrong ≡ inside edge_wrong (entry_view pair.now) }
{
    match list_of(pair) {
        Some(tree) => edge_at(tree),
        None => EdgeSaid {
            edge: Edge {
                id: None,
                source: None,
                target: None,
                minlen: None,
            },
            wrong: Some(place(pair)),
        },
    }
}
