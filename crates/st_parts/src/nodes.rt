//! What a pair `node` says.
ghost use Rattle.gml_core.specs.Sound.{IsSound};
ghost use Rattle.gml_core.specs.Trees.{listed};
ghost use Rattle.gml_core.specs.Views.{entry_view, view};
ghost use Rattle.st_parts.specs.Kinds.{earlier, inside, node_wrong};
ghost use Rattle.st_parts.specs.Parts.{label_in, label_says, node_in, node_says};
ghost use Rattle.st_parts.specs.Used.{HasSoundList, datum_of};
ghost use Rattle.std.specs.Prelude.{◌≡◌, IfOk};

use crate::firsts::firsts_of;
use crate::kinds::{earlier_of, not_int_of};
use crate::labels::label_of;
use crate::mentions::order_of;
use crate::parts::Node;
use crate::used::{int_of_first, list_of, place};
use gml_core::{Pair, Tree};
use st_ids::{NoMemory, Text};
use std::alloc::Global;

/// A node with its label, and the least place of a wrong kind.
#[derive(Drop)]
pub(crate) struct NodeSaid {
    pub(crate) node: Node,
    pub(crate) label: Option<Text>,
    pub(crate) wrong: Option<u32>,
}

fn node_at(alloc: Global, at: u32, tree: &Tree) -> Result<NodeSaid, NoMemory>
    requires { IsSound (view tree.now) }
    ensures node { IfOk result (λ n. n.node ≡ node_says at (listed (view tree.now))) }
    ensures label { IfOk result (λ n. n.label ≡ label_says (listed (view tree.now))) }
    ensures wrong { IfOk result (λ n. n.wrong ≡ node_wrong (listed (view tree.now))) }
{
    let firsts = firsts_of(tree);
    let said = order_of(alloc, firsts.order)?;
    let label = label_of(alloc, firsts.label)?;
    let wrong = earlier_of(not_int_of(firsts.id), said.wrong);
    let node = Node {
        at,
        id: int_of_first(firsts.id),
        order: said.order,
    };
    Ok(NodeSaid { node, label, wrong })
}

/// The node of a pair.
pub(crate) fn node_of(alloc: Global, pair: &Pair) -> Result<NodeSaid, NoMemory>
    requires { HasSoundList (datum_of (entry_view pair.now)) }
    ensures node { IfOk result (λ n. n.node ≡ node_in (entry_view pair.now)) }
    ensures label { IfOk result (λ n. n.label ≡ label_in (entry_view pair.now)) }
    ensures wrong { IfOk result (λ n. n.wrong ≡ inside node_wrong (entry_view pair.now)) }
{
    match list_of(pair) {
        Some(tree) => node_at(alloc, place(pair), tree),
        None => Ok(NodeSaid {
            node: Node {
                at: place(pair),
                id: None,
                order: None,
            },
            label: None,
            wrong: Some(place(pair)),
        }),
    }
}
