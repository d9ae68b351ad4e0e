//! The end of a list's entry at the list's vertex, and the entry behind it.
ghost use Rattle.std.specs.Prelude.{◌≡◌, ◌*◌, ◌<◌, ◌^◌, length};
ghost use Rattle.st_map.specs.Orders.{end_at};
ghost use Rattle.st_map.specs.Tables.{place_after};

/// The place after k in a cyclic list.
pub fn following(k: usize, len: usize) -> usize
    requires { k < len }
    ensures value { result ≡ place_after len k }
    ensures within { result < len }
{
    if k + 1 < len { k + 1 } else { 0 }
}

/// The end of the edge at v.
#[tactic(auto, unfolding(st_ids::specs::Graph::tail_of))]
pub fn end_of(ends: &[(u32, u32)], e: u32, v: u32) -> u32
    requires there { e < length ends.now }
    requires few { length ends.now < 2 ^ 30 }
    ensures value { result ≡ end_at ends.now v e }
    ensures within { result < 2 * length ends.now }
{
    if ends[e as usize].0 == v {
        2 * e
    } else {
        2 * e + 1
    }
}
