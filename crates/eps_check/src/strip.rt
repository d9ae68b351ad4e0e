//! Strips: what lies between two straight lines over a range of heights, and when one strip is left of another.

ghost use Rattle.std.specs.Prelude.{◌≡◌, ◌+◌, ◌-◌, ◌*◌, ◌<◌, ◌≤◌, ◌↔◌, IsTrue};
ghost use Rattle.eps_check.specs.Strips.{depth, left_at, PassesTest, right_at};

/// The points between two straight lines, in some cells of height.
///
/// The lines are given at the heights `base` and `top`: the left one goes from `left_low` to `left_high`, the right one from
/// `right_low` to `right_high`. The cell 2k is the height k, and the cell 2k + 1 is what lies between the heights k and k + 1.
/// The strip has the cells from `from` to `to`, without `to`.
#[derive(Clone, Copy)]
pub struct Strip {
    pub item: u32,
    pub rank: u32,
    pub base: u32,
    pub top: u32,
    pub left_low: u32,
    pub left_high: u32,
    pub right_low: u32,
    pub right_high: u32,
    pub from: u32,
    pub to: u32,
}

/// The place of a line at the height `y`, times `top - base`, where it goes from `low` at `base` to `high` at `top`.
fn place_at(base: u32, top: u32, low: u32, high: u32, y: u32) -> u64
    requires base { base ≤ y }
    requires top { y ≤ top }
    ensures { result ≡ (top - y) * low + (y - base) * high }
{
    u64::from(top - y) * u64::from(low) + u64::from(y - base) * u64::from(high)
}

/// Whether the strip `s` lies left of the strip `t` in each cell from `lo` to `hi`, without `hi`.
pub fn is_left(s: &Strip, t: &Strip, lo: u32, hi: u32) -> bool
    ensures { IsTrue result → PassesTest s.now t.now lo hi }
{
    let a = lo / 2;
    let b = hi / 2;
    if a < s.base || a < t.base || s.top < b || t.top < b || b < a {
        return false;
    }
    let s_depth = u128::from(s.top - s.base);
    let t_depth = u128::from(t.top - t.base);
    let low = u128::from(place_at(s.base, s.top, s.right_low, s.right_high, a)) * t_depth;
    let low_other = u128::from(place_at(t.base, t.top, t.left_low, t.left_high, a)) * s_depth;
    let high = u128::from(place_at(s.base, s.top, s.right_low, s.right_high, b)) * t_depth;
    let high_other = u128::from(place_at(t.base, t.top, t.left_low, t.left_high, b)) * s_depth;
    if low_other < low || high_other < high {
        return false;
    }
    if low == low_other {
        return lo % 2 == 1 && high < high_other;
    }
    high < high_other || hi % 2 == 0
}
