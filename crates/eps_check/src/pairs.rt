//! The least faulty pair of items, by comparing only those whose spans overlap.

ghost use Rattle.std.specs.Prelude.{◌≡◌, ◌≤◌, ◌<◌, ◌^◌, ◌↔◌, IsTrue, All, length};
ghost use Rattle.st_shape.specs.Steps.{IsOrdinary};
ghost use Rattle.eps_check.specs.Pairs.{AreSorted, AreThese, Covers, IsBetterBeside, IsBest, IsBetter, IsSearched, NotLater};

use crate::spans::Span;
use st_shape::{Item, is_faulty_pair};

/// The places of two items, the lower one first.
#[derive(Clone, Copy)]
pub struct Pair {
    pub first: u32,
    pub second: u32,
}

/// The pair of two places.
fn pair_of(a: u32, b: u32) -> Pair
    ensures these { AreThese a b result.first result.second }
    ensures order { result.first ≤ result.second }
{
    if a < b {
        return Pair {
            first: a,
            second: b,
        };
    }
    Pair {
        first: b,
        second: a,
    }
}

/// Whether the best pair so far is not later than this one.
fn is_covered(best: Option<Pair>, pair: Pair) -> bool
    ensures { IsTrue result ↔ Covers best pair.first pair.second }
{
    match best {
        Some(p) => p.first < pair.first || p.first == pair.first && p.second <= pair.second,
        None => false,
    }
}

/// The best pair after that of two items, which are compared only if their pair would come before it.
fn better(items: &[Item], best: Option<Pair>, a: u32, b: u32) -> Option<Pair>
    requires { All (λ e. IsOrdinary e) items.now }
    ensures { IsBetter items.now a b best result }
{
    let pair = pair_of(a, b);
    if is_covered(best, pair) {
        return best;
    }
    let i = pair.first as usize;
    let j = pair.second as usize;
    if i < j && j < items.len() && is_faulty_pair(&items[i], &items[j]) {
        return Some(pair);
    }
    best
}

/// The best pair after the span at `p` was compared with those behind it that it overlaps.
fn best_beside(items: &[Item], spans: &[Span], p: usize, best: Option<Pair>) -> Option<Pair>
    requires ordinary { All (λ e. IsOrdinary e) items.now }
    requires sorted { AreSorted spans.now }
    requires within { p < length spans.now }
    ensures { IsBetterBeside items.now spans.now p (length spans.now) best result }
{
    let s = spans[p];
    let mut found = best;
    for q in p + 1..spans.len() {
        let t = spans[q];
        if s.high < t.low {
            return found;
        }
        found = better(items, found, s.item, t.item);
    }
    found
}

/// The least faulty pair of items whose spans overlap. The spans stand by their low ends.
///
/// Cost: O(n + k) time for n spans and k pairs of them that overlap; no memory. Not proved.
pub fn best_pair(items: &[Item], spans: &[Span]) -> Option<Pair>
    requires ordinary { All (λ e. IsOrdinary e) items.now }
    requires sorted { AreSorted spans.now }
    ensures { IsBest items.now spans.now result }
{
    let mut found = None;
    for p in 0..spans.len() {
        found = best_beside(items, spans, p, found);
    }
    found
}
