//! Tests of the graph that is made.
use crate::make;
use rand_core::SeedableRng;
use rand_core::utils::NextWord;
use rand_pcg::Pcg32;
use std::alloc::{AllocError, Global};
use std::test::Fail;

/// The same edges by the plain slow program: the boundary is one list, which is copied for each ear.
fn plain(alloc: Global, n: u32, seed: u64) -> Result<Vec<(u32, u32)>, AllocError> {
    let mut words = Pcg32::seed_from_u64(seed);
    let mut ends = vec![in alloc; (0, 1)]?;
    let mut right: Vec<u32> = vec![in alloc; 0, 1]?;
    let mut count = 2;
    for _ in 0..n {
        if n <= count || right.len() < 2 {
            break;
        }
        let last = right.len() - 1;
        let i = words.next_word() as usize % last;
        let j = i + 1 + words.next_word() as usize % (last - i).min(4);
        let k = (1 + words.next_word() % 3).min(n - count);
        let mut from = right[i];
        let mut next = right[..i + 1].to_vec(alloc)?;
        for v in count..count + k {
            ends.push((from, v))?;
            next.push(v)?;
            from = v;
        }
        ends.push((from, right[j]))?;
        next.extend_from_slice(&right[j..])?;
        right = next;
        count += k;
    }
    Ok(ends)
}

/// The edges of what `make` answers; a number of vertices out of range is moved into it.
fn made(alloc: Global, n: u32, seed: u64) -> Result<Vec<(u32, u32)>, Fail> {
    let spec = make(alloc, n.max(2).min(1000000), seed)?;
    Ok(spec.graph().ends().to_vec(alloc)?)
}

/// A sum in which each edge counts by its place.
fn sum_of(ends: &[(u32, u32)]) -> u32 {
    let mut sum = 0u32;
    let mut place = 1u32;
    for (tail, head) in ends {
        let edge = tail.wrapping_mul(3).wrapping_add(*head);
        sum = sum.wrapping_add(place.wrapping_mul(edge));
        place = place.wrapping_add(1);
    }
    sum
}

#[test]
fn small_graphs_are_known(rt: HostRuntime) -> Result<(), Fail> {
    let alloc = rt.alloc();
    let two = made(alloc, 2, 5)?;
    assert_eq!(rt; two.as_slice(), [(0, 1)].as_slice());
    for seed in 0..20 {
        let three = made(alloc, 3, seed)?;
        assert_eq!(rt;
            three.as_slice(),
            [(0, 1), (0, 2), (2, 1)].as_slice(),
            "seed {seed}"
        );
    }
    Ok(())
}

// The expected edges and sums come from a program in another language, with PCG32 written out by its paper.
#[test]
fn seeds_make_the_edges_of_another_program(rt: HostRuntime) -> Result<(), Fail> {
    let alloc = rt.alloc();
    let twelve = made(alloc, 12, 7)?;
    let start = [
        (0, 1),
        (0, 2),
        (2, 3),
        (3, 1),
        (0, 4),
        (4, 2),
        (0, 5),
        (5, 6),
    ];
    let rest = [
        (6, 7),
        (7, 4),
        (5, 8),
        (8, 9),
        (9, 6),
        (8, 10),
        (10, 11),
        (11, 6),
    ];
    let mut known = start.to_vec(alloc)?;
    known.extend_from_slice(&rest)?;
    assert_eq!(rt; twelve.as_slice(), known.as_slice());
    for (n, seed, edges, sum) in [
        (2000, 1, 3003, 882698734),
        (2000, u64::MAX, 2995, 498990497),
        (20000, 1, 29990, 769266503),
    ] {
        let graph = made(alloc, n, seed)?;
        assert_eq!(rt; graph.len(), edges, "n {n}, seed {seed}");
        assert_eq!(rt; sum_of(&graph), sum, "n {n}, seed {seed}");
    }
    Ok(())
}

#[test]
fn the_boundary_in_chunks_is_one_list(rt: HostRuntime) -> Result<(), Fail> {
    let alloc = rt.alloc();
    for (n, seed) in [(50, 1), (50, 2), (50, 3), (20000, 4)] {
        let graph = made(alloc, n, seed)?;
        let known = plain(alloc, n, seed)?;
        assert_eq!(rt; graph.as_slice(), known.as_slice(), "n {n}, seed {seed}");
    }
    Ok(())
}
