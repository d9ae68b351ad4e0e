//! What the run of an integer means.

ghost use Rattle.std.specs.Prelude.{◌≡◌, ◌-◌, ◌^◌, min, if◌then◌else◌, ◌==◌, ◌≤◌, pos, slice_index};
ghost use Rattle.gml_core.specs.Reading.{number, integer};
ghost use Rattle.gml_core.specs.Trees.{fits, int};
ghost use Rattle.std.proofs.Common.{neg_ℤ};

use crate::lexing::unsigned;

fn number(digits: &[u8]) -> u64
    ensures { result ≡ min (number digits.now) (2 ^ 64 - 1) }
{
    let mut n = 0u64;
    for digit in digits {
        n = n
            .saturating_mul(10)
            .saturating_add(u64::from(digit.saturating_sub(b'0')));
    }
    n
}

fn is_negative(run: &[u8]) -> bool
    ensures { result ≡ (slice_index run.now 0 == 45) }
{
    match run {
        [b'-', ..] => true,
        _ => false,
    }
}

fn negated(n: u64) -> Option<i64>
    requires { n ≤ 2 ^ 64 - 1 }
    ensures { result ≡ (if fits (int (neg_ℤ (pos n))) then Some (neg_ℤ (pos n)) else None) }
{
    const LEAST: u64 = 0x8000_0000_0000_0000;
    if n < LEAST {
        Some(-(n as i64))
    } else if n == LEAST {
        Some(i64::MIN)
    } else {
        None
    }
}

fn kept(n: u64) -> Option<i64>
    ensures { result ≡ (if fits (int (pos n)) then Some (pos n) else None) }
{
    i64::try_from(n).ok()
}

/// The integer that the run writes, where it is within 64 bits.
pub fn integer(run: &[u8]) -> Option<i64>
    ensures { result ≡ (if fits (int (integer run.now)) then Some (integer run.now) else None) }
{
    let n = number(unsigned(run));
    if is_negative(run) {
        negated(n)
    } else {
        kept(n)
    }
}
