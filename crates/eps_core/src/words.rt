//! What stands in a line: words, each after one space, numbers and points.
//!
//! Nothing is checked here: a word that is no number stands for 0.
ghost use Rattle.std.specs.Prelude.{◌≡◌, ◌==◌, ◌≤◌, length};
ghost use Rattle.std.specs.Int.RustNames.{unsigned_abs};
ghost use Rattle.std.specs.List.{position_or_len};
ghost use Rattle.eps_core.specs.Decoding.{first_word, behind_word, value_from, plus as plus_of, minus as minus_of, signed_value, grid_of, decoded_point, past_place, past_step as past_step_of, number_32};

use st_shape::Point;

// How many bytes stand before the first space.
fn space(s: &[u8]) -> usize
    ensures place { result ≡ position_or_len (λ b. b == 32) s.now }
    ensures bound { result ≤ length s.now }
{
    let mut n = 0;
    while n < s.len() && s[n] != b' ' {
        n += 1;
    }
    n
}

/// The bytes before the first space.
#[tactic(auto, unfolding(crate::specs::Decoding::first_word))]
pub fn word(s: &[u8]) -> &[u8]
    ensures { result.now ≡ first_word s.now }
{
    &s[..space(s)]
}

/// The bytes behind the first space.
#[tactic(auto, unfolding(crate::specs::Decoding::behind_word))]
pub fn behind(s: &[u8]) -> &[u8]
    ensures { result.now ≡ behind_word s.now }
{
    let n = space(s);
    if n < s.len() { &s[n + 1..] } else { &s[n..] }
}

// The number that these digits spell. None at another byte, and for 10^19 and more.
fn digits(s: &[u8]) -> Option<u64>
    ensures { result ≡ value_from 0 s.now }
{
    let mut value = 0;
    for b in s {
        if !b.is_ascii_digit() || value >= 1_000_000_000_000_000_000 {
            return None;
        }
        value = 10 * value + (*b - b'0') as u64;
    }
    Some(value)
}

// The number, if it fits.
fn plus(value: Option<u64>) -> i64
    ensures { result ≡ plus_of value }
{
    match value {
        Some(v) if v < 1 << 63 => v as i64,
        _ => 0,
    }
}

// The negative number, if it fits.
fn minus(value: Option<u64>) -> i64
    ensures { result ≡ minus_of value }
{
    match value {
        Some(v) if v <= 1 << 63 => (-(v as i128)) as i64,
        _ => 0,
    }
}

/// The number that these bytes spell.
#[tactic(auto, unfolding(crate::specs::Decoding::signed_value))]
pub fn number(s: &[u8]) -> i64
    ensures { result ≡ signed_value s.now }
{
    if !s.is_empty() && s[0] == b'-' {
        return minus(digits(&s[1..]));
    }
    plus(digits(s))
}

/// The number below 2^32 that these bytes spell.
#[tactic(auto, unfolding(crate::specs::Decoding::number_32))]
pub fn small_number(s: &[u8]) -> u32
    ensures { result ≡ number_32 s.now }
{
    let n = number(s).unsigned_abs();
    if n < 1 << 32 { n as u32 } else { 0 }
}

// The step of the grid that is printed so.
fn grid(margin: u64, n: i64) -> i64
    ensures { result ≡ grid_of margin n }
{
    (n.unsigned_abs().saturating_sub(margin) / 24) as i64
}

/// The point whose two coordinates come next.
#[tactic(auto, unfolding(crate::specs::Decoding::decoded_point))]
pub fn place(margin: u64, s: &[u8]) -> Point
    ensures { result ≡ decoded_point margin s.now }
{
    Point {
        x: grid(margin, number(word(s))),
        y: grid(margin, number(word(behind(s)))),
    }
}

/// What is behind a point and a command.
#[tactic(auto, unfolding(crate::specs::Decoding::past_step, crate::specs::Decoding::past_place))]
pub fn past_step(s: &[u8]) -> &[u8]
    ensures { result.now ≡ past_step_of s.now }
{
    behind(behind(behind(s)))
}
