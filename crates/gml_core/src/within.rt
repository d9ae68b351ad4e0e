//! Gaps and tokens that lie within a piece.
//!
//! Most of a text is white space, keys, numbers and brackets that no piece cuts. They need no state.

ghost use Rattle.std.specs.Prelude.{◌≡◌, ◌<◌, ◌≤◌, ◌+◌, ◌^◌, ◌++◌, ◌⊎◌, true, false, pos, List, ℕ, length, drop, take, slice_index, IfSome};
ghost use Rattle.std.specs.List.{prefix_len};
ghost use Rattle.gml_core.specs.Bytes.{is_space, is_word};
ghost use Rattle.gml_core.specs.Pieces.{after_gap, first_of, Closes};
ghost use Rattle.gml_core.specs.Reading.{integer};

use crate::lexing::{is_space, number_kind, run_len, word_len};
use crate::pieces::{First, State, first_of};
use crate::token::TokenKind;

/// How many bytes of white space are at the front.
#[inline(always)]
pub fn spaces(text: &[u8]) -> usize
    requires some { 0 < length text.now }
    requires first { is_space (slice_index text.now 0) ≡ true }
    ensures goes { (at : ℕ) (c : List ℕ) → after_gap false at (text.now ++ c) ≡ after_gap false (at + result) (drop result text.now ++ c) }
    ensures some { 0 < result }
    ensures within { result ≤ length text.now }
{
    let mut n = 1;
    while n < text.len() && is_space(text[n]) {
        n += 1;
    }
    n
}

/// A token at the front of a rest, of so many bytes, which are its text.
#[derive(Clone, Copy, Debug, PartialEq, Eq)]
pub struct Found {
    pub kind: TokenKind,
    pub len: usize,
}

/// The key, number or bracket at the front of a rest, where a byte behind it ends it.
#[inline(always)]
pub fn whole(rest: &[u8]) -> Option<Found>
    requires some { 0 < length rest.now }
    requires solid { is_space (slice_index rest.now 0) ≡ false }
    ensures { IfSome result (λ f. (0 < f.len) × (f.len ≤ length rest.now) × ((at : ℕ) → Closes State.Between at rest.now (record { kind = f.kind; from = at; to = at + f.len }) (take f.len rest.now) f.len)) }
{
    match first_of(rest[0]) {
        First::Letter => {
            let n = word_len(rest);
            if n == rest.len() {
                return None;
            }
            Some(Found {
                kind: TokenKind::Key,
                len: n,
            })
        }
        First::Digit => {
            let n = run_len(rest);
            if n == rest.len() {
                return None;
            }
            match number_kind(&rest[..n]) {
                None => None,
                Some(kind) => Some(Found { kind, len: n }),
            }
        }
        First::Open => Some(Found {
            kind: TokenKind::OpenList,
            len: 1,
        }),
        First::Close => Some(Found {
            kind: TokenKind::CloseList,
            len: 1,
        }),
        First::Quote => None,
        First::Other => None,
    }
}

/// How many bytes of white space are at the front, if any.
#[inline(never)]
pub fn white(text: &[u8]) -> usize
    ensures goes { (at : ℕ) (c : List ℕ) → after_gap false at (text.now ++ c) ≡ after_gap false (at + result) (drop result text.now ++ c) }
    ensures within { result ≤ length text.now }
{
    let mut n = 0;
    while n < text.len() && is_space(text[n]) {
        n += 1;
    }
    n
}

/// The place behind a byte of white space at this place, or the place itself.
#[inline(always)]
pub fn past_one(rest: &[u8], n: usize) -> usize
    requires { n ≤ length rest.now }
    ensures within { result ≤ length rest.now }
    ensures past { (result ≡ n) ⊎ ((result ≡ n + 1) × (n < length rest.now) × (is_space (slice_index rest.now n) ≡ true)) }
{
    if n < rest.len() && is_space(rest[n]) {
        return n + 1;
    }
    n
}

/// How many small letters are at the front, at most 15.
#[inline(always)]
fn small_letters(text: &[u8]) -> usize
    requires { 15 ≤ length text.now }
    ensures word { result + prefix_len is_word (drop result text.now) ≡ prefix_len is_word text.now }
    ensures first { 0 < result → first_of (slice_index text.now 0) ≡ First.Letter }
    ensures most { result ≤ 15 }
{
    let mut n = 0;
    while n < 15 && text[n].is_ascii_lowercase() {
        n += 1;
    }
    n
}

/// As `short_key`, of a key that has more than small letters.
#[inline(never)]
fn other_key(rest: &[u8]) -> usize
    requires { 15 ≤ length rest.now }
    ensures short { result ≤ 14 }
    ensures some { 0 < result → 15 ≤ length rest.now }
    ensures space { 0 < result → is_space (slice_index rest.now result) ≡ true }
    ensures key { 0 < result → (at : ℕ) → Closes State.Between at rest.now (record { kind = TokenKind.Key; from = at; to = at + result }) (take result rest.now) result }
{
    match first_of(rest[0]) {
        First::Letter => {}
        _ => return 0,
    }
    let n = word_len(rest);
    if n > 14 || !is_space(rest[n]) {
        return 0;
    }
    n
}

/// How many bytes the key at the front has, or 0: unless it has at most 14, with white space behind it.
#[inline(always)]
pub fn short_key(rest: &[u8]) -> usize
    ensures short { result ≤ 14 }
    ensures some { 0 < result → 15 ≤ length rest.now }
    ensures space { 0 < result → is_space (slice_index rest.now result) ≡ true }
    ensures key { 0 < result → (at : ℕ) → Closes State.Between at rest.now (record { kind = TokenKind.Key; from = at; to = at + result }) (take result rest.now) result }
{
    if rest.len() < 15 {
        return 0;
    }
    let n = small_letters(rest);
    if n == 15 || !is_space(rest[n]) {
        return other_key(rest);
    }
    n
}

/// An integer without a sign, with the number of its bytes.
#[derive(Clone, Copy, Debug, PartialEq, Eq)]
pub struct ShortInt {
    pub value: u64,
    pub len: usize,
}

/// The integer at the front, or else none, of no bytes: unless it is of at most 9 digits, with white space behind it.
#[inline(always)]
pub fn short_int(rest: &[u8]) -> ShortInt
    ensures within { result.len < length rest.now ⊎ result.len ≡ 0 }
    ensures fits { result.value < 2 ^ 63 }
    ensures space { 0 < result.len → is_space (slice_index rest.now result.len) ≡ true }
    ensures value { 0 < result.len → integer (take result.len rest.now) ≡ pos result.value }
    ensures int { 0 < result.len → (at : ℕ) → Closes State.Between at rest.now (record { kind = TokenKind.Int; from = at; to = at + result.len }) (take result.len rest.now) result.len }
{
    if rest.len() < 10 {
        return ShortInt { value: 0, len: 0 };
    }
    let mut value = 0u64;
    let mut n = 0;
    while n < 9 && rest[n].is_ascii_digit() {
        value = 10 * value + u64::from(rest[n] - b'0');
        n += 1;
    }
    if !is_space(rest[n]) {
        return ShortInt { value: 0, len: 0 };
    }
    ShortInt { value, len: n }
}
