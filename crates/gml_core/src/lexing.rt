//! Kinds of bytes, and how long what they begin is.
//!
//! Each function looks at a slice from its front on. What a token is stands in `specs/Lexing.antt`.

ghost use Rattle.std.specs.Prelude.{◌≡◌, ◌≢◌, ◌<◌, ◌≤◌, ◌+◌, ◌^◌, length, IfSome, position, ◌==◌};
ghost use Rattle.std.specs.List.{prefix_len};
ghost use Rattle.gml_core.specs.Bytes as spec;

use crate::token::{Token, TokenKind};
use std::marker::Model;

pub fn is_space(b: u8) -> bool
    ensures { result ≡ spec.is_space b }
{
    b == b' ' || (9 <= b && b <= 13)
}

pub fn ends_line(b: u8) -> bool
    ensures { result ≡ spec.ends_line b }
{
    b == b'\n' || b == b'\r'
}

fn is_word(b: u8) -> bool
    ensures { result ≡ spec.is_word b }
{
    b.is_ascii_alphanumeric() || b == b'_'
}

fn is_sign(b: u8) -> bool
    ensures { result ≡ spec.is_sign b }
{
    b == b'+' || b == b'-'
}

pub fn begins_number(b: u8) -> bool
    ensures { result ≡ spec.begins_number b }
{
    b.is_ascii_digit() || is_sign(b) || b == b'.'
}

fn is_numeric(b: u8) -> bool
    ensures { result ≡ spec.is_numeric b }
{
    begins_number(b) || b == b'e' || b == b'E'
}

fn digits(text: &[u8]) -> usize
    ensures value { result ≡ spec.digits text.now }
    ensures within { result ≤ length text.now }
{
    let mut n = 0;
    while n < text.len() && text[n].is_ascii_digit() {
        n += 1;
    }
    n
}

pub fn word_len(text: &[u8]) -> usize
    ensures value { result ≡ prefix_len spec.is_word text.now }
    ensures within { result ≤ length text.now }
{
    let mut n = 0;
    while n < text.len() && is_word(text[n]) {
        n += 1;
    }
    n
}

pub fn run_len(text: &[u8]) -> usize
    ensures value { result ≡ prefix_len spec.is_numeric text.now }
    ensures within { result ≤ length text.now }
{
    let mut n = 0;
    while n < text.len() && is_numeric(text[n]) {
        n += 1;
    }
    n
}

pub fn unsigned(run: &[u8]) -> &[u8]
    ensures { result.now ≡ spec.unsigned run.now }
{
    match run {
        [b, rest @ ..] if is_sign(*b) => rest,
        _ => run,
    }
}

fn are_digits(text: &[u8]) -> bool
    ensures { result ≡ spec.are_digits text.now }
{
    !text.is_empty() && digits(text) == text.len()
}

fn is_exponent(text: &[u8]) -> bool
    ensures { result ≡ spec.is_exponent text.now }
{
    match text {
        [] => false,
        [b, rest @ ..] => (*b == b'e' || *b == b'E') && are_digits(unsigned(rest)),
    }
}

fn may_end(text: &[u8]) -> bool
    ensures { result ≡ spec.may_end text.now }
{
    text.is_empty() || is_exponent(text)
}

fn behind_digits(n: usize, text: &[u8]) -> Option<TokenKind>
    requires { n + length text.now < 2 ^ 64 }
    ensures value { result ≡ spec.behind_digits n text.now }
    ensures kind { IfSome result (λ k. k ≢ TokenKind.Str) }
{
    match text {
        [] => { if 0 < n { Some(TokenKind::Int) } else { None } }
        [b'.', rest @ ..] => {
            let more = digits(rest);
            if 0 < n + more && may_end(&rest[more..]) {
                Some(TokenKind::Real)
            } else {
                None
            }
        }
        [_, ..] => {
            if 0 < n && is_exponent(text) {
                Some(TokenKind::Real)
            } else {
                None
            }
        }
    }
}

#[tactic(auto, unfolding(crate::specs::Bytes::number_kind))]
pub fn number_kind(run: &[u8]) -> Option<TokenKind>
    ensures value { result ≡ spec.number_kind run.now }
    ensures kind { IfSome result (λ k. k ≢ TokenKind.Str) }
{
    let text = unsigned(run);
    let n = digits(text);
    behind_digits(n, &text[n..])
}

/// Where the next quote is.
pub fn quote_at(text: &[u8]) -> Option<usize>
    ensures value { result ≡ position (λ x. x == 34) text.now }
    ensures within { IfSome result (λ n. n < length text.now) }
{
    text.iter().position(|b| *b == b'"')
}

/// The tokens of bytes. A contract sees their list.
#[derive(Debug, Drop)]
pub struct Tokens {
    items: Vec<Token>,
}

impl Model for Tokens {
    ghost use Rattle.std.specs.Prelude.{List};
    ghost use Rattle.gml_core.specs.declared.token.Token.{Token};

    ghost Value = { List Token };

    ghost view = { λ t. t.items.items };
}

impl Tokens {
    /// All tokens, in order.
    pub fn items(&self) -> &[Token]
        ensures { result.now ≡ self.now }
    {
        self.items.as_slice()
    }
}

pub fn make_tokens(items: Vec<Token>) -> Tokens
    ensures { result ≡ items.items }
{
    Tokens { items }
}
