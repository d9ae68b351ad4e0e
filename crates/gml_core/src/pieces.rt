//! Looks at bytes that come in pieces.
//!
//! A `State` says what is being read where a piece ends. One look at the rest of a piece takes at least one byte of it. A token
//! that lies within the rest is told without a copy; one that the rest's end cuts is held.

ghost use Rattle.std.specs.Prelude.{◌≡◌, ◌<◌, ◌≤◌, ◌+◌, ◌^◌, ◌++◌, ◌∷◌, [], List, ℕ, length, drop, None, Some, Err, IfOk, IfErr, if◌then◌else◌, ◌==◌};
ghost use Rattle.gml_core.specs.declared.fault.GmlFault.{GmlFault};
ghost use Rattle.gml_core.specs.Lexing.{found, token_at};
ghost use Rattle.gml_core.specs.Pieces.{after_gap, gap_step, first_of, held_of, coming, IsPlaced, IsLast, Sees, text_of};

use crate::fault::GmlFault;
use crate::lexing::{begins_number, ends_line, is_space, number_kind, quote_at, run_len, word_len};
use crate::token::{Token, TokenKind};
use st_ids::{NoMemory, Text};
use std::alloc::Global;

/// A token of more than one byte, by its beginning.
#[derive(Clone, Copy, Debug, PartialEq, Eq)]
pub enum Run {
    Key,
    Number,
    Quoted,
}

/// What is being read.
#[derive(Drop)]
pub enum State {
    Start,
    MarkOne,
    MarkTwo,
    Between,
    Comment,
    /// A token that begins at a place, with the bytes of it that are read, a string's quote not among them.
    Inside { run: Run, from: u32, held: Text },
    Failed { fault: GmlFault },
}

/// What one look at a rest says.
#[derive(Drop)]
pub enum Seen {
    /// So many bytes are taken.
    More {
        state: State,
        taken: usize,
    },
    /// A token ends: its text is what is held or, where nothing is, the first bytes of the rest.
    Whole {
        token: Token,
        held: Text,
        part: usize,
        taken: usize,
    },
}

/// What a token's first byte says.
#[derive(Clone, Copy, Debug, PartialEq, Eq)]
pub enum First {
    Open,
    Close,
    Quote,
    Letter,
    Digit,
    Other,
}

pub fn first_of(b: u8) -> First
    ensures { result ≡ first_of b }
{
    if b == b'[' {
        First::Open
    } else if b == b']' {
        First::Close
    } else if b == b'"' {
        First::Quote
    } else if b.is_ascii_alphabetic() {
        First::Letter
    } else if begins_number(b) {
        First::Digit
    } else {
        First::Other
    }
}

fn gap_state(comment: bool) -> State
    ensures { result ≡ (if comment then State.Comment else State.Between) }
{
    if comment {
        State::Comment
    } else {
        State::Between
    }
}

/// How many bytes of a gap are at a front, and whether a comment is open behind them.
#[derive(Drop)]
struct Skipped {
    count: usize,
    comment: bool,
}

/// Whether a comment is open behind this byte of a gap.
fn gap_step(comment: bool, b: u8) -> Option<bool>
    ensures { result ≡ gap_step comment b }
{
    if comment {
        Some(!ends_line(b))
    } else if is_space(b) {
        Some(false)
    } else if b == b'#' {
        Some(true)
    } else {
        None
    }
}

fn skip(comment: bool, text: &[u8]) -> Skipped
    ensures goes { (at : ℕ) (c : List ℕ) → after_gap comment at (text.now ++ c) ≡ after_gap result.comment (at + result.count) (drop result.count text.now ++ c) }
    ensures solid { result.count < length text.now
        → (at : ℕ) (c : List ℕ) → after_gap result.comment at (drop result.count text.now ++ c) ≡ found (token_at at (drop result.count text.now ++ c)) }
    ensures within { result.count ≤ length text.now }
{
    let mut open = comment;
    let mut n = 0;
    while n < text.len() {
        match gap_step(open, text[n]) {
            None => {
                break;
            }
            Some(now) => {
                open = now;
                n += 1;
            }
        }
    }
    Skipped {
        count: n,
        comment: open,
    }
}

/// The text of a token.
pub fn text_of<'a>(held: &'a Text, part: &'a [u8]) -> &'a [u8]
    ensures { result.now ≡ text_of held.now part.now }
{
    let bytes = held.bytes();
    if bytes.is_empty() { part } else { bytes }
}

/// What is held of a token, with its last part where some bytes are held.
fn ended(held: Text, part: &[u8]) -> Result<Text, NoMemory>
    ensures { IfOk result (λ t. text_of t part.now ≡ held ++ part.now) }
{
    let mut held = held;
    if !held.bytes().is_empty() {
        held.append(part)?;
    }
    Ok(held)
}

fn key(from: u32, held: Text, at: u32, rest: &[u8]) -> Result<Seen, NoMemory>
    requires placed { at ≡ from + 0 + length held }
    requires some { 0 < length rest.now }
    requires fits { at + length rest.now < 2 ^ 32 }
    ensures { IfOk result (Sees (State.Inside Run.Key from held) at rest.now) }
{
    let n = word_len(rest);
    if n == rest.len() {
        let mut held = held;
        held.append(rest)?;
        return Ok(Seen::More {
            state: State::Inside {
                run: Run::Key,
                from,
                held,
            },
            taken: n,
        });
    }
    let held = ended(held, &rest[..n])?;
    Ok(Seen::Whole {
        token: Token {
            kind: TokenKind::Key,
            from,
            to: at + n as u32,
        },
        held,
        part: n,
        taken: n,
    })
}

fn number(from: u32, held: Text, at: u32, rest: &[u8]) -> Result<Seen, NoMemory>
    requires placed { at ≡ from + 0 + length held }
    requires some { 0 < length rest.now }
    requires fits { at + length rest.now < 2 ^ 32 }
    ensures { IfOk result (Sees (State.Inside Run.Number from held) at rest.now) }
{
    let n = run_len(rest);
    if n == rest.len() {
        let mut held = held;
        held.append(rest)?;
        return Ok(Seen::More {
            state: State::Inside {
                run: Run::Number,
                from,
                held,
            },
            taken: n,
        });
    }
    let held = ended(held, &rest[..n])?;
    match number_kind(text_of(&held, &rest[..n])) {
        Some(kind) => Ok(Seen::Whole {
            token: Token {
                kind,
                from,
                to: at + n as u32,
            },
            held,
            part: n,
            taken: n,
        }),
        None => Ok(Seen::More {
            state: State::Failed {
                fault: GmlFault::BadNumber { at: from },
            },
            taken: rest.len(),
        }),
    }
}

fn quoted(from: u32, held: Text, at: u32, rest: &[u8]) -> Result<Seen, NoMemory>
    requires placed { at ≡ from + 1 + length held }
    requires some { 0 < length rest.now }
    requires fits { at + length rest.now < 2 ^ 32 }
    ensures { IfOk result (Sees (State.Inside Run.Quoted from held) at rest.now) }
{
    match quote_at(rest) {
        None => {
            let mut held = held;
            held.append(rest)?;
            Ok(Seen::More {
                state: State::Inside {
                    run: Run::Quoted,
                    from,
                    held,
                },
                taken: rest.len(),
            })
        }
        Some(n) => {
            let held = ended(held, &rest[..n])?;
            Ok(Seen::Whole {
                token: Token {
                    kind: TokenKind::Str,
                    from,
                    to: at + n as u32 + 1,
                },
                held,
                part: n,
                taken: n + 1,
            })
        }
    }
}

/// A token of one byte.
fn bracket(alloc: Global, kind: TokenKind, at: u32) -> Seen
    requires { at + 1 < 2 ^ 32 }
    ensures { result ≡ Seen.Whole (record { kind = kind; from = at; to = at + 1 }) [] 1 1 }
{
    Seen::Whole {
        token: Token {
            kind,
            from: at,
            to: at + 1,
        },
        held: Text::new(alloc),
        part: 1,
        taken: 1,
    }
}

/// Begins a token.
fn begin(alloc: Global, at: u32, rest: &[u8]) -> Result<Seen, NoMemory>
    requires some { 0 < length rest.now }
    requires fits { at + length rest.now < 2 ^ 32 }
    ensures { (s : State) → held_of s ≡ [] → ((c : List ℕ) → coming s at (rest.now ++ c) ≡ found (token_at at (rest.now ++ c)))
        → IfOk result (Sees s at rest.now) }
{
    match first_of(rest[0]) {
        First::Open => Ok(bracket(alloc, TokenKind::OpenList, at)),
        First::Close => Ok(bracket(alloc, TokenKind::CloseList, at)),
        First::Quote => Ok(Seen::More {
            state: State::Inside {
                run: Run::Quoted,
                from: at,
                held: Text::new(alloc),
            },
            taken: 1,
        }),
        First::Letter => key(at, Text::new(alloc), at, rest),
        First::Digit => number(at, Text::new(alloc), at, rest),
        First::Other => Ok(Seen::More {
            state: State::Failed {
                fault: GmlFault::BadByte { at },
            },
            taken: rest.len(),
        }),
    }
}

/// Looks on in a gap.
fn gap(alloc: Global, comment: bool, at: u32, rest: &[u8]) -> Result<Seen, NoMemory>
    requires some { 0 < length rest.now }
    requires fits { at + length rest.now < 2 ^ 32 }
    ensures { (s : State) → held_of s ≡ [] → ((c : List ℕ) → coming s at (rest.now ++ c) ≡ after_gap comment at (rest.now ++ c))
        → IfOk result (Sees s at rest.now) }
{
    let skipped = skip(comment, rest);
    if skipped.count == 0 {
        return begin(alloc, at, rest);
    }
    Ok(Seen::More {
        state: gap_state(skipped.comment),
        taken: skipped.count,
    })
}

/// One byte of a mark, or the fault that it is not there.
fn mark(b: u8, wanted: u8, next: State, rest: &[u8]) -> Seen
    ensures { result ≡ (if b == wanted then Seen.More next 1 else Seen.More (State.Failed (GmlFault.BadByte 0)) (length rest.now)) }
{
    if b == wanted {
        Seen::More {
            state: next,
            taken: 1,
        }
    } else {
        Seen::More {
            state: State::Failed {
                fault: GmlFault::BadByte { at: 0 },
            },
            taken: rest.len(),
        }
    }
}

/// Looks at the rest of a piece, which lies at a place.
pub fn look(alloc: Global, state: State, at: u32, rest: &[u8]) -> Result<Seen, NoMemory>
    requires placed { IsPlaced state at }
    requires some { 0 < length rest.now }
    requires fits { at + length rest.now < 2 ^ 32 }
    ensures { IfOk result (Sees state at rest.now) }
{
    match state {
        State::Start => {
            if rest[0] == 0xef {
                Ok(Seen::More {
                    state: State::MarkOne,
                    taken: 1,
                })
            } else {
                gap(alloc, false, at, rest)
            }
        }
        State::MarkOne => Ok(mark(rest[0], 0xbb, State::MarkTwo, rest)),
        State::MarkTwo => Ok(mark(rest[0], 0xbf, State::Between, rest)),
        State::Between => gap(alloc, false, at, rest),
        State::Comment => gap(alloc, true, at, rest),
        State::Inside { run, from, held } => match run {
            Run::Key => key(from, held, at, rest),
            Run::Number => number(from, held, at, rest),
            Run::Quoted => quoted(from, held, at, rest),
        },
        State::Failed { fault } => Ok(Seen::More {
            state: State::Failed { fault },
            taken: rest.len(),
        }),
    }
}

/// The token that the end of the bytes ends.
#[derive(Drop)]
pub struct Last {
    pub token: Token,
    pub text: Text,
}

/// What comes at the end of the bytes.
pub fn at_end(state: State, at: u32) -> Result<Option<Last>, GmlFault>
    requires { IsPlaced state at }
    ensures ok { IfOk result (IsLast state at) }
    ensures err { IfErr result (λ e. coming state at [] ≡ Err e) }
{
    match state {
        State::Start => Ok(None),
        State::MarkOne => Err(GmlFault::BadByte { at: 0 }),
        State::MarkTwo => Err(GmlFault::BadByte { at: 0 }),
        State::Between => Ok(None),
        State::Comment => Ok(None),
        State::Inside { run, from, held } => match run {
            Run::Key => Ok(Some(Last {
                token: Token {
                    kind: TokenKind::Key,
                    from,
                    to: at,
                },
                text: held,
            })),
            Run::Number => match number_kind(held.bytes()) {
                Some(kind) => Ok(Some(Last {
                    token: Token { kind, from, to: at },
                    text: held,
                })),
                None => Err(GmlFault::BadNumber { at: from }),
            },
            Run::Quoted => Err(GmlFault::OpenString { at: from }),
        },
        State::Failed { fault } => Err(fault),
    }
}
