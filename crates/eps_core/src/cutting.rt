//! Cuts lines off, and compares them.
ghost use Rattle.std.specs.Prelude.{◌≡◌, ◌==◌, ◌<◌, ◌≤◌, ◌↔◌, ◌∷◌, ◌++◌, length, IsTrue, IfOk, IfErr, IfSome, IfNone};
ghost use Rattle.std.specs.List.{position_or_len};
ghost use Rattle.eps_core.specs.Decoding.{after_line, line_from};
ghost use Rattle.eps_core.specs.Meaning.{IsPlain};
ghost use Rattle.eps_core.specs.Reading.{MissesLine};
ghost use Rattle.eps_core.specs.Text.{ended};

use crate::line::Line;

// How many bytes stand before the first line feed.
fn line_len(s: &[u8]) -> usize
    ensures place { result ≡ position_or_len (λ b. b == 10) s.now }
    ensures bound { result ≤ length s.now }
{
    let mut n = 0;
    while n < s.len() && s[n] != b'\n' {
        n += 1;
    }
    n
}

/// The first line, and what is behind it. None where no line ends.
pub fn next_line(s: &[u8]) -> Option<(&[u8], &[u8])>
    ensures ended { IfSome result (λ p. s.now ≡ p.0.now ++ 10 ∷ p.1.now) }
    ensures plain { IfSome result (λ p. IsPlain p.0.now) }
    ensures none { IfNone result (IsPlain s.now) }
{
    let n = line_len(s);
    if n == s.len() {
        return None;
    }
    Some((&s[..n], &s[n + 1..]))
}

/// The first line, or all where no line ends, and what is behind it.
pub fn first_line(s: &[u8]) -> (&[u8], &[u8])
    ensures line { result.0.now ≡ line_from s.now }
    ensures behind { result.1.now ≡ after_line s.now }
{
    let n = line_len(s);
    if n == s.len() {
        return (s, &s[n..]);
    }
    (&s[..n], &s[n + 1..])
}

/// Whether the line has these bytes.
pub fn is_line(line: &Line, bytes: &[u8]) -> bool
    ensures { IsTrue result ↔ (bytes.now ≡ line.now) }
{
    line.bytes() == bytes
}

/// What is behind these lines, or which of them is not there.
pub fn match_lines<'a>(lines: &[Line], bytes: &'a [u8]) -> Result<&'a [u8], usize>
    ensures ok { IfOk result (λ rest. bytes.now ≡ ended lines.now ++ rest.now) }
    ensures within { IfErr result (λ k. k < length lines.now) }
    ensures misses { IfErr result (λ k. MissesLine bytes.now lines.now k) }
{
    let mut rest = bytes;
    for (k, line) in lines.iter().enumerate() {
        match next_line(rest) {
            None => return Err(k),
            Some((found, behind)) => {
                if !is_line(line, found) {
                    return Err(k);
                }
                rest = behind;
            }
        }
    }
    Ok(rest)
}
