//! Readers that are fed in pieces.
//!
//! A reader stands for the bytes that it was fed. It keeps no more of them than a token that the last piece cuts.

ghost use Rattle.std.specs.Prelude.{◌≡◌, ◌≢◌, ◌<◌, ◌≤◌, ◌+◌, ◌*◌, ◌^◌, ◌++◌, [], List, ℕ, None, length, drop, IfOk, IfErr, OnOk, MatchResult, ◌⊎◌};
ghost use Rattle.gml_core.specs.declared.token.Token.{Token};
ghost use Rattle.gml_core.specs.declared.fault.GmlFault.{GmlFault};
ghost use Rattle.gml_core.specs.Lexing.{AreTokens, IsFaultyToken, IsTokenFault};
ghost use Rattle.gml_core.specs.Pieces.{IsPlaced, rank};
ghost use Rattle.gml_core.specs.Readers.{TokensRead, StandsFor, TreeReads, TreeStandsFor};
ghost use Rattle.gml_core.specs.Reading.{IsText, IsFirstFault};
ghost use Rattle.gml_core.specs.Views.{view};
ghost use Rattle.gml_core.specs.Trees.{Entries};
ghost use Rattle.gml_core.specs.Printing.{printed, at_zero};
ghost use Rattle.gml_core.specs.Sound.{IsSound};

use crate::fault::GmlFault;
use crate::lexing::{Tokens, is_space, make_tokens};
use crate::parsing::Builder;
use crate::pieces::{Seen, State, at_end, look, text_of};
use crate::token::Token;
use crate::tree::Tree;
use crate::within::{spaces, whole};
use st_ids::NoMemory;
use std::alloc::Global;
use std::mem;

/// Cuts bytes that come in pieces into tokens.
#[derive(Drop)]
pub struct TokenReader {
    alloc: Global,
    state: State,
    tokens: Vec<Token>,
    fed: u32,
}

impl TokenReader {
    /// A reader that was fed nothing. It takes no memory.
    pub fn new(alloc: Global) -> TokenReader
        ensures { StandsFor result [] }
    {
        TokenReader {
            alloc,
            state: State::Start,
            tokens: Vec::new(alloc),
            fed: 0,
        }
    }

    /// Takes bytes of the rest, by one look, and answers how many.
    fn look_on(&mut self, rest: &[u8]) -> Result<usize, NoMemory>
        requires placed { IsPlaced self.old.state self.old.fed }
        requires some { 0 < length rest.now }
        requires fits { self.old.fed + length rest.now < 2 ^ 32 }
        ensures within { IfOk result (λ n. n ≤ length rest.now) }
        ensures fed { IfOk result (λ n. self.new.fed ≡ self.old.fed + n) }
        ensures less { IfOk result (λ n. rank self.new.state < 2 * n + rank self.old.state) }
        ensures placed { OnOk result (IsPlaced self.new.state self.new.fed) }
        ensures reads { IfOk result (λ n. (b : List ℕ) → TokensRead self.old b rest.now → TokensRead self.new b (drop n rest.now)) }
    {
        let state = mem::replace(&mut self.state, State::Between);
        let seen = look(self.alloc, state, self.fed, rest)?;
        match seen {
            Seen::More { state, taken } => {
                self.state = state;
                self.fed += taken as u32;
                Ok(taken)
            }
            Seen::Whole { token, taken, .. } => match self.tokens.push(token) {
                Ok(()) => {
                    self.fed += taken as u32;
                    Ok(taken)
                }
                Err(_) => Err(NoMemory),
            },
        }
    }

    /// Takes white space, or a token that ends within the rest, or else what one look takes.
    #[inline(always)]
    fn take(&mut self, rest: &[u8]) -> Result<usize, NoMemory>
        requires placed { IsPlaced self.old.state self.old.fed }
        requires some { 0 < length rest.now }
        requires fits { self.old.fed + length rest.now < 2 ^ 32 }
        ensures within { IfOk result (λ n. n ≤ length rest.now) }
        ensures fed { IfOk result (λ n. self.new.fed ≡ self.old.fed + n) }
        ensures less { IfOk result (λ n. rank self.new.state < 2 * n + rank self.old.state) }
        ensures placed { OnOk result (IsPlaced self.new.state self.new.fed) }
        ensures reads { IfOk result (λ n. (b : List ℕ) → TokensRead self.old b rest.now → TokensRead self.new b (drop n rest.now)) }
    {
        match self.state {
            State::Between => {}
            _ => return self.look_on(rest),
        }
        if is_space(rest[0]) {
            let n = spaces(rest);
            self.fed += n as u32;
            return Ok(n);
        }
        match whole(rest) {
            None => self.look_on(rest),
            Some(found) => {
                let at = self.fed;
                let to = at + found.len as u32;
                match self.tokens.push(Token {
                    kind: found.kind,
                    from: at,
                    to,
                }) {
                    Ok(()) => {
                        self.fed = to;
                        Ok(found.len)
                    }
                    Err(_) => Err(NoMemory),
                }
            }
        }
    }

    /// Takes a piece, and gives the reader up where memory runs out.
    ///
    /// Cost: O(piece) time, and no copy but of a token that the piece's ends cut. After a fault bytes are only counted.
    pub fn feed(self, piece: &[u8]) -> Result<TokenReader, NoMemory>
        requires { (b : List ℕ) × StandsFor self b × (length b + length piece.now < 2 ^ 32) }
        ensures { (b : List ℕ) → StandsFor self b → IfOk result (λ r. StandsFor r (b ++ piece.now)) }
    {
        let mut reader = self;
        let mut at = 0;
        while at < piece.len() {
            let more = reader.take(&piece[at..])?;
            at += more;
        }
        Ok(reader)
    }

    /// How many bytes it was fed.
    pub fn fed(&self) -> u32
        ensures { (b : List ℕ) → StandsFor self.now b → result ≡ length b }
    {
        self.fed
    }

    fn cut(self) -> Result<Tokens, GmlFault>
        requires { (b : List ℕ) × StandsFor self b }
        ensures tokens { (b : List ℕ) → StandsFor self b → IfOk result (AreTokens b) }
        ensures fault { (b : List ℕ) → StandsFor self b → IfErr result (λ e. e ≢ GmlFault.NoMemory → IsFaultyToken b e) }
    {
        let TokenReader {
            state,
            mut tokens,
            fed,
            ..
        } = self;
        match at_end(state, fed) {
            Err(fault) => Err(fault),
            Ok(None) => Ok(make_tokens(tokens)),
            Ok(Some(last)) => {
                tokens.push(last.token)?;
                Ok(make_tokens(tokens))
            }
        }
    }

    /// What `lex` answers for the bytes fed.
    pub fn finish(self) -> Result<Tokens, GmlFault>
        requires { (b : List ℕ) × StandsFor self b }
        ensures tokens { (b : List ℕ) → StandsFor self b → IfOk result (AreTokens b) }
        ensures fault { (b : List ℕ) → StandsFor self b → IfErr result (λ e. e ≢ GmlFault.NoMemory → IsFaultyToken b e) }
        ensures kind { (b : List ℕ) → StandsFor self b → IfErr result (λ e. e ≢ GmlFault.NoMemory → IsTokenFault e) }

        // There is no other answer, unless memory runs out.
        ensures only_tokens { (b : List ℕ) → StandsFor self b → (ts : List Token) → AreTokens b ts → MatchResult result (λ r. r ≡ ts) (λ e. e ≡ GmlFault.NoMemory) }
        ensures only_fault { (b : List ℕ) → StandsFor self b → (f : GmlFault) → IsFaultyToken b f → MatchResult result (λ _. ⊥) (λ e. (e ≡ f) ⊎ (e ≡ GmlFault.NoMemory)) }
    {
        self.cut()
    }
}

/// Reads the tree of bytes that come in pieces.
#[derive(Drop)]
pub struct TreeReader {
    alloc: Global,
    state: State,
    builder: Builder,
    fault: Option<GmlFault>,
    fed: u32,
}

impl TreeReader {
    /// A reader that was fed nothing. It takes no memory.
    pub fn new(alloc: Global) -> TreeReader
        ensures { TreeStandsFor result [] }
    {
        TreeReader {
            alloc,
            state: State::Start,
            builder: Builder::new(alloc),
            fault: None,
            fed: 0,
        }
    }

    /// Takes bytes of the rest, by one look, and answers how many.
    fn look_on(&mut self, rest: &[u8]) -> Result<usize, NoMemory>
        requires placed { IsPlaced self.old.state self.old.fed }
        requires some { 0 < length rest.now }
        requires fits { self.old.fed + length rest.now < 2 ^ 32 }
        ensures within { IfOk result (λ n. n ≤ length rest.now) }
        ensures fed { IfOk result (λ n. self.new.fed ≡ self.old.fed + n) }
        ensures less { IfOk result (λ n. rank self.new.state < 2 * n + rank self.old.state) }
        ensures placed { OnOk result (IsPlaced self.new.state self.new.fed) }
        ensures reads { IfOk result (λ n. (b : List ℕ) → TreeReads self.old b rest.now → TreeReads self.new b (drop n rest.now)) }
    {
        let state = mem::replace(&mut self.state, State::Between);
        match &self.fault {
            None => {}
            Some(_) => {
                self.fed += rest.len() as u32;
                return Ok(rest.len());
            }
        }
        let seen = look(self.alloc, state, self.fed, rest)?;
        match seen {
            Seen::More { state, taken } => {
                self.state = state;
                self.fed += taken as u32;
                Ok(taken)
            }
            Seen::Whole {
                token,
                held,
                part,
                taken,
            } => {
                let text = text_of(&held, &rest[..part]);
                match self.builder.take(self.alloc, token.kind, token.from, text) {
                    Ok(()) => {
                        self.fed += taken as u32;
                        Ok(taken)
                    }
                    Err(fault) => match fault {
                        GmlFault::NoMemory => Err(NoMemory),
                        fault => {
                            self.fault = Some(fault);
                            self.fed += rest.len() as u32;
                            Ok(rest.len())
                        }
                    },
                }
            }
        }
    }

    /// Takes white space, or a token that ends within the rest, or else what one look takes.
    #[inline(never)]
    fn take_one(&mut self, rest: &[u8]) -> Result<usize, NoMemory>
        requires placed { IsPlaced self.old.state self.old.fed }
        requires some { 0 < length rest.now }
        requires fits { self.old.fed + length rest.now < 2 ^ 32 }
        ensures within { IfOk result (λ n. n ≤ length rest.now) }
        ensures fed { IfOk result (λ n. self.new.fed ≡ self.old.fed + n) }
        ensures less { IfOk result (λ n. rank self.new.state < 2 * n + rank self.old.state) }
        ensures placed { OnOk result (IsPlaced self.new.state self.new.fed) }
        ensures reads { IfOk result (λ n. (b : List ℕ) → TreeReads self.old b rest.now → TreeReads self.new b (drop n rest.now)) }
    {
        match self.state {
            State::Between => {}
            _ => return self.look_on(rest),
        }
        match &self.fault {
            None => {}
            Some(_) => return self.look_on(rest),
        }
        if is_space(rest[0]) {
            let n = spaces(rest);
            self.fed += n as u32;
            return Ok(n);
        }
        match whole(rest) {
            None => self.look_on(rest),
            Some(found) => {
                let text = &rest[..found.len];
                match self.builder.take(self.alloc, found.kind, self.fed, text) {
                    Ok(()) => {
                        self.fed += found.len as u32;
                        Ok(found.len)
                    }
                    Err(fault) => match fault {
                        GmlFault::NoMemory => Err(NoMemory),
                        fault => {
                            self.fault = Some(fault);
                            self.fed += rest.len() as u32;
                            Ok(rest.len())
                        }
                    },
                }
            }
        }
    }

    /// Takes a string or a real that ends within the rest, or else what `take_one` takes.
    #[inline(never)]
    fn take_value(&mut self, rest: &[u8]) -> Result<usize, NoMemory>
        requires between { self.old.state ≡ State.Between }
        requires goes { self.old.fault ≡ None }
        requires some { 0 < length rest.now }
        requires fits { self.old.fed + length rest.now < 2 ^ 32 }
        ensures within { IfOk result (λ n. n ≤ length rest.now) }
        ensures fed { IfOk result (λ n. self.new.fed ≡ self.old.fed + n) }
        ensures less { IfOk result (λ n. rank self.new.state < 2 * n + rank self.old.state) }
        ensures placed { OnOk result (IsPlaced self.new.state self.new.fed) }
        ensures reads { IfOk result (λ n. (b : List ℕ) → TreeReads self.old b rest.now → TreeReads self.new b (drop n rest.now)) }
    {
        let n = self.builder.atom_quickly(self.alloc, self.fed, rest)?;
        if n == 0 {
            return self.take_one(rest);
        }
        self.fed += n as u32;
        Ok(n)
    }

    /// Takes a pair at once where it can, or else what `take_one` takes.
    #[inline(always)]
    fn take(&mut self, rest: &[u8]) -> Result<usize, NoMemory>
        requires placed { IsPlaced self.old.state self.old.fed }
        requires some { 0 < length rest.now }
        requires fits { self.old.fed + length rest.now < 2 ^ 32 }
        ensures within { IfOk result (λ n. n ≤ length rest.now) }
        ensures fed { IfOk result (λ n. self.new.fed ≡ self.old.fed + n) }
        ensures less { IfOk result (λ n. rank self.new.state < 2 * n + rank self.old.state) }
        ensures placed { OnOk result (IsPlaced self.new.state self.new.fed) }
        ensures reads { IfOk result (λ n. (b : List ℕ) → TreeReads self.old b rest.now → TreeReads self.new b (drop n rest.now)) }
    {
        match self.state {
            State::Between => {}
            _ => return self.look_on(rest),
        }
        match &self.fault {
            None => {}
            Some(_) => return self.look_on(rest),
        }
        if !self.builder.is_at_pair() {
            return self.take_value(rest);
        }
        let n = self.builder.take_quickly(self.alloc, self.fed, rest)?;
        if n == 0 {
            return self.take_one(rest);
        }
        self.fed += n as u32;
        Ok(n)
    }

    /// Takes a piece, and gives the reader up where memory runs out.
    ///
    /// Cost: O(piece) time, and no copy but of a token that the piece's ends cut. After a fault bytes are only counted.
    pub fn feed(self, piece: &[u8]) -> Result<TreeReader, NoMemory>
        requires { (b : List ℕ) × TreeStandsFor self b × (length b + length piece.now < 2 ^ 32) }
        ensures { (b : List ℕ) → TreeStandsFor self b → IfOk result (λ r. TreeStandsFor r (b ++ piece.now)) }
    {
        let mut reader = self;
        let mut at = 0;
        while at < piece.len() {
            let n = reader.take(&piece[at..])?;
            at += n;
        }
        Ok(reader)
    }

    /// How many bytes it was fed.
    pub fn fed(&self) -> u32
        ensures { (b : List ℕ) → TreeStandsFor self.now b → result ≡ length b }
    {
        self.fed
    }

    fn end(self) -> Result<Tree, GmlFault>
        requires { (b : List ℕ) × TreeStandsFor self b }
        ensures ok { (b : List ℕ) → TreeStandsFor self b → IfOk result (λ t. IsText b (view t)) }
        ensures err { (b : List ℕ) → TreeStandsFor self b → IfErr result (λ e. e ≢ GmlFault.NoMemory → IsFirstFault b e) }
    {
        let TreeReader {
            alloc,
            state,
            mut builder,
            fault,
            fed,
        } = self;
        match fault {
            Some(fault) => Err(fault),
            None => match at_end(state, fed) {
                Err(fault) => Err(fault),
                Ok(None) => builder.finish(alloc),
                Ok(Some(last)) => {
                    match builder.take(alloc, last.token.kind, last.token.from, last.text.bytes()) {
                        Err(fault) => Err(fault),
                        Ok(()) => builder.finish(alloc),
                    }
                }
            },
        }
    }

    /// What `parse` answers for the bytes fed.
    pub fn finish(self) -> Result<Tree, GmlFault>
        requires { (b : List ℕ) × TreeStandsFor self b }
        ensures text { (b : List ℕ) → TreeStandsFor self b → IfOk result (λ t. IsText b (view t)) }
        ensures fault { (b : List ℕ) → TreeStandsFor self b → IfErr result (λ e. e ≢ GmlFault.NoMemory → IsFirstFault b e) }

        ensures sound { IfOk result (λ t. IsSound (view t)) }

        // There is no other answer, unless memory runs out.
        ensures only_text { (b : List ℕ) → TreeStandsFor self b → (t : Entries) → IsText b t → MatchResult result (λ u. view u ≡ t) (λ e. e ≡ GmlFault.NoMemory) }
        ensures only_fault { (b : List ℕ) → TreeStandsFor self b → (f : GmlFault) → IsFirstFault b f → MatchResult result (λ _. ⊥) (λ e. (e ≡ f) ⊎ (e ≡ GmlFault.NoMemory)) }

        // What is printed is read again, apart from places.
        ensures again { (b : List ℕ) → TreeStandsFor self b → (t : Entries) → IsSound t → b ≡ printed t
            → MatchResult result (λ u. at_zero (view u) ≡ at_zero t) (λ e. e ≡ GmlFault.NoMemory) }
    {
        self.end()
    }
}

/// The tokens of the bytes, in order, or the fault of the first token that is faulty by itself.
///
/// Errors: `BadByte`, `OpenString` or `BadNumber`, exactly where the first faulty token has that fault, and `NoMemory`.
/// Cost: one pass, O(bytes) time and 12 bytes a token.
pub fn lex(alloc: Global, bytes: &[u8]) -> Result<Tokens, GmlFault>
    requires { length bytes.now < 2 ^ 32 }
    ensures tokens { IfOk result (AreTokens bytes.now) }
    ensures fault { IfErr result (λ e. e ≢ GmlFault.NoMemory → IsFaultyToken bytes.now e) }
    ensures kind { IfErr result (λ e. e ≢ GmlFault.NoMemory → IsTokenFault e) }

    // There is no other answer, unless memory runs out.
    ensures only_tokens { (ts : List Token) → AreTokens bytes.now ts → MatchResult result (λ r. r ≡ ts) (λ e. e ≡ GmlFault.NoMemory) }
    ensures only_fault { (f : GmlFault) → IsFaultyToken bytes.now f → MatchResult result (λ _. ⊥) (λ e. (e ≡ f) ⊎ (e ≡ GmlFault.NoMemory)) }
{
    let reader = TokenReader::new(alloc).feed(bytes)?;
    reader.finish()
}
