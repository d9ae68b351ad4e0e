//! What the definitions of texts say together. Each function does nothing, and its contract is a law.

ghost use Rattle.std.specs.Prelude.{◌≡◌, ◌≤◌, ℕ, ◌++◌, ◌∷◌, [], List, length, map, take, Some, None, Ok, ◌⊎◌};
ghost use Rattle.gml_core.specs.declared.token.Token.{Token};
ghost use Rattle.gml_core.specs.declared.fault.GmlFault.{GmlFault};
ghost use Rattle.gml_core.specs.Trees.{Entries, Word, spelling};
ghost use Rattle.gml_core.specs.Bytes.{number_kind};
ghost use Rattle.gml_core.specs.Forms.{IsGap, IsIntegerRun, IsRealRun};
ghost use Rattle.gml_core.specs.Lexing.{gap, next_token, AreTokens, IsFaultyToken};
ghost use Rattle.gml_core.specs.Reading.{word, State, begin, Moves, IsBounded, IsText, IsFirstFault};

use crate::token::TokenKind;

/// All bytes have exactly one of a list of tokens and a faulty token.
pub fn one_cut()
    ensures some { (bytes : List ℕ) → ((ts : List Token) × AreTokens bytes ts) ⊎ ((f : GmlFault) × IsFaultyToken bytes f) }
    ensures tokens { (bytes : List ℕ) (ts us : List Token) → AreTokens bytes ts → AreTokens bytes us → ts ≡ us }
    ensures fault { (bytes : List ℕ) (f g : GmlFault) → IsFaultyToken bytes f → IsFaultyToken bytes g → f ≡ g }
    ensures apart { (bytes : List ℕ) (ts : List Token) (f : GmlFault) → AreTokens bytes ts → IsFaultyToken bytes f → ⊥ }
{}

/// All bytes have exactly one of a tree and a first fault.
pub fn one_answer()
    ensures some { (bytes : List ℕ) → ((tree : Entries) × IsText bytes tree) ⊎ ((f : GmlFault) × IsFirstFault bytes f) }
    ensures tree { (bytes : List ℕ) (t u : Entries) → IsText bytes t → IsText bytes u → t ≡ u }
    ensures fault { (bytes : List ℕ) (f g : GmlFault) → IsFirstFault bytes f → IsFirstFault bytes g → f ≡ g }
    ensures apart { (bytes : List ℕ) (t : Entries) (f : GmlFault) → IsText bytes t → IsFirstFault bytes f → ⊥ }
{}

/// The first fault is not early: no text begins with the tokens up to the faulty one, and none ends where the end is it.
///
/// This is said of tokens. Bytes may go on otherwise: `x 1e` is faulty, and `x 1e5` is a text.
pub fn none_goes_on()
    ensures token { (bytes : List ℕ) (f : GmlFault) (first : IsFirstFault bytes f) (t : Token) (others : List Word) (tree : Entries)
        → next_token bytes first.at ≡ Ok (Some t) → IsBounded tree → spelling tree ≡ map (word bytes) (first.tokens ++ t ∷ []) ++ others → ⊥ }
    ensures end { (bytes : List ℕ) (f : GmlFault) (first : IsFirstFault bytes f) (tree : Entries)
        → next_token bytes first.at ≡ Ok None → IsBounded tree → spelling tree ≡ map (word bytes) first.tokens → ⊥ }
{}

/// The first fault is not late: the tokens before it, each of which is taken, begin the text of some tree.
pub fn some_goes_on()
    ensures { (bytes : List ℕ) (ts : List Token) (s : State) → Moves bytes begin ts s
        → (others : List Word) × (tree : Entries) × IsBounded tree × (spelling tree ≡ map (word bytes) ts ++ others) }
{}

/// What is passed before a token is the longest list of white space and comments there.
pub fn longest_gap()
    ensures gap { (bytes : List ℕ) → IsGap (take (gap bytes) bytes) }
    ensures longest { (g rest : List ℕ) → IsGap g → length g ≤ gap (g ++ rest) }
{}

/// What the run of a number is, by its parts.
pub fn number_forms()
    ensures integer { (run : List ℕ) → number_kind run ≡ Some TokenKind.Int → IsIntegerRun run }
    ensures real { (run : List ℕ) → number_kind run ≡ Some TokenKind.Real → IsRealRun run }
    ensures every_integer { (run : List ℕ) → IsIntegerRun run → number_kind run ≡ Some TokenKind.Int }
    ensures every_real { (run : List ℕ) → IsRealRun run → number_kind run ≡ Some TokenKind.Real }
{}
