//! The words of a command line, and the command that they ask for.
ghost use Rattle.std.specs.Prelude.{◌≡◌, ◌≢◌, ℕ, ℤ, ◌+◌, ◌<◌, ◌≤◌, ◌^◌, ◌∷◌, ◌++◌, [], List, length, map, IfOk, OnOk, OnErr, IfSome, IfNone, IsTrue, ◌↔◌, MatchOption, Ok};
ghost use Rattle.std.specs.String.{string_bytes};
ghost use Rattle.st_words.specs.declared.words.Command.TheVariants.{Query};
ghost use Rattle.st_words.specs.declared.words.Task.TheVariants.{Check, Orient, Session};
ghost use Rattle.st_words.specs.Words.{IsName, IsNumber, ArePairNames, AreForm, AreArguments, IsRecipe, IsCommand, IsTask, IsFileless, AskOrient, operation_word, spot_word, form_words};

use st_ids::NoMemory;
use st_ids::limits::{MOST_PAIRS, MOST_VERTICES};
use std::alloc::Global;
use std::marker::Model;

/// Pairs of vertex names, which a contract sees as a list.
#[derive(Drop)]
pub struct Pairs {
    held: Vec<(i64, i64)>,
}

impl Model for Pairs {
    ghost use Rattle.std.specs.Prelude.{List, ℤ};

    ghost Value = { List (ℤ × ℤ) };

    ghost view = { λ a. a.held.items };
}

impl Pairs {
    /// No pair.
    pub fn new(alloc: Global) -> Pairs
        ensures { result ≡ [] }
    {
        Pairs {
            held: Vec::new(alloc),
        }
    }

    /// Appends a pair.
    pub fn push(&mut self, from: i64, to: i64) -> Result<(), NoMemory>
        ensures ok { OnOk result (self.new ≡ self.old ++ (from, to) ∷ []) }
        ensures err { OnErr result (self.new ≡ self.old) }
    {
        match self.held.push((from, to)) {
            Ok(()) => Ok(()),
            Err(_) => Err(NoMemory),
        }
    }

    /// All pairs.
    pub fn items(&self) -> &[(i64, i64)]
        ensures { result.now ≡ self.now }
    {
        &self.held
    }
}

/// Where a vertex stands between the ends of its bar.
#[derive(Clone, Copy)]
pub enum Spot {
    Left,
    /// Half way, rounded to the left.
    Middle,
    Right,
}

/// How a graph is drawn.
#[derive(Clone, Copy)]
pub enum DrawForm {
    /// Level bars for vertices, upright lines for edges.
    Visibility,
    /// Boxes for edges, which tile the frame.
    Tessellation,
    /// As visibility, with the edges of each path of the file in one upright line.
    Constrained,
    /// Dots for vertices, lines with two bends at most for edges.
    Polyline(Spot),
    /// Dots whose points tell reaching, straight lines for edges.
    Dominance,
}

/// Which bound of two vertices.
#[derive(Clone, Copy)]
pub enum Operation {
    /// The least vertex that both reach.
    Join,
    /// The greatest vertex that reaches both.
    Meet,
}

/// What is asked of the graph of a file.
#[derive(Drop)]
pub enum Command {
    /// Whether the first vertex of each pair reaches the second.
    Query(Pairs),
    /// Whether the graph is a planar st-graph.
    Test,
    /// A drawing of the graph.
    Draw(DrawForm),
    /// The bound of two vertices.
    Lattice(Operation, i64, i64),
}

/// Which graph is generated: its number of vertices, and where its random words begin.
#[derive(Clone, Copy)]
pub struct Recipe {
    pub vertices: u32,
    pub seed: u64,
}

/// What the words of a command line ask for.
#[derive(Drop)]
pub enum Task {
    /// A command on the graph of a file.
    File(Command),
    /// Whether the drawing of a file is clean.
    Check,
    /// An orientation of the graph of a file, with the source and the sink of these names.
    Orient(i64, i64),
    /// The edits and questions of a file, carried out on its graph.
    Session,
    /// The file of a generated graph.
    Gen(Recipe),
    /// The numbers of a drawing of a generated graph.
    Bench(Recipe, DrawForm),
}

// The vertex name that a word writes.
fn name_of(word: &String) -> Option<i64>
    ensures some { IfSome result (λ n. IsName (string_bytes word.now) n) }
    ensures none { IfNone result ((n : ℤ) → ¬ IsName (string_bytes word.now) n) }
{
    word.as_str().parse::<i64>().ok()
}

// The pairs that the words write.
fn pairs_of(alloc: Global, words: &[String]) -> Result<Option<Pairs>, NoMemory>
    ensures { IfOk result (λ o. MatchOption o ((pairs : List (ℤ × ℤ)) → ¬ ArePairNames (map string_bytes words.now) pairs) (λ pairs. ArePairNames (map string_bytes words.now) pairs)) }
{
    let mut pairs = Pairs::new(alloc);
    if words.len() % 2 != 0 {
        return Ok(None);
    }
    for i in 0..words.len() / 2 {
        let Some(from) = name_of(&words[2 * i]) else {
            return Ok(None);
        };
        let Some(to) = name_of(&words[2 * i + 1]) else {
            return Ok(None);
        };
        pairs.push(from, to)?;
    }
    Ok(Some(pairs))
}

// The spot that a word names.
fn spot_of(word: &String) -> Option<Spot>
    ensures { MatchOption result ((spot : Spot) → string_bytes word.now ≢ spot_word spot) (λ spot. string_bytes word.now ≡ spot_word spot) }
{
    if word.as_str() == "left" {
        return Some(Spot::Left);
    }
    if word.as_str() == "middle" {
        return Some(Spot::Middle);
    }
    if word.as_str() == "right" {
        return Some(Spot::Right);
    }
    None
}

// The form of one word that the word names.
fn simple_form(word: &String) -> Option<DrawForm>
    ensures { MatchOption result ((form : DrawForm) → string_bytes word.now ∷ [] ≢ form_words form) (λ form. string_bytes word.now ∷ [] ≡ form_words form) }
{
    if word.as_str() == "visibility" {
        return Some(DrawForm::Visibility);
    }
    if word.as_str() == "tessellation" {
        return Some(DrawForm::Tessellation);
    }
    if word.as_str() == "constrained" {
        return Some(DrawForm::Constrained);
    }
    if word.as_str() == "dominance" {
        return Some(DrawForm::Dominance);
    }
    None
}

// The form of two words that the words name.
fn spotted_form(name: &String, spot: &String) -> Option<DrawForm>
    ensures { MatchOption result ((form : DrawForm) → string_bytes name.now ∷ string_bytes spot.now ∷ [] ≢ form_words form) (λ form. string_bytes name.now ∷ string_bytes spot.now ∷ [] ≡ form_words form) }
{
    if name.as_str() != "polyline" {
        return None;
    }
    match spot_of(spot) {
        Some(spot) => Some(DrawForm::Polyline(spot)),
        None => None,
    }
}

// The form of drawing that the words name.
fn form_of(words: &[String]) -> Option<DrawForm>
    ensures { MatchOption result ((form : DrawForm) → ¬ AreForm (map string_bytes words.now) form) (λ form. AreForm (map string_bytes words.now) form) }
{
    match words {
        [word] => simple_form(word),
        [name, spot] => spotted_form(name, spot),
        _ => None,
    }
}

// The pairs of a query that the words behind its name ask for.
fn query_of(alloc: Global, rest: &[String]) -> Result<Option<Pairs>, NoMemory>
    ensures { IfOk result (λ o. MatchOption o ((pairs : List (ℤ × ℤ)) → ¬ AreArguments (map string_bytes rest.now) (Query pairs)) (λ pairs. AreArguments (map string_bytes rest.now) (Query pairs))) }
{
    if rest.is_empty() || rest.len() > 2 * MOST_PAIRS {
        return Ok(None);
    }
    pairs_of(alloc, rest)
}

// The bound that a word names.
fn operation_of(word: &String) -> Option<Operation>
    ensures { MatchOption result ((operation : Operation) → string_bytes word.now ≢ operation_word operation) (λ operation. string_bytes word.now ≡ operation_word operation) }
{
    if word.as_str() == "join" {
        return Some(Operation::Join);
    }
    if word.as_str() == "meet" {
        return Some(Operation::Meet);
    }
    None
}

// The two vertex names that the words write.
fn two_names(words: &[String]) -> Option<(i64, i64)>
    ensures { MatchOption result ((from to : ℤ) → ¬ ArePairNames (map string_bytes words.now) ((from, to) ∷ [])) (λ names. ArePairNames (map string_bytes words.now) (names ∷ [])) }
{
    let [from, to] = words else {
        return None;
    };
    let Some(from) = name_of(from) else {
        return None;
    };
    let Some(to) = name_of(to) else {
        return None;
    };
    Some((from, to))
}

// The command that a word names, with what the words behind it say.
fn command_by_name(
    alloc: Global,
    name: &String,
    rest: &[String],
) -> Result<Option<Command>, NoMemory>
    ensures { IfOk result (λ o. MatchOption o ((command : Command) → ¬ IsCommand (string_bytes name.now ∷ map string_bytes rest.now) command) (λ command. IsCommand (string_bytes name.now ∷ map string_bytes rest.now) command)) }
{
    if name.as_str() == "test" {
        if rest.is_empty() {
            return Ok(Some(Command::Test));
        }
        return Ok(None);
    }
    if name.as_str() == "draw" {
        return match form_of(rest) {
            Some(form) => Ok(Some(Command::Draw(form))),
            None => Ok(None),
        };
    }
    if name.as_str() == "query" {
        return match query_of(alloc, rest)? {
            Some(pairs) => Ok(Some(Command::Query(pairs))),
            None => Ok(None),
        };
    }
    let Some(operation) = operation_of(name) else {
        return Ok(None);
    };
    match two_names(rest) {
        Some((from, to)) => Ok(Some(Command::Lattice(operation, from, to))),
        None => Ok(None),
    }
}

/// The command on a file that the words ask for; `None` where they are no form of one.
///
/// Cost: one pass over the words, one list of pairs.
pub fn command_of(alloc: Global, words: &[String]) -> Result<Option<Command>, NoMemory>
    ensures { IfOk result (λ o. MatchOption o ((command : Command) → ¬ IsCommand (map string_bytes words.now) command) (λ command. IsCommand (map string_bytes words.now) command)) }
{
    match words {
        [name, rest @ ..] => command_by_name(alloc, name, rest),
        _ => Ok(None),
    }
}

// Whether the words ask for a check.
fn asks_for_check(words: &[String]) -> bool
    ensures { IsTrue result ↔ IsTask (map string_bytes words.now) Check }
{
    match words {
        [word] => word.as_str() == "check",
        _ => false,
    }
}

// Whether the words ask for a session.
fn asks_for_session(words: &[String]) -> bool
    ensures { IsTrue result ↔ IsTask (map string_bytes words.now) Session }
{
    match words {
        [word] => word.as_str() == "session",
        _ => false,
    }
}

// The poles of an orientation that a word and the words behind it ask for.
fn poles_by_name(name: &String, rest: &[String]) -> Option<(i64, i64)>
    ensures { MatchOption result ((from to : ℤ) → ¬ AskOrient (string_bytes name.now ∷ map string_bytes rest.now) from to) (λ poles. AskOrient (string_bytes name.now ∷ map string_bytes rest.now) poles.0 poles.1) }
{
    if name.as_str() != "orient" {
        return None;
    }
    match two_names(rest) {
        Some((from, to)) => Some((from, to)),
        None => None,
    }
}

// The poles of an orientation that the words ask for.
fn poles_of(words: &[String]) -> Option<(i64, i64)>
    ensures { MatchOption result ((from to : ℤ) → ¬ IsTask (map string_bytes words.now) (Orient from to)) (λ poles. IsTask (map string_bytes words.now) (Orient poles.0 poles.1)) }
{
    match words {
        [name, rest @ ..] => poles_by_name(name, rest),
        _ => None,
    }
}

// The number below 2^64 that a word of digits alone writes.
fn number_of(word: &String) -> Option<u64>
    ensures some { IfSome result (λ n. IsNumber (string_bytes word.now) n) }
    ensures none { IfNone result ((n : ℕ) → n < 2 ^ 64 → ¬ IsNumber (string_bytes word.now) n) }
{
    let bytes = word.as_bytes();
    if bytes.is_empty() || bytes[0] == b'+' {
        return None;
    }
    word.as_str().parse::<u64>().ok()
}

// The number of vertices, within its limits, and the seed that two words write.
fn recipe_of(size: &String, seed: &String) -> Option<Recipe>
    ensures { MatchOption result ((r : Recipe) → ¬ IsRecipe (string_bytes size.now) (string_bytes seed.now) r) (λ r. IsRecipe (string_bytes size.now) (string_bytes seed.now) r) }
{
    let vertices = number_of(size)?;
    let seed = number_of(seed)?;
    if vertices < 2 || vertices > MOST_VERTICES as u64 {
        return None;
    }
    Some(Recipe {
        vertices: vertices as u32,
        seed,
    })
}

// The task on a generated graph that the words ask for.
fn generated(words: &[String]) -> Option<Task>
    ensures some { IfSome result (λ task. IsTask (map string_bytes words.now) task) }
    ensures none { IfNone result ((task : Task) → IsFileless task → ¬ IsTask (map string_bytes words.now) task) }
{
    if words.len() < 3 {
        return None;
    }
    let Some(recipe) = recipe_of(&words[1], &words[2]) else {
        return None;
    };
    if words.len() == 3 && words[0].as_str() == "gen" {
        return Some(Task::Gen(recipe));
    }
    if words[0].as_str() != "bench" {
        return None;
    }
    match form_of(&words[3..]) {
        Some(form) => Some(Task::Bench(recipe, form)),
        None => None,
    }
}

/// What the words ask for; `None` where they are no form of a command.
///
/// Cost: one pass over the words, one list of pairs.
pub fn task_of(alloc: Global, words: &[String]) -> Result<Option<Task>, NoMemory>
    ensures { IfOk result (λ o. MatchOption o ((task : Task) → ¬ IsTask (map string_bytes words.now) task) (λ task. IsTask (map string_bytes words.now) task)) }
{
    if asks_for_check(words) {
        return Ok(Some(Task::Check));
    }
    if asks_for_session(words) {
        return Ok(Some(Task::Session));
    }
    if let Some((from, to)) = poles_of(words) {
        return Ok(Some(Task::Orient(from, to)));
    }
    match generated(words) {
        Some(task) => Ok(Some(task)),
        None => match command_of(alloc, words)? {
            Some(command) => Ok(Some(Task::File(command))),
            None => Ok(None),
        },
    }
}
