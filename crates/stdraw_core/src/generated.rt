//! The file of a generated graph, for which no file is read.
ghost use Rattle.std.specs.Prelude.{◌≤◌, IfOk};
ghost use Rattle.st_words.specs.Words.{most_vertices};
ghost use Rattle.stdraw_core.specs.Generated.{AnswersGen, IsFileOf};
ghost use Rattle.st_verdict.specs.Stops.{Gives};

use gml_core::print;
use st_gen::make;
use st_ids::{NoMemory, Text};
use st_report::Stop;
use st_words::Recipe;
use st_writer::plain_tree;
use std::alloc::Global;

// The printed tree of the generated graph.
fn print_file(alloc: Global, recipe: Recipe) -> Result<Text, NoMemory>
    requires least { 2 ≤ recipe.vertices }
    requires most { recipe.vertices ≤ most_vertices }
    ensures { IfOk result (IsFileOf recipe) }
{
    let spec = make(alloc, recipe.vertices, recipe.seed)?;
    let tree = plain_tree(alloc, &spec)?;
    print(alloc, &tree)
}

/// The file of the generated graph.
///
/// Errors: `NoMemory`.
/// Cost: that of `st_gen::make`, and O(V + E) for the text. Not proved.
pub fn answer_gen(alloc: Global, recipe: Recipe) -> Result<Text, Stop>
    requires least { 2 ≤ recipe.vertices }
    requires most { recipe.vertices ≤ most_vertices }
    ensures { Gives (AnswersGen recipe) result }
{
    match print_file(alloc, recipe) {
        Ok(text) => Ok(text),
        Err(NoMemory) => Err(Stop::NoMemory),
    }
}
