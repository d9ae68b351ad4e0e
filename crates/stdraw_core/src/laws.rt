//! What the definitions say as a whole: functions that do nothing, or cite a law of a crate below, and whose contract is the
//! law.
ghost use Rattle.stdraw_core.specs.Answer.{HaveOneAnswer};
ghost use Rattle.stdraw_core.specs.FirstFormat.{FirstFormatLaw};
ghost use Rattle.stdraw_core.specs.Headline.{AcceptsDrawings};
ghost use Rattle.stdraw_core.specs.Joined.{GeneratedIsDrawn, GeneratedIsTested};

use eps_core::laws::short_text;
use st_bipolar::laws::fault_forbids;
use st_gen::laws::accepted;
use st_input::laws::{lengths_default, limits_hold};
use st_script::laws::one_script;
use st_session::laws::{one_reply, session};
use st_test::laws::{no_loop, one_poles_answer};
use st_verdict::laws::{one_graph, one_tree};
use st_writer::laws::reads_back;

/// Words and bytes have at most one answer, though reaching is said by walks; of orientations there may be several, but
/// either there is one or there is one refusal.
pub fn one_answer()
    ensures { HaveOneAnswer }
{
    one_poles_answer();
    fault_forbids();
    no_loop();
    one_tree();
    one_graph();
    one_script();
    session();
    one_reply();
}

/// Nothing is wrong with what a drawing writes of a file's graph, and it is no longer than a check takes: a check accepts
/// it.
pub fn drawings_accepted()
    ensures { AcceptsDrawings }
{
    short_text();
    limits_hold();
}

/// A file that keeps the first format, in which edges had no lengths and the limits were 16,777,216 bytes, 20,000 vertices
/// and 60,000 edges, has the answer that it had.
pub fn first_format_kept()
    ensures { FirstFormatLaw }
{
    lengths_default();
}

/// `test` answers to the file that `gen` writes with the numbers of the generated graph, whose source is the vertex 1
/// and whose sink is the vertex 2. So it is for each number of vertices within the limits and each seed.
pub fn generated_tested()
    ensures { GeneratedIsTested }
{
    accepted();
    reads_back();
}

/// The line of `bench` tells of the picture whose text `draw` answers to the file that `gen` writes: how large its
/// graph and its frame are, and how long the text is. So it is in every form.
pub fn generated_drawn()
    ensures { GeneratedIsDrawn }
{
    accepted();
    reads_back();
}
