//! Laws of edits: functions that do nothing, whose contracts are theorems about the definitions of specs/.
ghost use Rattle.st_session.specs.Editing.{InsertionLaw, RemovalLaw};
ghost use Rattle.st_session.specs.Replies.{OneReplyLaw};
ghost use Rattle.st_session.specs.Runs.{SessionLaw};

/// A new edge keeps a planar st-graph, with its corners not of the outer face, exactly where they are of one face
/// and the new edge's head doesn't reach its tail.
pub fn insertion()
    ensures { InsertionLaw }
{
    st_map::laws::insert();
}

/// A planar st-graph stays one without an edge exactly where another edge comes to that edge's head and another
/// leads from its tail.
pub fn removal()
    ensures { RemovalLaw }
{
    st_map::laws::remove();
}

/// From a planar st-graph with names that differ every list of edits that are carried out and of questions leads to
/// one.
pub fn session()
    ensures { SessionLaw }
{
    st_reduce::laws::split();
    insertion();
    removal();
}

/// A question has one reply in a state: which sides of the graph its numbers were found by makes no difference.
pub fn one_reply()
    ensures { OneReplyLaw }
{}
