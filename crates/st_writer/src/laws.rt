//! What the definitions say together. Each function does nothing, and its contract is a law.
ghost use Rattle.st_writer.specs.Laws.{ReadsBack, WrittenReadsBack};

/// The tree of a plain graph is read again as that graph, whatever the places of its pairs, where the graph is within
/// the limits. What `parse` answers of the printed tree differs from the tree in places alone.
pub fn reads_back()
    ensures { ReadsBack }
{}

/// The tree of a graph without written paths, with its names, lengths, labels, orders and outer face, is read again as
/// that graph, whatever the places of its pairs, where the graph is within the limits.
pub fn written_reads_back()
    ensures { WrittenReadsBack }
{}
