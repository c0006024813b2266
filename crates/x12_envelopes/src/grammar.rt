//! The grammar of what stands behind ISA (X12.5, X12.6), as trees of segments: two laws that say
//! what `outline` reads.

ghost use Rattle.x12_envelopes.specs.Grammar.{ReadsTreesAlone, ReadsEachTree};

/// Each interchange tree that bytes hold is read, and the outline is what it says. Does nothing
/// when it runs.
pub fn each_tree_is_read()
    ensures { ReadsEachTree }
{}

/// Each outline that is read is what an interchange tree says that the bytes hold. Does nothing
/// when it runs.
pub fn trees_alone_are_read()
    ensures { ReadsTreesAlone }
{}
