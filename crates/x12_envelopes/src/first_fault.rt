//! What the first fault of an interchange means in the words of the grammar (X12.5, X12.6).

ghost use Rattle.x12_envelopes.specs.FirstFault.{FaultsHaveReasons};

/// Where reading gives a fault, the segments in front of it begin an interchange, and it stands at
/// the first one with which none goes on: one that has a control byte or may not stand there, a
/// header that can't be read or is one too many, what follows IEA, or the end of the bytes. Does
/// nothing when it runs.
pub fn faults_have_reasons()
    ensures { FaultsHaveReasons }
{}
