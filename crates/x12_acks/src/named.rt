//! Which submitted interchange an answer names, and the evidence for a list of them.

ghost use Rattle.x12_acks.specs.Named.{EvidenceIsOfTheNamed, NamesOne, EvidenceNeedsTheNamed};
ghost use Rattle.x12_acks.specs.Named.{FoundInParts, FinderFinds, EvidenceOfEach};

/// What an answer tells the sender of a list of submitted interchanges is what it tells of the first that
/// it names, whatever the list: a TA1 names by the interchange's number, a 997 by one of its groups.
pub fn evidence_is_of_the_named()
    ensures law { EvidenceIsOfTheNamed }
{}

/// Of submitted interchanges whose numbers rise each answer names at most one, and the number of an
/// interchange or of a group is that of at most one.
pub fn numbers_name_one()
    ensures law { NamesOne }
{}

/// The evidence for submitted interchanges whose numbers rise is that for any list that holds those
/// which are named, and no others, in whatever order.
pub fn evidence_needs_the_named()
    ensures law { EvidenceNeedsTheNamed }
{}

/// What is found among submitted interchanges whose numbers rise is what is found among one part of
/// them, or else among the other.
pub fn evidence_is_found_in_parts()
    ensures law { FoundInParts }
{}

/// One who finds by an interchange's number, or by a group's, finds the submitted interchange that an
/// answer names, if what was found passes.
pub fn finders_find_the_named()
    ensures law { FinderFinds }
{}

/// Of one of the submitted interchanges whose numbers rise the evidence tells what it tells for it alone,
/// in the same order; and all that is told for it alone is of its keys.
pub fn evidence_is_of_each()
    ensures law { EvidenceOfEach }
{}
