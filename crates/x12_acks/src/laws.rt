//! What holds of answers, over the definitions alone.

ghost use Rattle.x12_acks.specs.Laws.{GrammarIsRead, SegmentsTellVerdict, ReplyFits};
ghost use Rattle.x12_acks.specs.Laws.{ReplyTellsVerdict, AnswersReadBack, PlainPartyIsAddress};
ghost use Rattle.x12_acks.specs.Length.{ReplyIsShort};
ghost use Rattle.x12_acks.specs.Place.{ReplyAcceptsByPlace};
ghost use Rattle.x12_acks.specs.Due.{GroupNumberIsUnused};
ghost use Rattle.x12_acks.specs.Told.{VerdictIsToldByPlace};

use x12_envelopes::{
    elements_are_read_back, header_is_read_back, numbers_are_readable, outline_is_read_back,
    segments_fit, trees_alone_are_read, what_was_read_is_writable,
};

/// A 997 is read as its grammar says: each acknowledgment is read as what it says, and what is none is
/// unclear.
pub fn a_997_is_read_by_its_grammar()
    ensures law { GrammarIsRead }
{}

/// What a verdict tells of a submitted interchange, group by group and set by set, is what is told by
/// place: of each transaction set once, that it is accepted exactly where it is among those that the
/// verdict accepts. So for an interchange that can be read and has no group of acknowledgments.
pub fn a_verdict_is_told_by_place()
    ensures law { VerdictIsToldByPlace }
{}

/// What the segments of a reply tell the sender of the interchange that it answers is the verdict of
/// each transaction set, once; and what those of a refusal tell is a rejection of each.
pub fn segments_tell_the_verdict()
    ensures law { SegmentsTellVerdict }
{
    numbers_are_readable();
}

/// Each reply to an interchange whose header can be read, and each refusal of it with a note of at
/// most three digits, fits: it is read back as it was meant.
pub fn a_reply_fits()
    ensures law { ReplyFits }
{
    numbers_are_readable();
    what_was_read_is_writable();
    trees_alone_are_read();
}

/// A reply that takes no group control number is the same under each.
pub fn a_group_number_is_used_where_it_is_taken()
    ensures law { GroupNumberIsUnused }
{}

/// What an interchange that was written as one that fits answers, as it is read back, is what its
/// segments answer: each TA1, and each set of a group of acknowledgments.
pub fn answers_are_read_back()
    ensures law { AnswersReadBack }
{
    elements_are_read_back();
    segments_fit();
}

/// A plain party may stand in ISA, under the delimiters of whatever header.
pub fn a_plain_party_is_an_address()
    ensures law { PlainPartyIsAddress }
{}

/// The bytes of a reply tell the sender of the interchange that it answers the verdict of each
/// transaction set, once; and those of a refusal tell a rejection of each.
pub fn a_reply_tells_the_verdict()
    ensures law { ReplyTellsVerdict }
{
    numbers_are_readable();
    elements_are_read_back();
    header_is_read_back();
    outline_is_read_back();
    segments_fit();
    what_was_read_is_writable();
    trees_alone_are_read();
}

/// A reply to an interchange whose header can be read, and a refusal of it with a note of three digits,
/// have fewer than 400,000 bytes, at most one functional group and at most 32 transaction sets.
pub fn a_reply_is_short()
    ensures law { ReplyIsShort }
{
    what_was_read_is_writable();
    trees_alone_are_read();
}

/// The transaction sets that a reply accepts are those that the verdict accepts, by place: the 997 in a
/// place of the reply answers the functional group in that place among those that aren't of
/// acknowledgments, and the transaction set that it lists in a place answers the one in that place of the
/// group. So for every interchange that can be read, also where numbers repeat. Each 997 names its group.
pub fn a_reply_accepts_the_accepted_sets()
    ensures law { ReplyAcceptsByPlace }
{
    numbers_are_readable();
    elements_are_read_back();
    header_is_read_back();
    outline_is_read_back();
    segments_fit();
    a_reply_fits();
}
