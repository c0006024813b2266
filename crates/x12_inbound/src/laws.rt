//! What holds of postings, over the definitions alone.

ghost use Rattle.x12_inbound.specs.Accepted.{PostsWhatIsAccepted};

use x12_acks::a_reply_accepts_the_accepted_sets;

/// What is posted of an interchange, the transaction sets that its verdict accepts, is what the reply
/// that is kept accepts, by place; where no reply is due, nothing is posted.
pub fn what_is_posted_was_accepted()
    ensures law { PostsWhatIsAccepted }
{
    a_reply_accepts_the_accepted_sets();
}
