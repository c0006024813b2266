//! The profile of X12 004010 meets the network's laws: laws, as functions that do nothing.

ghost use Rattle.x12_profile.specs.Laws.{Laws};
ghost use Rattle.x12_profile.specs.OrderLaw.{OrdersAreSubmitted};
ghost use Rattle.x12_profile.specs.X12.{x12};

use x12_acks::{
    a_plain_party_is_an_address, a_reply_accepts_the_accepted_sets, a_reply_fits,
    a_reply_tells_the_verdict, answers_are_read_back,
};
use x12_envelopes::{header_is_read_back, numbers_are_readable, outline_is_read_back};

/// What a station reads of an interchange's bytes and what it writes in answer meet every law that
/// the network asks of X12: so what holds of the network for each such profile holds of X12 bytes.
pub fn x12_meets_the_laws()
    ensures laws { Laws x12 }
{
    header_is_read_back();
    outline_is_read_back();
    numbers_are_readable();
    answers_are_read_back();
    a_reply_fits();
    a_reply_tells_the_verdict();
    a_reply_accepts_the_accepted_sets();
}

/// What a station writes of 1 to 400 orders to a plain party is a submission exactly if it has at
/// most 1,048,576 bytes. Then it is read back as it was meant: it bears both parties and the numbers
/// of the book, and its transaction sets are the orders, each once and in their order.
pub fn orders_are_submitted()
    ensures law { OrdersAreSubmitted }
{
    header_is_read_back();
    outline_is_read_back();
    answers_are_read_back();
    a_plain_party_is_an_address();
}
