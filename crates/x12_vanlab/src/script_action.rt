//! What a script's line has a node do: its words, and the action that they mean.

use crate::script_fault::LineFault;
use crate::script_name::Name;
use crate::script_setting::Setting;
use crate::script_stop::Stop;
use crate::script_word::{Words, text_of};
use std::alloc::{AllocError, Global};
use x12_answering::read_pair;
use x12_judge::Agreement;
use x12_station::Body;
use x12_world::Action;

/// What a node is to do. Nodes are named by their parties.
#[derive(Clone, Copy)]
pub(crate) enum ActionLine<'a> {
    /// A party gets its mailbox at a hub, for a node.
    Enrol {
        party: Name,
        node: Name,
        hub: Name,
    },
    /// A party loses its mailbox at a hub.
    Dismiss {
        party: Name,
        hub: Name,
    },
    /// A station agrees on these pairs with a partner, leniently or not.
    Agree {
        node: Name,
        partner: Name,
        lenient: bool,
        pairs: Option<&'a [u8]>,
    },
    /// A station submits orders with these texts.
    Orders {
        node: Name,
        to: Name,
        texts: Option<&'a [u8]>,
    },
    /// A station submits these bytes.
    Prepared {
        node: Name,
        bytes: &'a [u8],
    },
    /// A station sends again what is due.
    Tick {
        node: Name,
        now: u64,
    },
    /// A hub sends what waits for a node.
    Collect {
        node: Name,
        hub: Name,
    },
    /// A node starts again.
    Restart(Name),
}

impl<'a> ActionLine<'a> {
    /// The node that does it.
    pub(crate) fn actor(&self) -> Name {
        match *self {
            ActionLine::Enrol { hub, .. } => hub,
            ActionLine::Dismiss { hub, .. } => hub,
            ActionLine::Agree { node, .. } => node,
            ActionLine::Orders { node, .. } => node,
            ActionLine::Prepared { node, .. } => node,
            ActionLine::Tick { node, .. } => node,
            ActionLine::Collect { hub, .. } => hub,
            ActionLine::Restart(node) => node,
        }
    }
}

/// `enrol PARTY NODE [HUB2]`
fn enrol<'a>(rest: Option<&'a [u8]>) -> Result<ActionLine<'a>, LineFault<'a>> {
    let mut words = Words::new(rest, "enrol PARTY NODE");
    let (party, node) = (words.name(), words.name());
    let hub = words.hub();
    words.end_with(ActionLine::Enrol { party, node, hub })
}

/// `dismiss PARTY [HUB2]`
fn dismiss<'a>(rest: Option<&'a [u8]>) -> Result<ActionLine<'a>, LineFault<'a>> {
    let mut words = Words::new(rest, "dismiss PARTY");
    let party = words.name();
    let hub = words.hub();
    words.end_with(ActionLine::Dismiss { party, hub })
}

/// `agree NODE PARTY [lenient] PAIR..`
fn agree<'a>(rest: Option<&'a [u8]>) -> Result<ActionLine<'a>, LineFault<'a>> {
    let mut words = Words::new(rest, "agree NODE PARTY [lenient] PAIR..");
    let (node, partner) = (words.name(), words.name());
    let lenient = words.takes(b"lenient");
    let pairs = words.left();
    words.end_with(ActionLine::Agree {
        node,
        partner,
        lenient,
        pairs,
    })
}

/// `orders NODE PARTY TEXT..`
fn orders<'a>(rest: Option<&'a [u8]>) -> Result<ActionLine<'a>, LineFault<'a>> {
    let mut words = Words::new(rest, "orders NODE PARTY TEXT..");
    let (node, to) = (words.name(), words.name());
    let texts = words.left();
    words.end_with(ActionLine::Orders { node, to, texts })
}

/// `prepared NODE BYTES`
fn prepared<'a>(rest: Option<&'a [u8]>) -> Result<ActionLine<'a>, LineFault<'a>> {
    let mut words = Words::new(rest, "prepared NODE BYTES");
    let node = words.name();
    let bytes = words.bytes();
    words.end_with(ActionLine::Prepared { node, bytes })
}

/// `tick NODE N`
fn tick<'a>(rest: Option<&'a [u8]>) -> Result<ActionLine<'a>, LineFault<'a>> {
    let mut words = Words::new(rest, "tick NODE NUMBER");
    let node = words.name();
    let now = words.number(u64::MAX);
    words.end_with(ActionLine::Tick { node, now })
}

/// `collect NODE [HUB2]`
fn collect<'a>(rest: Option<&'a [u8]>) -> Result<ActionLine<'a>, LineFault<'a>> {
    let mut words = Words::new(rest, "collect NODE");
    let node = words.name();
    let hub = words.hub();
    words.end_with(ActionLine::Collect { node, hub })
}

/// `restart NODE`
fn restart<'a>(rest: Option<&'a [u8]>) -> Result<ActionLine<'a>, LineFault<'a>> {
    let mut words = Words::new(rest, "restart NODE");
    let node = words.name();
    words.end_with(ActionLine::Restart(node))
}

/// What a line with this first word has a node do, of which this is the rest.
pub(crate) fn read_action<'a>(
    word: &'a str,
    rest: Option<&'a [u8]>,
) -> Result<ActionLine<'a>, LineFault<'a>> {
    match word {
        "enrol" => enrol(rest),
        "dismiss" => dismiss(rest),
        "agree" => agree(rest),
        "orders" => orders(rest),
        "prepared" => prepared(rest),
        "tick" => tick(rest),
        "collect" => collect(rest),
        "restart" => restart(rest),
        word => Err(LineFault::NoSuchWord(word)),
    }
}

/// The order with a text, on a date: one item, ten of it at five.
fn order<'a>(alloc: Global, text: &'a [u8], date: &'a [u8]) -> Result<Body, AllocError> {
    let head: [&'a [u8]; 6] = [b"BEG", b"00", b"SA", text, b"", date];
    let item: [&'a [u8]; 5] = [b"PO1", b"1", b"10", b"EA", b"5"];
    Body::new(alloc, &[&head, &item])
}

/// One order more than an interchange may have.
const TOO_MANY: usize = 401;

/// Whether no order can have this text.
fn is_barred(text: &[u8]) -> bool {
    text.iter()
        .any(|byte| *byte < 0x20 || matches!(byte, b'*' | b':' | b'~'))
}

impl Setting {
    /// The orders with these texts, of today. Of too many it leaves out those that change nothing of
    /// the refusal: a text that can't be written is told before the number of orders.
    fn orders<'a>(&self, texts: Option<&'a [u8]>) -> Result<Vec<Body>, Stop<'a>> {
        let mut orders = Vec::new(self.alloc);
        let Some(texts) = texts else {
            return Ok(orders);
        };
        let date = self.at.date();
        for text in texts.split(|byte| *byte == b' ') {
            if text.is_empty() {
                return Err(Stop::BadLine(LineFault::NoText));
            }
            if orders.len() < TOO_MANY || orders.len() == TOO_MANY && is_barred(text) {
                orders.push(order(self.alloc, text, &date)?)?;
            }
        }
        Ok(orders)
    }

    /// These pairs of GS01 and ST01.
    fn pairs<'a>(&self, words: Option<&'a [u8]>) -> Result<Vec<([u8; 2], [u8; 3])>, Stop<'a>> {
        let mut pairs = Vec::new(self.alloc);
        let Some(words) = words else {
            return Ok(pairs);
        };
        for word in words.split(|byte| *byte == b' ') {
            match read_pair(word) {
                Some(pair) => pairs.push(pair)?,
                None => return Err(Stop::BadLine(LineFault::Pair(text_of(word)))),
            }
        }
        Ok(pairs)
    }

    /// What a line has its node do.
    pub(crate) fn action<'a>(&self, line: &ActionLine<'a>) -> Result<Action, Stop<'a>> {
        match *line {
            ActionLine::Enrol { party, node, .. } => {
                let (party, node) = (party.party, self.node(&node));
                Ok(Action::Enrol { party, node })
            }
            ActionLine::Dismiss { party, .. } => Ok(Action::Dismiss { party: party.party }),
            ActionLine::Agree {
                partner,
                lenient,
                pairs,
                ..
            } => {
                let (partner, pairs) = (partner.party, self.pairs(pairs)?);
                let agreement = Agreement {
                    partner,
                    lenient,
                    pairs,
                };
                Ok(Action::Agree { agreement })
            }
            ActionLine::Orders { to, texts, .. } => {
                let (to, at, orders) = (to.party, self.at, self.orders(texts)?);
                Ok(Action::SubmitOrders { to, at, orders })
            }
            ActionLine::Prepared { bytes, .. } => {
                let bytes = Vec::from_slice(self.alloc, bytes)?;
                Ok(Action::SubmitPrepared { bytes })
            }
            ActionLine::Tick { now, .. } => Ok(Action::Tick { now }),
            ActionLine::Collect { node, .. } => {
                let node = self.node(&node);
                Ok(Action::Collect { node })
            }
            ActionLine::Restart(_) => Ok(Action::Restart),
        }
    }
}
