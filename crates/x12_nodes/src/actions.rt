//! Actions, copied and compared.

ghost use Rattle.std.specs.Prelude.{◌≡◌, IfOk, map};
ghost use Rattle.std.specs.Cmp.Lexicographic.{pointwise};
ghost use Rattle.x12_core.specs.Action.{Orders};
ghost use Rattle.x12_core.specs.View.{action_view};
ghost use Rattle.x12_envelopes.specs.Envelope.{elements_view, segment_view};
ghost use Rattle.x12_judge.specs.Agreement.{agreement_view};
ghost use Rattle.x12_nodes.specs.Comparing.{action_is, agreement_is, moment_is, order_is};
ghost use Rattle.x12_station.specs.Ordering.{order_view};

use std::alloc::{AllocError, Global};
use x12_core::Action;
use x12_envelopes::{Moment, Party};
use x12_judge::Agreement;
use x12_station::Body;

/// A copy of a segment.
fn copied_segment(alloc: Global, elements: &[Vec<u8>]) -> Result<Vec<Vec<u8>>, AllocError>
    ensures { IfOk result (λ v. elements_view v.items ≡ elements_view elements.now) }
{
    let mut copies = Vec::with_capacity(alloc, elements.len())?;
    for element in elements {
        copies.push(Vec::from_slice(alloc, element)?)?;
    }
    Ok(copies)
}

/// Copies of segments.
fn copied_segments(
    alloc: Global,
    segments: &[Vec<Vec<u8>>],
) -> Result<Vec<Vec<Vec<u8>>>, AllocError>
    ensures { IfOk result (λ v. map segment_view v.items ≡ map segment_view segments.now) }
{
    let mut copies = Vec::with_capacity(alloc, segments.len())?;
    for segment in segments {
        copies.push(copied_segment(alloc, segment)?)?;
    }
    Ok(copies)
}

/// A copy of an order.
fn copied_order(alloc: Global, order: &Body) -> Result<Body, AllocError>
    ensures { IfOk result (λ b. order_view b ≡ order_view order.now) }
{
    let segments = copied_segments(alloc, &order.segments)?;
    Ok(Body { segments })
}

/// Copies of orders.
fn copied_orders(alloc: Global, orders: &[Body]) -> Result<Vec<Body>, AllocError>
    ensures { IfOk result (λ v. map order_view v.items ≡ map order_view orders.now) }
{
    let mut copies = Vec::with_capacity(alloc, orders.len())?;
    for order in orders {
        copies.push(copied_order(alloc, order)?)?;
    }
    Ok(copies)
}

/// A copy of an agreement.
fn copied_agreement(alloc: Global, agreement: &Agreement) -> Result<Agreement, AllocError>
    ensures { IfOk result (λ a. agreement_view a ≡ agreement_view agreement.now) }
{
    let pairs = Vec::from_slice(alloc, &agreement.pairs)?;
    Ok(Agreement {
        partner: agreement.partner,
        lenient: agreement.lenient,
        pairs,
    })
}

/// A copy of an action.
pub(crate) fn copied_action(alloc: Global, action: &Action) -> Result<Action, AllocError>
    ensures { IfOk result (λ a. action_view a ≡ action_view action.now) }
{
    Ok(match action {
        Action::SubmitOrders { to, at, orders } => Action::SubmitOrders {
            to: *to,
            at: *at,
            orders: copied_orders(alloc, orders)?,
        },
        Action::SubmitPrepared { bytes } => Action::SubmitPrepared {
            bytes: Vec::from_slice(alloc, bytes)?,
        },
        Action::Tick { now } => Action::Tick { now: *now },
        Action::Collect { node } => Action::Collect { node: *node },
        Action::Agree { agreement } => Action::Agree {
            agreement: copied_agreement(alloc, agreement)?,
        },
        Action::Enrol { party, node } => Action::Enrol {
            party: *party,
            node: *node,
        },
        Action::Dismiss { party } => Action::Dismiss { party: *party },
        Action::Restart => Action::Restart,
    })
}

/// Whether two moments are the same.
pub(crate) fn is_moment(one: Moment, other: Moment) -> bool
    ensures { result ≡ moment_is one other }
{
    one == other
}

/// Whether two orders are the same.
fn is_order(one: &Body, other: &Body) -> bool
    ensures { result ≡ order_is (order_view one.now) (order_view other.now) }
{
    one.segments == other.segments
}

/// Whether these orders are the same.
fn are_orders(orders: &[Body], others: &[Body]) -> bool
    ensures { result ≡ pointwise order_is (map order_view orders.now) (map order_view others.now) }
{
    let (mut left, mut right) = (orders, others);
    while let Some((one, more)) = left.split_first() {
        let Some((other, rest)) = right.split_first() else {
            return false;
        };
        if !is_order(one, other) {
            return false;
        }
        left = more;
        right = rest;
    }
    right.is_empty()
}

/// Whether two agreements are the same.
fn is_agreement(one: &Agreement, other: &Agreement) -> bool
    ensures { result ≡ agreement_is (agreement_view one.now) (agreement_view other.now) }
{
    one.partner == other.partner && one.lenient == other.lenient && one.pairs == other.pairs
}

/// Whether these orders are submitted.
fn submits(to: &Party, at: Moment, orders: &[Body], other: &Action) -> bool
    ensures { result
        ≡ action_is (Orders to.now at (map order_view orders.now)) (action_view other.now) }
{
    match other {
        Action::SubmitOrders {
            to: its,
            at: when,
            orders: others,
        } => to == its && is_moment(at, *when) && are_orders(orders, others),
        _ => false,
    }
}

/// Whether two actions are the same.
pub(crate) fn is_action(one: &Action, other: &Action) -> bool
    ensures { result ≡ action_is (action_view one.now) (action_view other.now) }
{
    match (one, other) {
        (Action::SubmitOrders { to, at, orders }, _) => submits(to, *at, orders, other),
        (Action::SubmitPrepared { bytes }, Action::SubmitPrepared { bytes: others }) => {
            bytes == others
        }
        (Action::Tick { now }, Action::Tick { now: when }) => now == when,
        (Action::Collect { node }, Action::Collect { node: other }) => node == other,
        (Action::Agree { agreement }, Action::Agree { agreement: other }) => {
            is_agreement(agreement, other)
        }
        (
            Action::Enrol { party, node },
            Action::Enrol {
                party: other,
                node: its,
            },
        ) => { party == other && node == its }
        (Action::Dismiss { party }, Action::Dismiss { party: other }) => party == other,
        (Action::Restart, Action::Restart) => true,
        _ => false,
    }
}
