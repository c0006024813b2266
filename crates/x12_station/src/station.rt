//! A station over its records.

use crate::cached::Cached;
use crate::records::Records;
use std::marker::Model;

/// A station: it submits interchanges and sends them until they are answered, and it judges each
/// arrival once, posts what it accepts, and answers the same way for good.
///
/// What its calls promise of its state holds while its records answer. What it has in memory a
/// refused call leaves as it was, whether they answer or not.
pub struct Station<R: Records> {
    pub(crate) records: R,
    pub(crate) memory: Cached,
}

impl<R: Records> Model for Station<R> {
    ghost use Rattle.x12_station.specs.Seen.{StationView, station_of};

    ghost Value = { StationView R };

    ghost use Rattle.x12_station.specs.Keeps.{memory_of};
    ghost use Rattle.x12_station.specs.Standing.{Stands};

    ghost view = { λ s. record {
      records = s.records;
      state = station_of s.memory.ledger.holds s.memory.counts (R.content s.records);
      failures = R.failed s.records;
      answers = R.answers s.records;
      clean = R.clean s.records;
      memory = memory_of s.memory;
    } };

    ghost invariant = { λ s. Stands R.Records s.records s.memory };
}
