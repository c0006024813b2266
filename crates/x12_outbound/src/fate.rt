//! How a submitted transaction set fares.

ghost use Rattle.std.specs.Prelude.{◌≡◌};
ghost use Rattle.x12_outbound.specs.Fate.{ended, final_fate};

/// How a submitted transaction set fares.
#[derive(Clone, Copy, Debug, PartialEq, Eq)]
pub enum Fate {
    /// No evidence has come yet.
    Pending,
    /// Evidence said that it was accepted.
    Accepted,
    /// Evidence said that it was accepted, with errors noted.
    Noted,
    /// Evidence said that it was rejected.
    Rejected,
}

/// How a transaction set ends: the fate that evidence tells.
#[derive(Clone, Copy, PartialEq, Eq)]
pub(crate) enum FinalFate {
    /// It was accepted.
    Accepted,
    /// It was accepted, with errors noted.
    Noted,
    /// It was rejected.
    Rejected,
}

impl FinalFate {
    /// The fate of a set that ended so.
    pub(crate) fn fate(self) -> Fate
        ensures { result ≡ ended (final_fate self) }
    {
        match self {
            FinalFate::Accepted => Fate::Accepted,
            FinalFate::Noted => Fate::Noted,
            FinalFate::Rejected => Fate::Rejected,
        }
    }
}
