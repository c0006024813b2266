//! The commands of mailboxes: a file each, and the table of all.

use crate::agreeing::AgreeWords;
use crate::enrolling::EnrolWords;
use crate::logging::LogWords;
use crate::making::InitWords;
use crate::migrating::MigrateWords;
use crate::opening::OpensRecords;
use crate::posted::PostingsWords;
use crate::reconciling::ReconcileWords;
use crate::running::RunWords;
use crate::status::StatusWords;
use crate::stop::Stop;
use crate::submitting::SubmitWords;
use crate::verifying::VerifyWords;
use crate::{
    agreeing, enrolling, logging, making, migrating, posted, reconciling, running, status,
    submitting, verifying,
};
use clap::ArgMatches;
use command_table::{HasRow, Row};

/// A command of mailboxes.
#[derive(Clone, Copy)]
pub enum Command {
    /// Makes the folder of a station or of a hub.
    Init,
    /// Gives a party a mailbox at a hub.
    Enrol,
    /// Says which transaction sets a station takes from a partner.
    Agree,
    /// Submits interchanges or orders of a station.
    Submit,
    /// Takes what came, and puts what goes on: a turn of a station or of a hub.
    Run,
    /// Prints the status of each submitted set of a station, or what waits at a hub.
    Status,
    /// Tells what a station submitted, took and posted, or what went through a hub.
    Log,
    /// Lists the accepted sets of a station, or writes them into files.
    Postings,
    /// Compares the senders' statuses with the receivers' postings, byte by byte.
    Reconcile,
    /// Computes a station's statuses, postings and numbers again, and names the first difference.
    Verify,
    /// Brings a station's records of an older version to the newest.
    Migrate,
}

/// All of them, in the order of the help.
pub static COMMANDS: [Command; 11] = [
    Command::Init,
    Command::Enrol,
    Command::Agree,
    Command::Submit,
    Command::Run,
    Command::Status,
    Command::Log,
    Command::Postings,
    Command::Reconcile,
    Command::Verify,
    Command::Migrate,
];

impl HasRow for Command {
    fn row(self) -> Row {
        match self {
            Command::Init => making::row(),
            Command::Enrol => enrolling::row(),
            Command::Agree => agreeing::row(),
            Command::Submit => submitting::row(),
            Command::Run => running::row(),
            Command::Status => status::row(),
            Command::Log => logging::row(),
            Command::Postings => posted::row(),
            Command::Reconcile => reconciling::row(),
            Command::Verify => verifying::row(),
            Command::Migrate => migrating::row(),
        }
    }
}

impl Command {
    /// Runs the command of these words, over records that `opens` opens. The status of the program is 0
    /// where all was done, and 1 where something wasn't, which was told.
    ///
    /// A `Stop` says why the command ended before its end.
    pub fn run<O: OpensRecords>(
        self,
        rt: &HostRuntime,
        opens: &O,
        found: &ArgMatches<'_>,
    ) -> Result<u8, Stop> {
        match self {
            Command::Init => making::init(rt, opens, &InitWords::of(found)),
            Command::Enrol => enrolling::enrol(rt, opens, &EnrolWords::of(found)),
            Command::Agree => agreeing::agree(rt, opens, &AgreeWords::of(found)),
            Command::Submit => submitting::submit(rt, opens, &SubmitWords::of(found)),
            Command::Run => running::run(rt, opens, &RunWords::of(found)),
            Command::Status => status::status(rt, opens, &StatusWords::of(found)),
            Command::Log => logging::log(rt, opens, &LogWords::of(found)),
            Command::Postings => posted::postings(rt, opens, &PostingsWords::of(found)),
            Command::Reconcile => reconciling::reconcile(rt, opens, &ReconcileWords::of(found)),
            Command::Verify => verifying::verify(rt, opens, &VerifyWords::of(found)),
            Command::Migrate => migrating::migrate(rt, opens, &MigrateWords::of(found)),
        }
    }
}
