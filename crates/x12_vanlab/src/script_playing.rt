//! Carrying out the lines of a script.

ghost use Rattle.std.specs.Prelude.{◌≡◌, ◌≢◌, ◌++◌, ◌||◌, if◌then◌else◌, OnOk, flat_map};
ghost use Rattle.std.specs.List.{list_any};
ghost use Rattle.x12_vanlab.specs.declared.script_status.ScriptStatus.TheVariants.{BadLine};
ghost use Rattle.x12_vanlab.specs.declared.script_status.ScriptStatus.TheVariants.{BadReport, Done};
ghost use Rattle.x12_report.specs.Reporting.{audit_is_bad, report_line};
ghost use Rattle.x12_vanlab.specs.Script.{Grows};

use crate::script_fault::LineFault;
use crate::script_line::{EventLine, Line, SetPlace};
use crate::script_lines::Lines;
use crate::script_name::Name;
use crate::script_network::{Net, answered, end, new_network};
use crate::script_reading::read_line;
use crate::script_setting::Setting;
use crate::script_status::ScriptStatus;
use crate::script_stop::Stop;
use crate::script_telling::{
    push_carried, push_counts, push_fate, push_number, push_outcome, push_refusal,
};
use std::alloc::{AllocError, Global};
use std::io::Write;
use x12_acks::SetKey;
use x12_answering::write_piece;
use x12_hub::HubFault;
use x12_report::{Audit, is_bad, report};
use x12_station::StationFault;
use x12_world::{NodeFault, Outcome, PacketName, Refused};

/// Whether memory was missing.
fn is_memory(refused: &Refused) -> bool {
    match *refused {
        Refused::Memory => true,
        Refused::Node(NodeFault::OfStation(StationFault::Memory)) => true,
        Refused::Node(NodeFault::OfHub(HubFault::Memory)) => true,
        _ => false,
    }
}

/// Whether the line of one of these audits says `BAD`.
fn has_bad(audits: &[Audit]) -> bool
    ensures { result ≡ list_any audit_is_bad audits.now }
{
    audits.iter().any(|audit| is_bad(audit))
}

/// A script on its way.
#[derive(Drop)]
pub(crate) struct Script {
    /// The nodes by their names, and the clock.
    setting: Setting,
    /// Nothing is printed but the report of the end.
    report_only: bool,
    /// What the lines print, until it is written.
    pub(crate) text: Vec<u8>,
    /// A line of a report that was told says `BAD`.
    is_bad: bool,
}

impl Script {
    /// A script of which no line was carried out.
    pub(crate) fn new(alloc: Global, report_only: bool) -> Result<Script, AllocError> {
        Ok(Script {
            setting: Setting::new(alloc)?,
            report_only,
            text: Vec::new(alloc),
            is_bad: false,
        })
    }

    /// How the run ends, where no line is bad: whether a report told `BAD`.
    pub(crate) fn status(&self) -> ScriptStatus
        ensures good_line { result ≢ BadLine }
        ensures alarm { result ≡ (if self.now.is_bad then BadReport else Done) }
    {
        if self.is_bad {
            ScriptStatus::BadReport
        } else {
            ScriptStatus::Done
        }
    }

    /// Tells what came of an event.
    fn tell_event(&mut self, came: &Result<Outcome, Refused>) -> Result<(), AllocError> {
        match came {
            Ok(outcome) if outcome.lost => Err(AllocError),
            Ok(outcome) => push_outcome(&mut self.text, &self.setting, outcome),
            Err(refused) if is_memory(refused) => Err(AllocError),
            Err(refused) => push_refusal(&mut self.text, refused),
        }
    }

    /// Lets an event happen.
    fn happen<'a>(&mut self, net: &mut Net, line: &EventLine<'a>) -> Result<(), Stop<'a>> {
        let event = self.setting.event(line)?;
        Ok(self.tell_event(&net.apply(&event))?)
    }

    /// Tells how a transaction set fares.
    fn tell_fate<'a>(&mut self, net: &mut Net, place: &SetPlace) -> Result<(), Stop<'a>> {
        let _ = self.setting.station(&place.node)?;
        let key = SetKey {
            sender: place.node.party,
            icn: place.icn,
            group: place.group,
            set: place.set,
        };
        let fate = answered(net.fate(&key))?;
        Ok(push_fate(&mut self.text, fate)?)
    }

    /// Tells what a station counted.
    fn tell_counts<'a>(&mut self, net: &Net, name: &Name) -> Result<(), Stop<'a>> {
        let node = self.setting.station(name)?;
        let counts = answered(net.counts(node))?;
        Ok(push_counts(&mut self.text, &counts)?)
    }

    /// Tells how many postings a station has.
    fn tell_postings<'a>(&mut self, net: &mut Net, name: &Name) -> Result<(), Stop<'a>> {
        let node = self.setting.station(name)?;
        let postings = answered(net.postings(node))?;
        push_number(&mut self.text, postings.len() as u64)?;
        self.text.push(b'\n')?;
        Ok(())
    }

    /// Tells what a packet carries.
    fn show<'a>(&mut self, net: &Net, name: &PacketName) -> Result<(), Stop<'a>> {
        Ok(push_carried(&mut self.text, net.packet(name))?)
    }

    /// Tells the lines of these audits, and remembers whether one of them says `BAD`.
    fn tell_report(&mut self, audits: &[Audit]) -> Result<(), AllocError>
        ensures lines { OnOk result (self.new.text.items
            ≡ self.old.text.items ++ flat_map report_line audits.now) }
        ensures alarm { OnOk result (self.new.is_bad
            ≡ (self.old.is_bad || list_any audit_is_bad audits.now)) }
    {
        let lines = report(self.setting.alloc, audits)?;
        self.text.extend_from_slice(&lines)?;
        self.is_bad = self.is_bad || has_bad(audits);
        Ok(())
    }

    /// Tells how all transaction sets fare.
    fn report(&mut self, net: &mut Net) -> Result<(), AllocError> {
        let audits = answered(net.audits())?;
        self.tell_report(&audits)
    }

    /// Writes what was printed once it is enough, or forgets it.
    fn print<W: Write>(&mut self, out: &mut W) -> Result<(), Stop<'static>>
        ensures { Grows (W.contents out.old) (W.contents out.new) }
    {
        if self.report_only {
            self.text.clear();
            return Ok(());
        }
        match write_piece(&mut self.text, out) {
            Ok(()) => Ok(()),
            Err(_) => Err(Stop::Write),
        }
    }

    /// Carries out a line.
    fn carry_out<'a>(&mut self, net: &mut Net, line: &Line<'a>) -> Result<(), Stop<'a>> {
        match line {
            Line::Clock(at) => {
                self.setting.at = *at;
                Ok(())
            }
            Line::SecondHub => Err(Stop::BadLine(LineFault::LateHub)),
            Line::Station(_) => Err(Stop::BadLine(LineFault::LateStation)),
            Line::Event(event) => self.happen(net, event),
            Line::Show(name) => self.show(net, name),
            Line::Fate(place) => self.tell_fate(net, place),
            Line::Counts(name) => self.tell_counts(net, name),
            Line::Postings(name) => self.tell_postings(net, name),
            Line::Comment => Ok(()),
            Line::Report if self.report_only => Ok(()),
            Line::Report => Ok(self.report(net)?),
        }
    }

    /// Takes a line of those that stand in front: the second hub's, a station's or the clock's. Any
    /// other it leaves, and says `false`.
    fn take_front<'a>(&mut self, line: &Line<'a>) -> Result<bool, Stop<'a>> {
        match *line {
            Line::Clock(at) => self.setting.at = at,
            Line::SecondHub => self.setting.add_second_hub()?,
            Line::Station(station) => self.setting.add(station)?,
            Line::Comment => {}
            _ if self.setting.is_empty() => return Err(Stop::BadLine(LineFault::NoStation)),
            _ => return Ok(false),
        }
        Ok(true)
    }

    /// Takes the second hub's line and the stations' lines, and those of the clock among them.
    fn open<'a>(&mut self, lines: &mut Lines<'a>) -> Result<(), Stop<'a>> {
        let mut ahead = *lines;
        while let Some(bytes) = ahead.take() {
            if !self.take_front(&read_line(bytes)?)? {
                return Ok(());
            }
            *lines = ahead;
        }
        Ok(())
    }

    /// Carries out the lines that are left, and writes what they print as it comes.
    fn go_on<'a, W: Write>(
        &mut self,
        net: &mut Net,
        lines: &mut Lines<'a>,
        out: &mut W,
    ) -> Result<(), Stop<'a>>
        ensures { Grows (W.contents out.old) (W.contents out.new) }
    {
        let mut ahead = *lines;
        while let Some(bytes) = ahead.take() {
            self.carry_out(net, &read_line(bytes)?)?;
            self.print(out)?;
            *lines = ahead;
        }
        if self.report_only {
            self.report(net)?;
        }
        Ok(())
    }

    /// Carries out all lines, in the network of the stations in front.
    pub(crate) fn run<'a, W: Write>(
        &mut self,
        lines: &mut Lines<'a>,
        out: &mut W,
    ) -> Result<(), Stop<'a>>
        ensures { Grows (W.contents out.old) (W.contents out.new) }
    {
        self.open(lines)?;
        if self.setting.is_empty() {
            return Ok(());
        }
        let (alloc, has_second) = (self.setting.alloc, self.setting.has_second);
        let mut net = new_network(alloc, self.setting.stations(), has_second)?;
        let played = self.go_on(&mut net, lines, out);
        end(net);
        played
    }
}
