//! Running a script: what happens in a network, line by line, and what everybody holds at the end.

ghost use Rattle.std.specs.Prelude.{◌≡◌, ◌≢◌, ◌≤◌, ◌<◌, length, IfOk, IfErr, IfSome, OnOk};
ghost use Rattle.std.specs.Prelude.{Err, true, false};
ghost use Rattle.std.specs.Io.KnownBytes.{Keeps};
ghost use Rattle.x12_answering.specs.Fault.{is_reading_fault};
ghost use Rattle.x12_vanlab.specs.Script.{EndsAtBadLine, Grows};
ghost use Rattle.x12_vanlab.specs.declared.script_status.ScriptStatus.TheVariants.{BadLine};

use crate::script_bad_line::tell_bad_line;
use crate::script_lines::Lines;
use crate::script_playing::Script;
use crate::script_status::ScriptStatus;
use crate::script_stop::Stop;
use std::alloc::Global;
use std::io::{Read, Write};
use x12_answering::{RunFault, read_input, write_last};

/// The most bytes that a script may have.
const MOST_BYTES: u64 = 16_777_216;

/// Plays the lines of a script, and writes what is gathered in the end; where a line is bad, says so.
fn play<W: Write, E: Write>(
    alloc: Global,
    script: &mut Script,
    lines: &mut Lines<'_>,
    out: &mut W,
    err: &mut E,
) -> Result<ScriptStatus, RunFault>
    ensures bad_line { IfOk result (λ status. status ≡ BadLine → EndsAtBadLine
        (W.contents out.old) (W.contents out.new) (E.contents err.old) (E.contents err.new)) }
    ensures no_words { IfOk result (λ status. status ≢ BadLine →
        Keeps (E.contents err.old) (E.contents err.new)) }
    ensures fault { IfErr result (λ fault. is_reading_fault fault ≡ false) }
    ensures printed { Grows (W.contents out.old) (W.contents out.new) }
    ensures told { Grows (E.contents err.old) (E.contents err.new) }
{
    match script.run(lines, out) {
        Ok(()) => {
            write_last(&mut script.text, out)?;
            Ok(script.status())
        }
        Err(Stop::BadLine(fault)) => {
            tell_bad_line(alloc, &mut script.text, lines.number(), fault, out, err)?;
            Ok(ScriptStatus::BadLine)
        }
        Err(Stop::Memory) => Err(RunFault::Memory),
        Err(Stop::Write) => Err(RunFault::Write),
    }
}

/// Runs a script: carries out its lines in order, in a network over records in memory, and writes to
/// `out` what they print. `report_only` leaves out what lines print, and writes the report of the
/// end in its place, whether or not the script asks for one.
///
/// At a line that is bad the run ends: `out` says so behind all that was printed, as
/// `line 3: bad line`, and `err` says in words what is wrong with it.
///
/// On `RunFault::Read` and `RunFault::TooLong` nothing was written. On `RunFault::Write` and
/// `RunFault::Memory` a front of what is printed may have been written, which may end within a line.
pub fn run_script<R: Read, W: Write, E: Write>(
    alloc: Global,
    report_only: bool,
    reader: &mut R,
    out: &mut W,
    err: &mut E,
) -> Result<ScriptStatus, RunFault>
    ensures bad_line { IfOk result (λ status. status ≡ BadLine → EndsAtBadLine
        (W.contents out.old) (W.contents out.new) (E.contents err.old) (E.contents err.new)) }
    ensures no_words { IfOk result (λ status. status ≢ BadLine →
        Keeps (E.contents err.old) (E.contents err.new)) }
    ensures fits { OnOk result
        (IfSome (R.remaining reader.old) (λ input. length input ≤ 16777216)) }

    // What an error says, and leaves.
    ensures too_long { result ≡ Err RunFault.TooLong →
        IfSome (R.remaining reader.old) (λ input. 16777216 < length input) }
    ensures nothing_printed { IfErr result (λ fault. is_reading_fault fault ≡ true →
        Keeps (W.contents out.old) (W.contents out.new)) }
    ensures nothing_told { IfErr result (λ fault. is_reading_fault fault ≡ true →
        Keeps (E.contents err.old) (E.contents err.new)) }
    ensures printed { Grows (W.contents out.old) (W.contents out.new) }
    ensures told { Grows (E.contents err.old) (E.contents err.new) }
{
    let input = read_input(alloc, reader, MOST_BYTES)?;
    let mut script = Script::new(alloc, report_only)?;
    play(alloc, &mut script, &mut Lines::new(&input), out, err)
}
