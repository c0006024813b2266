//! Reading the whole input, up to a limit.

ghost use Rattle.std.specs.Prelude.{◌≡◌, ◌≤◌, ◌<◌, ◌-◌, ◌^◌, length, take, IfOk, IfSome, vec_len, Err};
ghost use Rattle.std.specs.Io.{ReadsAtMost};
ghost use Rattle.std.specs.Io.KnownBytes.{ReadConsumes};

use crate::fault::RunFault;
use std::alloc::Global;
use std::io;
use std::io::{ErrorKind, Read};

/// How many interrupted reads are made again, in all.
const MOST_INTERRUPTIONS: u32 = 1_000;

/// A reader that gives up at the 1,001st interrupted read.
#[derive(Drop)]
struct RetryingReader<R> {
    reader: R,
    interruptions: u32,
}

impl<R: Read> Read for RetryingReader<R> {
    ghost remaining = { λ p. R.remaining p.reader };

    fn read(&mut self, buffer: &mut [u8]) -> io::Result<usize>
        ensures bound { ReadsAtMost result buffer.new }
        ensures bytes { ReadConsumes (R.remaining self.old.reader) (R.remaining self.new.reader)
            result buffer.new }
    {
        match self.reader.read(buffer) {
            Ok(count) => Ok(count),
            Err(error) if error.kind() == ErrorKind::Interrupted => {
                if self.interruptions >= MOST_INTERRUPTIONS {
                    return Err(io::Error::from(ErrorKind::Other));
                }
                self.interruptions += 1;
                Err(error)
            }
            Err(error) => Err(error),
        }
    }
}

/// Reads a whole input: every byte that the reader has left, where that is at most so many.
pub fn read_input<R: Read>(alloc: Global, reader: &mut R, most: u64) -> Result<Vec<u8>, RunFault>
    requires most { most < 2 ^ 64 - 1 }
    ensures all { IfOk result (λ v.
        IfSome (R.remaining reader.old) (λ input. v.items ≡ input)) }
    ensures fits { IfOk result (λ v. vec_len v ≤ most) }
    ensures too_long { result ≡ Err RunFault.TooLong →
        IfSome (R.remaining reader.old) (λ input. most < length input) }
{
    let mut input = Vec::new(alloc);
    let patient = RetryingReader {
        reader,
        interruptions: 0,
    };
    match patient.take(most + 1).read_to_end(&mut input) {
        Ok(_) => {}
        Err(error) if error.kind() == ErrorKind::OutOfMemory => return Err(RunFault::Memory),
        Err(_) => return Err(RunFault::Read),
    }
    if input.len() as u64 > most {
        return Err(RunFault::TooLong);
    }
    Ok(input)
}
