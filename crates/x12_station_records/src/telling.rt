//! What a station is told of an answer.

ghost use Rattle.std.specs.Prelude.{◌≡◌, ◌≢◌, ◌≤◌};
ghost use Rattle.x12_numbers.specs.Count.{CountRose};
ghost use Rattle.x12_profile.specs.Stop.{CountsFailures};
ghost use Rattle.x12_station.specs.declared.records.StoreFault.{StoreFault};
ghost use Rattle.x12_tables.specs.Read.{IsToldAs};

use sqlite::Error;
use x12_station::StoreFault;
use x12_tables::is_device;

/// The fault that an error is to a station; one of the device is counted.
pub(crate) fn station_fault(error: &Error, failed: &mut u64) -> StoreFault
    ensures within { failed.old ≤ failed.new }
    ensures device { result ≡ StoreFault.Device → CountRose failed.old failed.new }
    ensures other { result ≢ StoreFault.Device → failed.new ≡ failed.old }
{
    if is_device(error, failed) {
        return StoreFault::Device;
    }
    StoreFault::Memory
}

/// An answer as a station is told it.
pub(crate) fn tell_station<T>(answer: Result<T, Error>, failed: &mut u64) -> Result<T, StoreFault>
    ensures same { IsToldAs answer result }
    ensures device { CountsFailures result (λ e. e ≡ StoreFault.Device) failed.old failed.new }
{
    match answer {
        Ok(answer) => Ok(answer),
        Err(error) => Err(station_fault(&error, failed)),
    }
}
