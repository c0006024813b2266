//! What a hub is told of an answer.

ghost use Rattle.std.specs.Prelude.{◌≡◌, ◌≢◌, ◌≤◌};
ghost use Rattle.x12_hub.specs.declared.records.HubStoreFault.{HubStoreFault};
ghost use Rattle.x12_numbers.specs.Count.{CountRose};
ghost use Rattle.x12_profile.specs.Stop.{CountsFailures};
ghost use Rattle.x12_tables.specs.Read.{IsToldAs};

use sqlite::Error;
use x12_hub::HubStoreFault;
use x12_tables::is_device;

/// The fault that an error is to a hub; one of the device is counted.
pub(crate) fn hub_fault(error: &Error, failed: &mut u64) -> HubStoreFault
    ensures within { failed.old ≤ failed.new }
    ensures device { result ≡ HubStoreFault.Device → CountRose failed.old failed.new }
    ensures other { result ≢ HubStoreFault.Device → failed.new ≡ failed.old }
{
    if is_device(error, failed) {
        return HubStoreFault::Device;
    }
    HubStoreFault::Memory
}

/// An answer as a hub is told it.
pub(crate) fn tell_hub<T>(answer: Result<T, Error>, failed: &mut u64) -> Result<T, HubStoreFault>
    ensures same { IsToldAs answer result }
    ensures device { CountsFailures result (λ e. e ≡ HubStoreFault.Device) failed.old failed.new }
{
    match answer {
        Ok(told) => Ok(told),
        Err(error) => Err(hub_fault(&error, failed)),
    }
}
