//! A party as its 17 bytes, in a row and as the one that was asked for.

ghost use Rattle.std.specs.Prelude.{◌≡◌, ◌≢◌, Err, IfOk, OnOk, OnErr, ◌<◌, IfSome, length, IsSome};
ghost use Rattle.x12_tables.specs.Adopt.{TakesRows};
ghost use Rattle.x12_tables.specs.Party.{bytes_in, party_in, bytes_of_party, IsWideParty, IsParty};
ghost use Rattle.x12_tables.specs.declared.fault.RecordsFault.{RecordsFault};
ghost use Rattle.x12_tables.specs.declared.fault.RecordsFault.TheVariants.{OtherParty};
ghost use Rattle.sqlite.specs.Order.{column};
ghost use Rattle.sqlite.specs.declared.error.Error.TheVariants.{SqliteFailure};
ghost use Rattle.sqlite.specs.declared.error.ErrorCode.TheVariants.{OutOfMemory};
ghost use Rattle.sqlite.specs.declared.types.Value.TheVariants.{Blob};

use crate::fault::RecordsFault;
use sqlite::types::ValueRef;
use sqlite::{Error, Row};
use x12_envelopes::Party;

/// Tests that this party stands in the place of the wanted one; [`RecordsFault::OtherParty`] names both
/// where another one does.
pub fn test_party(found: &Party, wanted: &Party) -> Result<(), RecordsFault>
    ensures same { OnOk result (found.now ≡ wanted.now) }
    ensures other { OnErr result (found.now ≢ wanted.now) }
    ensures both { OnErr result (result ≡ Err (OtherParty found.now wanted.now)) }
{
    if found != wanted {
        return Err(RecordsFault::OtherParty {
            found: *found,
            wanted: *wanted,
        });
    }
    Ok(())
}

/// The 17 bytes of a party: the two of its qualifier, then the fifteen of its identifier.
pub fn party_bytes(party: &Party) -> [u8; 17]
    ensures bytes { result ≡ bytes_of_party party.now }
    ensures wide { IsWideParty party.now }
{
    let mut bytes = [0; 17];
    bytes[..2].copy_from_slice(&party.qualifier);
    bytes[2..].copy_from_slice(&party.id);
    bytes
}

/// The party of 17 bytes, if there are so many.
pub fn party_of_bytes(bytes: &[u8]) -> Option<Party>
    ensures party { IfSome result (λ party. party ≡ party_in bytes.now) }
    ensures taken { length bytes.now ≡ 17 → IsSome result }
{
    if bytes.len() != 17 {
        return None;
    }
    let mut qualifier = [0; 2];
    qualifier.copy_from_slice(&bytes[..2]);
    let mut id = [0; 15];
    id.copy_from_slice(&bytes[2..]);
    Some(Party { qualifier, id })
}

/// The party in a column, counted from 0; an error where that holds anything but 17 bytes.
pub fn party_in_row(row: &Row, at: usize) -> Result<Party, Error>
    ensures party { IfOk result (λ party. party ≡ party_in (bytes_in (column row.now at))) }
    ensures is { IfOk result (λ party. column row.now at ≡ Blob (bytes_of_party party)) }
    ensures wide { IfOk result (λ party. IsWideParty party) }
    ensures identifier { IfOk result (λ party. length party.id ≡ 15) }
    ensures taken { TakesRows (IsParty (column row.now at)) (SqliteFailure OutOfMemory) result }
{
    let ValueRef::Blob(bytes) = row.get_ref(at)? else {
        return Err(Error::IntegralValueOutOfRange(at));
    };
    match party_of_bytes(bytes) {
        Some(party) => Ok(party),
        None => Err(Error::IntegralValueOutOfRange(at)),
    }
}
