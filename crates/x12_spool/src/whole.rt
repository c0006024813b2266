//! A file is put whole: nobody ever sees a part of it under its name.

ghost use Rattle.std.specs.Prelude.{◌≡◌, ◌⊎◌, ◌∷◌, [], List, Option, IfOk, OnOk, OnErr};
ghost use Rattle.x12_spool.specs.Deed.{Deed, AddsDeeds, Writes, Renames, Syncs};
ghost use Rattle.x12_spool.specs.Offering.{AreFront};
ghost use Rattle.x12_spool.specs.Turn.{Does};
ghost use Rattle.x12_spool.specs.Whole.{dotted_name, puts_under, puts_whole};

use crate::spool::SpoolFault;
use std::alloc::{AllocError, Global};

/// One folder of a disk. Each call may have been done also where it answers an error.
pub trait Disk {
    /// What was done in it, the oldest first. A real disk: nothing is said.
    ghost done: { Self → Option (List Deed) };

    /// Writes a file anew, and waits until its bytes are on the disk.
    fn write(&mut self, name: &[u8], bytes: &[u8]) -> Result<(), SpoolFault>
        ensures written { OnOk result
            (AddsDeeds (done self.old) (done self.new) (Writes name.now bytes.now ∷ [])) }
        ensures unsure { OnErr result (AddsDeeds (done self.old) (done self.new) []
            ⊎ AddsDeeds (done self.old) (done self.new) (Writes name.now bytes.now ∷ [])) };

    /// Gives a file another name, in place of the file that has it.
    fn rename(&mut self, from: &[u8], to: &[u8]) -> Result<(), SpoolFault>
        ensures renamed { OnOk result
            (AddsDeeds (done self.old) (done self.new) (Renames from.now to.now ∷ [])) }
        ensures unsure { OnErr result (AddsDeeds (done self.old) (done self.new) []
            ⊎ AddsDeeds (done self.old) (done self.new) (Renames from.now to.now ∷ [])) };

    /// Waits until the folder's names are on the disk.
    fn sync(&mut self) -> Result<(), SpoolFault>
        ensures synced { OnOk result (AddsDeeds (done self.old) (done self.new) (Syncs ∷ [])) }
        ensures unsure { OnErr result (AddsDeeds (done self.old) (done self.new) []
            ⊎ AddsDeeds (done self.old) (done self.new) (Syncs ∷ [])) };
}

/// The name that a file has until it is whole: a dot in front.
fn dotted(alloc: Global, name: &[u8]) -> Result<Vec<u8>, AllocError>
    ensures { IfOk result (λ v. v.items ≡ dotted_name name.now) }
{
    let mut dot = Vec::new(alloc);
    dot.push(b'.')?;
    dot.extend_from_slice(name)?;
    Ok(dot)
}

/// Puts a file under a name, by way of another one.
fn put_by_way_of<D: Disk>(
    disk: &mut D,
    dot: &[u8],
    name: &[u8],
    bytes: &[u8],
) -> Result<(), SpoolFault>
    ensures whole { OnOk result
        (AddsDeeds (D.done disk.old) (D.done disk.new) (puts_under dot.now name.now bytes.now)) }
    ensures stopped { OnErr result (Does (D.done disk.old) (D.done disk.new)
        (AreFront (puts_under dot.now name.now bytes.now))) }
{
    disk.write(dot, bytes)?;
    disk.rename(dot, name)?;
    disk.sync()
}

/// Puts a file under a name: it is written under a name with a dot in front, which nobody looks at, and
/// gets its own once its bytes are on the disk. Put again, it overwrites the same.
pub fn put_whole<D: Disk>(
    alloc: Global,
    disk: &mut D,
    name: &[u8],
    bytes: &[u8],
) -> Result<(), SpoolFault>
    ensures whole { OnOk result
        (AddsDeeds (D.done disk.old) (D.done disk.new) (puts_whole name.now bytes.now)) }
    ensures stopped { OnErr result (Does (D.done disk.old) (D.done disk.new)
        (AreFront (puts_whole name.now bytes.now))) }
{
    let dot = dotted(alloc, name)?;
    put_by_way_of(disk, &dot, name, bytes)
}
