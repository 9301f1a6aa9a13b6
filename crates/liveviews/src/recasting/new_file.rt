//! Recasts a file to another, which a new file replaces when it is whole.

ghost use Rattle.std.specs.Prelude.{◌≡◌, ℕ, List, OnErr, OnOk, Option};
ghost use Rattle.std.specs.Io.KnownBytes.{Appends};
ghost use Rattle.liveviews.specs.Files.{Replaces};
ghost use Rattle.liveviews.specs.Program.{Ends, IsStopped};
ghost use Rattle.liveviews.specs.Source.{HoldsFile};
ghost use Rattle.liveviews.specs.declared.program.outcome.Refusal.TheVariants.{CannotWrite};

use crate::files::{Files, STANDARD};
use crate::program::open_file;
use crate::program::outcome::Refusal;
use crate::recasting::one_pass::recast_through;
use crate::recasting::whole::{RecastFault, SourceFault, recast_from};
use std::alloc::Global;
use stream_writer::DeviceFault;
use values::Cause;

/// Recasts the file at `from` to the file at `to`: to a new file that replaces it, where one can, and else to the file
/// itself.
pub(crate) fn recast_file<'a, F: Files>(
    alloc: Global,
    from: &'a str,
    to: &'a str,
    files: &mut F,
) -> Result<u64, Refusal<'a>>
    ensures { Ends (F.content files.old from.now) (F.sunk files.old) (F.sunk files.new)
        (F.not_created files.new) result }
{
    files.print_aside(to == STANDARD);
    let mut input = open_file(from, files)?;
    match files.begin_new(to) {
        Ok(Some(file)) => recast_to_new(alloc, &mut input, from, file, to, files),
        Ok(None) => recast_to_named(alloc, &mut input, from, to, files),
        Err(fault) => Err(Refusal::not_created(fault, to)),
    }
}

/// Recasts an input, which is the file at `from`, to a new file while it is read, as
/// [`recast_through`](crate::recast_through) does. The new file, which [`Files::begin_new`] began for `to`, replaces
/// the one there when all was accepted and put, and is discarded otherwise: then each file holds what it held.
pub fn recast_to_new<'a, F: Files>(
    alloc: Global,
    input: &mut F::Input,
    from: &'a str,
    mut file: F::New,
    to: &'a str,
    files: &mut F,
) -> Result<u64, Refusal<'a>>
    requires begins { F.New.sunk file ≡ F.sunk files.old }
    ensures ends { (held : Option (List ℕ)) → HoldsFile held (F.Input.remaining input.old)
        → Ends held (F.sunk files.old) (F.sunk files.new) (F.not_created files.new) result }
    ensures placed { OnOk result ((bytes : List ℕ) → Appends (F.sunk files.old).taken (F.sunk files.new).taken bytes
        → Replaces (F.content files.old) (F.content files.new) to.now bytes) }
    ensures same { OnErr result (F.content files.new ≡ F.content files.old) }
{
    match recast_through(alloc, input, &mut file) {
        Ok(written) => match files.place(file, to) {
            Ok(()) => Ok(written),
            Err(DeviceFault) => Err(Refusal::Refused(Cause::Device)),
        },
        Err(fault) => {
            files.discard(file);
            Err(Refusal::unstreamed(fault, from))
        }
    }
}

/// Recasts an input, which is the file at `from`, to the file at `to`, which is made when the first bytes are put.
fn recast_to_named<'a, F: Files>(
    alloc: Global,
    input: &mut F::Input,
    from: &'a str,
    to: &'a str,
    files: &mut F,
) -> Result<u64, Refusal<'a>>
    ensures { (held : Option (List ℕ)) → HoldsFile held (F.Input.remaining input.old)
        → Ends held (F.sunk files.old) (F.sunk files.new) (F.not_created files.new) result }
{
    if let Err(fault) = files.create(to) {
        return Err(Refusal::not_created(fault, to));
    }
    match recast_from(alloc, input, files) {
        Ok(written) => Ok(written),
        Err(SourceFault::Unreadable) => Err(Refusal::CannotRead(from)),
        Err(SourceFault::Refused(fault)) => Err(stopped(files, fault, to)),
    }
}

/// The refusal of a recast that failed: `CannotWrite` where the file at `to` could not be made.
fn stopped<'a, F: Files>(files: &F, fault: RecastFault, to: &'a str) -> Refusal<'a>
    ensures { IsStopped (CannotWrite to.entry) (F.not_created files.now) fault.cause result }
{
    match (fault.cause, files.fault()) {
        (Cause::Device, Some(not_created)) => Refusal::not_created(not_created, to),
        (cause, _) => Refusal::Refused(cause),
    }
}
