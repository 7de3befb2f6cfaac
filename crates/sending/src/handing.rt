//! Hands a file over.
ghost use Rattle.std.specs.Prelude.{◌≡◌, ◌⊎◌, []};
ghost use Rattle.std.specs.Io.KnownBytes.{IsAtEnd};
ghost use Rattle.sending.specs.Names.{MovesName};
ghost use Rattle.sending.specs.Handing.{IsUnaccepted, RemovesOnlyAnswered, state_of};

use crate::association::Association;
use crate::context::StorageContext;
use crate::ending::Ending;
use crate::refusal::{Refusal, is_refused};
use crate::removing::Removals;
use crate::response::is_filed;
use crate::sent_file::SentFile;
use part10::{Meta, MetaFault};
use std::io::{Error, Read, Write};
use std::rt::Files;
use std::time::Clock;

/// What was done with a file.
#[derive(Drop)]
pub enum Handed {
    /// It was not sent: its File Meta Information is invalid.
    Faulty(MetaFault),
    /// It was not sent: its data set has an odd number of bytes (PS3.5 section 7.1).
    Odd,
    /// It was not sent: it cannot be read.
    Unread(Error),
    /// It was not sent: it has another SOP class or transfer syntax than its presentation context.
    Changed,
    /// It was not sent, and stays: the archive accepts no presentation context for it.
    Unaccepted,
    /// The archive responded with this status, and the file stays.
    Answered(u16),
    /// The archive has filed it with this status, and it was removed.
    Removed(u16),
    /// The archive has filed it with this status. It was not removed, as something else is at its
    /// path, or by this error.
    Kept(u16, Option<Error>),
    /// The archive refuses it for good, and it was moved to the folder of refused files.
    SetAside(Refusal),
    /// The archive refuses it for good, and it stays, since it could not be moved.
    NotSetAside(Refusal, Error),
}

/// Moves a file that the archive refuses for good to the folder of refused files, if there is one.
fn refuse<R: Files + Alloc + Clock>(
    rt: &R,
    file: &SentFile<'_, R::File>,
    meta: &Meta,
    refusal: Refusal,
    removals: &mut Removals<'_>,
) -> Handed
    ensures { MovesName file.now.path.now removals.old.calls removals.new.calls }
{
    let Some(folder) = removals.refused() else {
        return match refusal {
            Refusal::Status(status) => Handed::Answered(status),
            Refusal::NoContext => Handed::Unaccepted,
        };
    };
    let moved = match folder.take_in(rt, file, meta, refusal) {
        Ok(path) => removals.leave_at(rt, file, path.as_str()),
        Err(error) => Err(error),
    };
    match moved {
        Ok(()) => Handed::SetAside(refusal),
        Err(error) => Handed::NotSetAside(refusal, error),
    }
}

/// Sends a file in this presentation context, if the peer has accepted it. As `removals` asks for
/// it, removes the file if the response says that the archive has filed it, and moves it to the
/// folder of refused files if the archive refuses it for good. An error is the end of the
/// association.
#[tactic(auto, using(crate::proofs::StoreIsAnswered::responds))]
pub fn hand_over<S: Read + Write + Drop, R: Files + Alloc + Clock>(
    rt: &R,
    association: &mut Association<S>,
    context: &StorageContext,
    file: &mut SentFile<'_, R::File>,
    removals: &mut Removals<'_>,
) -> Result<Handed, Ending>
    requires { file.old.file.read.bytes ≡ [] }
    ensures removes { RemovesOnlyAnswered file.new.path.now file.new.file.read.bytes context.now.index
        (state_of removals.old association.old) (state_of removals.new association.new) }
    ensures end { (removals.new.calls ≡ removals.old.calls)
        ⊎ (IsAtEnd (R.File.remaining file.new.file.device) ⊎ IsUnaccepted context.now.index association.old.accepted) }
{
    let route = association.route(context);
    let front = match association.buffers.read_front(&mut file.file, route.size) {
        Ok(Ok(front)) => front,
        Ok(Err(fault)) => return Ok(Handed::Faulty(fault)),
        Err(error) => return Ok(Handed::Unread(error)),
    };
    if front.meta.class != context.class || front.meta.syntax != context.syntax {
        return Ok(Handed::Changed);
    }
    if file.has_odd_rest(front.meta_size()) {
        return Ok(Handed::Odd);
    }
    if !association.accepts(context) {
        return Ok(refuse(rt, file, &front.meta, Refusal::NoContext, removals));
    }
    let status = association.store(route, &front, &mut file.file)?;
    if is_refused(status) {
        return Ok(refuse(rt, file, &front.meta, Refusal::Status(status), removals));
    }
    if !removals.are_wanted() || !is_filed(status) {
        return Ok(Handed::Answered(status));
    }
    match file.is_there(rt) {
        Ok(true) => {}
        Ok(false) => return Ok(Handed::Kept(status, None)),
        Err(error) => return Ok(Handed::Kept(status, Some(error))),
    }
    match removals.remove(rt, file) {
        Ok(()) => Ok(Handed::Removed(status)),
        Err(error) => Ok(Handed::Kept(status, Some(error))),
    }
}
