//! Handles the data set of a C-STORE: walks it as it is received, and writes it to the draft of a
//! file.
ghost use Rattle.std.specs.Prelude.{◌≡◌, ◌≤◌, ◌+◌, ◌*◌, ◌^◌, ◌++◌, List, ℕ, true, false, Some, None};
ghost use Rattle.sequence.specs.declared.coding.Coding.{Coding};
ghost use Rattle.sequence.specs.Rules.{Limits};
ghost use Rattle.sequence.specs.Consumed.{reported_by};
ghost use Rattle.sequence.specs.Stored.{wanted_tags};
ghost use Rattle.engine.specs.Drafts.{IsThere, Drafts};
ghost use Rattle.negotiate.specs.declared.proposals.Service.TheVariants as services;
ghost use Rattle.engine.specs.Stores as spelling;
ghost use Rattle.engine.specs.Stores.{IsOfContext, NamesUid, NamesInstance, limits};
ghost use Rattle.engine.specs.StoredData.{Nothing, HasWalked, stored_of, held_in};
ghost use Rattle.engine.specs.machine.Storing.{Begins, BeginsAnnounced, Grows, finding_of};
ghost use Rattle.engine.specs.machine.Verdicts.{Commits, Compared, WalkHasVerdict, of_fault};

use dictionary::{Class, class_of};
use dimse::{CLASS_MISMATCH, Command, Detail, INSTANCE_MISMATCH, status};
use element::{AeTitle, Tag, Uid};
use negotiate::{Context, Service};
use part10::{Filing, Meta, meta_bytes};
use sequence::{Fault, Walker, Want, Wanted};

/// SOP Class UID (0008,0016).
const CLASS: Tag = Tag(0x0008, 0x0016);

/// SOP Instance UID (0008,0018).
const INSTANCE: Tag = Tag(0x0008, 0x0018);

/// The greatest size of a UID in bytes.
const UID_ROOM: u32 = 64;

/// The state of a message's data set.
#[derive(Drop)]
pub(crate) enum Storing<const V: usize, const D: usize> {
    /// There is no data set, or it is dropped because the SOP class of the C-STORE is not that of
    /// its presentation context.
    Nothing,
    /// A data set is being received. `drafting` is whether the filing still has its draft: a failed
    /// call of the filing drops it.
    DataSet {
        drafting: bool,
        walker: Walker<V, D>,
    },
}

/// The status of the response to a C-STORE, and the cause of a failure if the response reports it.
#[derive(Clone, Copy)]
pub(crate) struct StoreStatus {
    pub(crate) status: u16,
    pub(crate) detail: Option<Detail>,
}

impl StoreStatus {
    /// Returns a status without a cause.
    fn of(status: u16) -> StoreStatus
        ensures { result ≡ record { status = status; detail = None } }
    {
        StoreStatus {
            status,
            detail: None,
        }
    }

    /// Returns a failure status with its cause: the number of a fault, and a tag.
    fn caused(status: u16, number: u8, tag: Tag) -> StoreStatus
        ensures { result ≡ record { status = status; detail = Some (record { number = number; tag = tag }) } }
    {
        StoreStatus {
            status,
            detail: Some(Detail { number, tag }),
        }
    }
}

/// Returns whether the service is this class of the dictionary.
fn is_known(service: &Service, class: Class) -> bool
    ensures yes { result ≡ true → service.now ≡ services.Known class }
    ensures no { result ≡ false → service.now ≡ services.Known class → ⊥ }
{
    match service {
        Service::Known(own) => *own == class,
        Service::Additional(_) => false,
    }
}

/// Returns whether the service is the additional class with this UID.
fn is_additional(service: &Service, uid: &Uid) -> bool
    ensures yes { result ≡ true → service.now ≡ services.Additional uid.now }
    ensures no { result ≡ false → service.now ≡ services.Additional uid.now → ⊥ }
{
    match service {
        Service::Known(_) => false,
        Service::Additional(own) => own == uid,
    }
}

/// Returns whether the SOP class of a C-STORE is a storage class and that of its presentation
/// context: one of the dictionary, or an additional one of the settings.
pub(crate) fn is_of_context(context: &Context, command: &Command) -> bool
    ensures yes { result ≡ true → IsOfContext context.now command.now }
    ensures no { result ≡ false → IsOfContext context.now command.now → ⊥ }
{
    let bytes = command.class().as_bytes();
    match class_of(bytes) {
        Some(class) => is_known(&context.class, class) && class.is_storage(),
        None => match Uid::read(bytes) {
            Some(uid) => is_additional(&context.class, &uid),
            None => false,
        },
    }
}

/// Returns the tags whose values of a data set are kept: SOP Class UID and SOP Instance UID.
fn wanted() -> Wanted
    ensures { wanted_tags result ≡ spelling.wanted }
{
    let wants = [
        Want {
            tag: CLASS,
            room: UID_ROOM,
        },
        Want {
            tag: INSTANCE,
            room: UID_ROOM,
        },
    ];
    match Wanted::of(&wants) {
        Some(wanted) => wanted,
        None => unreachable!(),
    }
}

/// Starts a draft with this file header. Returns whether the filing has the draft: `false` if a
/// call of the filing failed.
fn begin_draft<F: Filing>(header: &[u8], filing: &mut F) -> bool
    ensures { Begins header.now result (F.store filing.old) (F.store filing.new) }
{
    match filing.begin() {
        Ok(()) => filing.append(header).is_ok(),
        Err(_) => false,
    }
}

/// Starts a C-STORE in this presentation context: its draft, with the file header, and the walker
/// of its data set, of at most `max_data` bytes. Returns `Storing::Nothing` for any other command.
pub(crate) fn begin_store<const V: usize, const D: usize, F: Filing>(
    context: &Context,
    command: &Command,
    caller: AeTitle,
    max_data: u64,
    filing: &mut F,
) -> Storing<V, D>
    requires least_kept { 140 ≤ V }
    requires greatest_kept { V ≤ 2 ^ 24 }
    requires least_levels { 2 ≤ D }
    requires greatest_levels { D ≤ 2 ^ 24 }
    requires most_data { max_data ≤ 2 ^ 48 }
    ensures begins { BeginsAnnounced command.now caller context.now.syntax (limits D max_data) (stored_of result) (F.store filing.old) (F.store filing.new) }
    ensures no_store { command.now.with_data ≡ false → (stored_of result ≡ Nothing) × (F.store filing.new ≡ F.store filing.old) }
{
    if command.field() != Command::C_STORE {
        return Storing::Nothing;
    }
    let Some(instance) = command.instance() else {
        return Storing::Nothing;
    };
    let meta = Meta {
        class: command.class().copied(),
        instance: instance.copied(),
        syntax: context.syntax,
        calling: caller,
    };
    let header = meta_bytes(&meta);
    let drafting = begin_draft(header.as_slice(), filing);
    Storing::DataSet {
        drafting,
        walker: Walker::in_transfer(context.syntax, wanted(), max_data),
    }
}

/// Walks the bytes to their end, or to the first fault: only a step after a fault reads no byte.
fn walk<const V: usize, const D: usize>(walker: &mut Walker<V, D>, part: &[u8])
    ensures { (syntax : Coding) (lim : Limits) (set : List ℕ) → HasWalked walker.old syntax lim set → HasWalked walker.new syntax lim (set ++ part.now) }
{
    let mut rest = part;
    while !rest.is_empty() {
        let (consumed, _) = walker.step(rest);
        if consumed == 0 {
            break;
        }
        let (_, more) = rest.split_at(consumed);
        rest = more;
    }
}

/// Appends bytes of the data set to the draft, if there is one. Returns whether the filing still
/// has the draft: `false` if it failed.
fn extend_draft<F: Filing>(part: &[u8], drafting: bool, filing: &mut F) -> bool
    requires there { IsThere drafting (F.store filing.old) }
    ensures { Grows part.now drafting result (F.store filing.old) (F.store filing.new) }
{
    if drafting && !part.is_empty() {
        filing.append(part).is_ok()
    } else {
        drafting
    }
}

/// Returns whether the data set has this UID as the value of this tag.
fn names<const V: usize, const D: usize>(walker: &Walker<V, D>, tag: Tag, uid: &Uid) -> bool
    ensures yes { result ≡ true → NamesUid (reported_by walker.now).kept tag uid.now }
    ensures no { result ≡ false → NamesUid (reported_by walker.now).kept tag uid.now → ⊥ }
{
    match walker.kept(tag) {
        Some(value) => match Uid::read(value) {
            Some(named) => named == *uid,
            None => false,
        },
        None => false,
    }
}

/// Returns the status for a data set with this fault: A700 (out of resources) if it exceeds a limit
/// of the receiver, else C000 (cannot understand) with the fault as its cause.
fn failure_of(fault: Fault) -> StoreStatus
    ensures { finding_of result ≡ of_fault fault }
{
    match fault.number {
        Fault::TOO_DEEP | Fault::TOO_LONG => StoreStatus::of(status::OUT_OF_RESOURCES),
        number => StoreStatus::caused(status::CANNOT_UNDERSTAND, number, fault.tag),
    }
}

/// Returns whether the SOP Instance UID of the data set is the Affected SOP Instance UID of the
/// command.
fn names_instance<const V: usize, const D: usize>(walker: &Walker<V, D>, command: &Command) -> bool
    ensures yes { result ≡ true → NamesInstance (reported_by walker.now).kept command.now }
    ensures no { result ≡ false → NamesInstance (reported_by walker.now).kept command.now → ⊥ }
{
    match command.instance() {
        Some(instance) => names(walker, INSTANCE, instance),
        None => false,
    }
}

/// Compares the SOP class and instance UIDs of the data set with those of the command. Fails with
/// status A900 (data set does not match SOP class).
fn compare<const V: usize, const D: usize>(
    walker: &Walker<V, D>,
    command: &Command,
) -> Result<(), StoreStatus>
    ensures { Compared (reported_by walker.now).kept command.now result }
{
    if !names(walker, CLASS, command.class()) {
        return Err(StoreStatus::caused(status::DATA_SET_MISMATCH, CLASS_MISMATCH, CLASS));
    }
    if !names_instance(walker, command) {
        return Err(StoreStatus::caused(status::DATA_SET_MISMATCH, INSTANCE_MISMATCH, INSTANCE));
    }
    Ok(())
}

/// Judges a complete data set. Fails with the status for its first fault (truncation is one), or
/// for UIDs other than the command's.
fn verdict_of<const V: usize, const D: usize>(
    walker: &Walker<V, D>,
    command: &Command,
) -> Result<(), StoreStatus>
    ensures { WalkHasVerdict walker.now command.now result }
{
    match walker.finish() {
        Err(fault) => Err(failure_of(fault)),
        Ok(()) => compare(walker, command),
    }
}

/// Commits the draft, and returns the status: Success, or A700 (out of resources) if the filing
/// failed.
fn commit<F: Filing>(filing: &mut F) -> StoreStatus
    requires there { (F.store filing.old).has_draft ≡ true }
    ensures { Commits (finding_of result) (F.store filing.old) (F.store filing.new) }
{
    match filing.commit() {
        Ok(()) => StoreStatus::of(status::SUCCESS),
        Err(_) => StoreStatus::of(status::OUT_OF_RESOURCES),
    }
}

impl<const V: usize, const D: usize> Storing<V, D> {
    ghost use Rattle.std.specs.Prelude.{◌≡◌, ◌≤◌, ◌+◌, ◌*◌, None};
    ghost use Rattle.dimse.specs.Status.{class_not_supported};
    ghost use Rattle.engine.specs.machine.Verdicts.{EndsAs, HasVerdict};
    ghost use Rattle.engine.specs.StoredData.{Nothing, stored_of, drafting_in};
    ghost use Rattle.engine.specs.machine.Storing.{Continues, Drops, finding_of};

    /// Returns whether the filing has the draft of this data set.
    pub(crate) fn drafting(&self) -> bool
        ensures { result ≡ drafting_in (stored_of self.now) }
    {
        match self {
            Storing::Nothing => false,
            Storing::DataSet { drafting, .. } => *drafting,
        }
    }

    /// Returns how many bytes the walker holds of the data set.
    pub(crate) fn held(&self) -> usize
        ensures value { result ≡ held_in (stored_of self.now) }
        ensures bound { result ≤ V + 16 * D }
    {
        match self {
            Storing::Nothing => 0,
            Storing::DataSet { walker, .. } => walker.held(),
        }
    }

    /// Handles bytes of the data set: walks them, and appends them to the draft.
    pub(crate) fn take<F: Filing>(&mut self, part: &[u8], filing: &mut F)
        requires there { IsThere (drafting_in (stored_of self.old)) (F.store filing.old) }
        ensures continues { Continues part.now (stored_of self.old) (stored_of self.new) (F.store filing.old) (F.store filing.new) }
    {
        match self {
            Storing::Nothing => {}
            Storing::DataSet { drafting, walker } => {
                walk(walker, part);
                *drafting = extend_draft(part, *drafting, filing);
            }
        }
    }

    /// Judges a complete data set. Fails with the failure status of the response.
    fn verdict(&self, command: &Command) -> Result<(), StoreStatus>
        ensures { HasVerdict command.now (stored_of self.now) result }
    {
        match self {
            Storing::Nothing => Err(StoreStatus::of(status::CLASS_NOT_SUPPORTED)),
            Storing::DataSet { walker, .. } => verdict_of(walker, command),
        }
    }

    /// Ends the data set: judges it as a whole, and commits or drops its draft. Returns the status
    /// of the response.
    pub(crate) fn end<F: Filing>(&mut self, command: &Command, filing: &mut F) -> StoreStatus
        requires there { IsThere (drafting_in (stored_of self.old)) (F.store filing.old) }
        ensures nothing { stored_of self.new ≡ Nothing }
        ensures unsupported { stored_of self.old ≡ Nothing → (finding_of result ≡ record { status = class_not_supported; detail = None }) × (F.store filing.new ≡ F.store filing.old) }
        ensures ends { EndsAs command.now (finding_of result) (F.store filing.old) (F.store filing.new) (stored_of self.old) }
        ensures drafts { Drafts (drafting_in (stored_of self.old)) (F.store filing.old) (drafting_in (stored_of self.new)) (F.store filing.new) }
    {
        let drafting = self.drafting();
        match self.verdict(command) {
            Ok(()) => {
                *self = Storing::Nothing;
                if drafting {
                    commit(filing)
                } else {
                    StoreStatus::of(status::OUT_OF_RESOURCES)
                }
            }
            Err(failure) => {
                self.leave(filing);
                failure
            }
        }
    }

    /// Drops the draft, if there is one, and the state of the data set: used for a C-STORE that
    /// fails or is abandoned.
    pub(crate) fn leave<F: Filing>(&mut self, filing: &mut F)
        requires there { IsThere (drafting_in (stored_of self.old)) (F.store filing.old) }
        ensures nothing { stored_of self.new ≡ Nothing }
        ensures drops { Drops (drafting_in (stored_of self.old)) (F.store filing.old) (F.store filing.new) }
    {
        if self.drafting() {
            filing.discard();
        }
        *self = Storing::Nothing;
    }
}
