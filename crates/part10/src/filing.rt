//! The interface of the storage for received files.
ghost use Rattle.std.specs.Prelude.{◌≡◌, true, false};
ghost use Rattle.part10.specs.Store.{Store, LeavesStore, without_draft, appended, committed, stepped};

/// A call of a [`Filing`] failed (fault 52). After a failed `begin`, `append` or `commit` there is
/// no draft, and the files are unchanged.
#[derive(Clone, Copy, Debug, PartialEq, Eq)]
pub struct FilingFailed;

/// Storage for received files: a folder, or memory. A file is first a draft, of which there is at
/// most one: `begin` creates it, `append` adds bytes, and then `commit` makes it a file or
/// `discard` drops it.
///
/// A call that fails drops the draft, leaves the files unchanged, and counts as one failure.
pub trait Filing {
    /// For contracts: the files and the draft's bytes, if the implementation knows them; whether
    /// there is a draft; and the number of failed calls.
    ghost store: { Self → Store };

    /// Creates an empty draft. Drops an existing draft.
    fn begin(&mut self) -> Result<(), FilingFailed>
        ensures leaves { LeavesStore without_draft true result (store self.old) (store self.new) };

    /// Appends the bytes to the draft, which must exist.
    fn append(&mut self, bytes: &[u8]) -> Result<(), FilingFailed>
        requires { (store self.old).has_draft ≡ true }
        ensures leaves { LeavesStore (appended bytes.now) true result (store self.old) (store self.new) };

    /// Makes the draft the last of the files. The draft must exist; there is none afterwards.
    fn commit(&mut self) -> Result<(), FilingFailed>
        requires { (store self.old).has_draft ≡ true }
        ensures leaves { LeavesStore committed false result (store self.old) (store self.new) };

    /// Drops the draft, if it exists. Never fails.
    fn discard(&mut self)
        ensures leaves { store self.new ≡ stepped without_draft false (store self.old) };
}
