//! A filing of which a chosen call fails.
ghost use Rattle.std.specs.Prelude.{◌≡◌, ◌+◌, None, false};

use element::count::Count;
use part10::{Filing, FilingFailed};

/// A filing over another filing, of which one call may fail. It counts its calls.
#[derive(Drop)]
pub(crate) struct FailingFiling<F: Filing + Drop> {
    kept: F,
    /// The index of the call to `begin`, `append` or `commit` that fails, counted from 0.
    at: usize,
    pub(crate) begins: usize,
    pub(crate) appends: usize,
    pub(crate) commits: usize,
    failed_draft: usize,
    failures: Count,
}

impl<F: Filing + Drop> FailingFiling<F> {
    pub(crate) fn new(kept: F, at: usize) -> FailingFiling<F> {
        FailingFiling {
            kept,
            at,
            begins: 0,
            appends: 0,
            commits: 0,
            failed_draft: 0,
            failures: Count::new(),
        }
    }

    /// Returns the underlying filing.
    pub(crate) fn kept(&self) -> &F {
        &self.kept
    }

    /// Returns how many calls were made that can fail.
    pub(crate) fn calls(&self) -> usize {
        self.begins
            .saturating_add(self.appends)
            .saturating_add(self.commits)
    }

    /// Returns the draft whose call failed, counted from 1, or 0 if no call failed.
    pub(crate) fn failed_draft(&self) -> usize {
        self.failed_draft
    }

    /// Fails a call; the underlying filing loses its draft.
    fn fail(&mut self)
        ensures draft { (F.store self.new.kept).has_draft ≡ false }
        ensures counted { self.new.failures ≡ self.old.failures + 1 }
    {
        self.kept.discard();
        self.failed_draft = self.begins;
        self.failures.add_one();
    }
}

impl<F: Filing + Drop> Filing for FailingFiling<F> {
    ghost store = { λ f. record { reported = None; has_draft = (F.store f.kept).has_draft; failures = f.failures } };

    fn begin(&mut self) -> Result<(), FilingFailed> {
        let fails = self.calls() == self.at;
        self.begins = self.begins.saturating_add(1);
        if fails || self.kept.begin().is_err() {
            self.fail();
            return Err(FilingFailed);
        }
        Ok(())
    }

    fn append(&mut self, bytes: &[u8]) -> Result<(), FilingFailed> {
        let fails = self.calls() == self.at;
        self.appends = self.appends.saturating_add(1);
        if fails || self.kept.append(bytes).is_err() {
            self.fail();
            return Err(FilingFailed);
        }
        Ok(())
    }

    fn commit(&mut self) -> Result<(), FilingFailed> {
        let fails = self.calls() == self.at;
        self.commits = self.commits.saturating_add(1);
        if fails || self.kept.commit().is_err() {
            self.fail();
            return Err(FilingFailed);
        }
        Ok(())
    }

    fn discard(&mut self) {
        self.kept.discard();
    }
}
