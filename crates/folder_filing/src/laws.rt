//! Lemmas on the definitions of this crate, and examples, each stated as the contract of a function
//! with an empty body.
ghost use Rattle.std.specs.Prelude.{◌≡◌, List, false, length, true};
ghost use Rattle.folder_filing.specs.declared.location.Location as location;
ghost use Rattle.folder_filing.specs.Naming.{AreApart, Rises};
ghost use Rattle.folder_filing.specs.Naming.{IsOrderly, Naming};
ghost use Rattle.folder_filing.specs.Crashes.{SurvivesPowerLoss};
ghost use Rattle.folder_filing.specs.Sharing.{Step, SurvivesAmong, own_calls};
ghost use Rattle.folder_filing.specs.Examples.{WorkedCrashes, WorkedNames};
ghost use Rattle.folder_filing.specs.Settling.{is_unsettled};
ghost use Rattle.folder_filing.specs.States.{FolderState};
ghost use Rattle.folder_filing.specs.Synced.{reports};

/// In a list of locations in strictly ascending order no location occurs twice: no number is given
/// twice.
pub fn locations_that_rise_differ()
    ensures { (locations : List location.Location) → Rises locations → AreApart locations }
{}

/// Examples: the system calls that name three files, and lists of calls that would lose a file.
pub fn worked_names()
    ensures { WorkedNames }
{}

/// While a filing syncs, at each point of its system calls, also within a commit, whatever disk a
/// loss of power may leave there, each file whose commit was reported until then has its name and
/// all of its bytes.
pub fn reported_files_survive_a_power_loss()
    ensures { (naming : Naming) → IsOrderly naming → naming.has_sync ≡ true → SurvivesPowerLoss naming.calls }
{}

/// The same, at each point of the system calls of all filings of the folder, in any order, for each
/// file whose location the other filings leave alone.
pub fn files_survive_beside_other_filings()
    ensures { (naming : Naming) (steps : List Step) → IsOrderly naming → naming.has_sync ≡ true → naming.calls ≡ own_calls steps → SurvivesAmong steps }
{}

/// While a filing that syncs does not wait, each of its files was reported, and so survives a loss
/// of power.
pub fn settled_files_survive_a_power_loss()
    ensures { (filing : FolderState) → is_unsettled filing ≡ false → filing.names.has_sync ≡ true →
        SurvivesPowerLoss filing.names.calls × (reports filing.names.calls ≡ length filing.contents.files) }
{}

/// Examples: what a loss of power may leave of a file.
pub fn worked_crashes()
    ensures { WorkedCrashes }
{}
