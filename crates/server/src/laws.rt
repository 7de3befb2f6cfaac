//! Lemmas on the definitions of this crate, each stated as the contract of a function that does
//! nothing.
ghost use Rattle.std.specs.Prelude.{List};
ghost use Rattle.std.specs.List.{All};
ghost use Rattle.folder_filing.specs.Settling.{is_unsettled};
ghost use Rattle.folder_filing.specs.States.{FolderState};
ghost use Rattle.server.specs.FolderStore.{folder_store};
ghost use Rattle.server.specs.Histories.{AllEnded};
ghost use Rattle.server.specs.PowerLoss.{SlotKeepsSuccesses};
ghost use Rattle.server.specs.declared.server.opening.history.SlotHistory as history;

use crate::policy::Policy;
use folder_filing::laws;

/// What [`serve_many`](crate::serve_many) ensures of the slots of a server, its clause `ended`,
/// gives that each C-STORE whose response with success was sent, if only its first byte, is a file
/// that survives a loss of power from the report of its commit on, by the model of a disk of
/// [`folder_filing`]: for each connection that has ended, and whose filing syncs.
pub fn successes_survive_a_power_loss<P: Policy>()
    ensures { (slots : List (history.SlotHistory FolderState)) → ∥ All (AllEnded folder_store is_unsettled P.allows P.configuration) slots ∥₁ → ∥ All SlotKeepsSuccesses slots ∥₁ }
{
    laws::settled_files_survive_a_power_loss();
    laws::reported_files_survive_a_power_loss();
}
