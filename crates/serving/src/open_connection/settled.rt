//! How a connection settles a file.
ghost use Rattle.std.specs.Prelude.{◌≡◌, true, false};

use super::Connection;
use part10::Settling;
use service::Observer;
use std::io::Write;
use std::time::Instant;

impl<'c, S, F: Settling, B: Observer> Connection<'c, S, F, B> {
    ghost use Rattle.serving.specs.Connections.{filing_of, inputs_at, moments_at, origin_of, socket_of, state_at, unconsumed_at, waiting_at};

    /// Returns whether the last file of the filing waits to be settled, or was lost before that.
    /// Then nothing is read or sent.
    pub fn has_pending(&self) -> bool
        ensures { result ≡ F.has_pending (filing_of self.now) }
    {
        self.filing.has_pending()
    }

    /// Advises the system to start writing the file that waits to be settled. Does not block.
    pub fn start_writing(&self) {
        self.filing.start_writing();
    }

    /// Syncs the bytes of the waiting file to the disk, and gives the file its name.
    pub fn write_out(&mut self)
        ensures same_origin { origin_of self.new ≡ origin_of self.old }
        ensures has_pending { F.has_pending (filing_of self.new) ≡ F.has_pending (filing_of self.old) }
        ensures quiet { socket_of self.new ≡ socket_of self.old }
        ensures same_state { state_at self.new ≡ state_at self.old }
        ensures same_waiting { waiting_at self.new ≡ waiting_at self.old }
        ensures same_unconsumed { unconsumed_at self.new ≡ unconsumed_at self.old }
        ensures same_inputs { inputs_at self.new ≡ inputs_at self.old }
        ensures same_moments { moments_at self.new ≡ moments_at self.old }
    {
        self.filing.write_out();
    }
}

impl<'c, S: Write, F: Settling, B: Observer> Connection<'c, S, F, B> {
    ghost use Rattle.serving.specs.Connections.{filing_of, interventions_in, is_to_close_at, lost_at, origin_of, socket_of};

    /// Settles the file that waits, if any, with this sync of names, and sends the reply to its
    /// store. The observer is notified of whether the file is durable. If it is lost, nothing is
    /// sent. Returns whether the connection is to be closed.
    ///
    /// `lost`, `waits`: it is exactly if a file still waits afterwards. `closes`, `quiet`: if the sync does not
    /// cover the file, the connection is to be closed and nothing is sent.
    pub fn settle(&mut self, synced: &F::Synced, now: Instant) -> bool
        ensures same_origin { origin_of self.new ≡ origin_of self.old }
        ensures lost { F.has_pending (filing_of self.new) ≡ true → result ≡ true }
        ensures quiet { F.has_pending (filing_of self.old) ≡ true → F.covers (filing_of self.old) synced.now ≡ false → socket_of self.new ≡ socket_of self.old }
        ensures closes { F.has_pending (filing_of self.old) ≡ true → F.covers (filing_of self.old) synced.now ≡ false → result ≡ true }
        ensures cause { result ≡ true → is_to_close_at F.has_pending self.new ≡ true }
        ensures noted { result ≡ true → lost_at self.new ≡ true }
        ensures waits { result ≡ true → F.has_pending (filing_of self.new) ≡ true }
        ensures peers { interventions_in self.new ≡ interventions_in self.old }
    {
        if !self.filing.has_pending() {
            return false;
        }
        self.is_ready = true;
        let settled = self.filing.settle(synced);
        self.observer.settled(settled.is_ok());
        if settled.is_err() {
            self.is_lost = true;
            return true;
        }
        self.flush(now);
        self.is_lost = self.has_pending();
        self.is_lost
    }
}
