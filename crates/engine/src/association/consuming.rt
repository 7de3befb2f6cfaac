//! Handles received bytes, one event at a time.
ghost use Rattle.std.specs.Prelude.{◌≡◌, ◌≤◌, ◌<◌, ◌+◌, ◌*◌, length, true, false};
ghost use Rattle.pdu.specs.Deframed.{position_of};
ghost use Rattle.pdu.specs.Steps.{events_due};
ghost use Rattle.engine.specs.machine.Lent.{before, after, DraftIsThere, KeepsDraft};
ghost use Rattle.engine.specs.Kept.{kept_of};
ghost use Rattle.engine.specs.Run.{rooms_of};

use super::Association;
use crate::devices::Devices;
use part10::Filing;
use pdu::Wire;

impl<'c, const A: usize, const C: usize, const V: usize, const D: usize> Association<
    'c,
    A,
    C,
    V,
    D,
> {
    ghost use Rattle.engine.specs.machine.Shows.{DoesNext, DoesPiece};
    ghost use Rattle.engine.specs.Fields.{fields_of, settings_in};

    /// Reads bytes up to the next event, and handles the event. Returns how many bytes were read,
    /// and whether there was an event.
    fn take_event<W: Wire, F: Filing>(
        &mut self,
        piece: &[u8],
        devices: Devices<'_, W, F>,
    ) -> (usize, bool)
        requires draft { DraftIsThere (kept_of self.old.provider) (F.store devices.filing.now) }
        ensures within { result.0 ≤ length piece.now }
        ensures used_up { result.1 ≡ false → result.0 ≡ length piece.now }
        ensures fewer { result.1 ≡ true → events_due (position_of self.new.deframer) < events_due (position_of self.old.deframer) + 4 * result.0 }
        ensures settings { settings_in self.new ≡ settings_in self.old }
        ensures drafts { KeepsDraft (kept_of self.old.provider) (kept_of self.new.provider) (F.store devices.entry.filing.now) (after W.line F.store devices.exit).store }
        ensures does { DoesNext (rooms_of A C V D) (settings_in self.old) (fields_of self.old) (fields_of self.new) piece.now result
            (before W.line F.store devices.entry) (after W.line F.store devices.exit) }
    {
        let (count, event) = self.deframer.next(piece);
        let Some(event) = event else {
            return (count, false);
        };
        let kind = self.deframer.kind();
        self.provider.on_event(event, kind, devices);
        self.provider.skip_uncounted(&mut self.deframer);
        (count, true)
    }

    /// Reads all bytes of a piece and handles their events.
    pub(super) fn take_all<W: Wire, F: Filing>(&mut self, piece: &[u8], devices: Devices<'_, W, F>)
        requires draft { DraftIsThere (kept_of self.old.provider) (F.store devices.filing.now) }
        ensures settings { settings_in self.new ≡ settings_in self.old }
        ensures drafts { KeepsDraft (kept_of self.old.provider) (kept_of self.new.provider) (F.store devices.entry.filing.now) (after W.line F.store devices.exit).store }
        ensures consumes { DoesPiece (rooms_of A C V D) (settings_in self.old) (fields_of self.old) (fields_of self.new) piece.now
            (before W.line F.store devices.entry) (after W.line F.store devices.exit) }
    {
        let Devices { wire, filing } = devices;
        let mut at = 0;
        let mut more = true;
        while more {
            let (count, found) = self.take_event(&piece[at..], Devices { wire, filing });
            at += count;
            more = found;
        }
    }
}
