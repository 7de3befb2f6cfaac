//! Handles the events of the received bytes.
ghost use Rattle.std.specs.Prelude.{◌≡◌, ◌-◌};

use crate::devices::Devices;
use crate::provider::Provider;
use decisions::Decision;
use part10::Filing;
use pdu::{Event, Wire};

impl<'c, const A: usize, const C: usize, const V: usize, const D: usize> Provider<'c, A, C, V, D> {
    ghost use Rattle.engine.specs.machine.Lent.{before, after, DraftIsThere, KeepsDraft};
    ghost use Rattle.engine.specs.machine.Events.{Accepts, HasRoom, LeavesRoom};
    ghost use Rattle.engine.specs.Kept.{kept_of, settings_in};
    ghost use Rattle.engine.specs.Run.{rooms_of};

    /// Handles an event of the received bytes. `kind` is the type of the PDU whose body
    /// `Event::Body` reports.
    pub(crate) fn on_event<W: Wire, F: Filing>(
        &mut self,
        event: Event<'_>,
        kind: u8,
        devices: Devices<'_, W, F>,
    )
        requires draft { DraftIsThere (kept_of self.old) (F.store devices.filing.now) }
        requires room { HasRoom (A - 12) (kept_of self.old) kind event }
        ensures settings { settings_in self.new ≡ settings_in self.old }
        ensures drafts { KeepsDraft (kept_of self.old) (kept_of self.new) (F.store devices.entry.filing.now) (after W.line F.store devices.exit).store }
        ensures room { LeavesRoom (A - 12) (kept_of self.old) (kept_of self.new) kind event.entry }
        ensures accepts { Accepts (rooms_of A C V D) (settings_in self.old) (kept_of self.old) (kept_of self.new) kind event.entry
            (before W.line F.store devices.entry) (after W.line F.store devices.exit) }
    {
        match event {
            Event::PduHead(head) => {
                let due = self.on_head(head.kind, head.length);
                self.perform(due, devices);
            }
            Event::Body(part) => self.on_body(kind, part),
            Event::PdvHead(head) => {
                let due = self.on_pdv_head(head);
                self.perform(due, devices);
            }
            Event::Fragment(part) => self.on_data(part, devices.filing),
            Event::PdvEnd => self.on_pdv(devices),
            Event::BadPdv => {
                let due = self.on_invalid(Decision::BadPdv);
                self.perform(due, devices);
            }
            Event::Leftover => {
                let due = self.on_invalid(Decision::Leftover(self.decided.value_end()));
                self.perform(due, devices);
            }
            Event::PduEnd(kind) => {
                if self.accepts_body(kind) {
                    self.on_request(devices);
                } else {
                    let due = self.on_end(kind);
                    self.perform(due, devices);
                }
            }
        }
    }
}
