//! For contracts: the results of the connections that a server opened. They have no size at run
//! time.
//!
//! Only the parent module `opening` creates and consumes the history of a server. The history of a
//! slot is added to it when the slot is closed.
ghost use Rattle.std.specs.Prelude.{◌≡◌, [], ◌∷◌, ◌++◌};
ghost use Rattle.std.specs.List.{All};
ghost use Rattle.negotiate.specs.Settings.{settings_of};
ghost use Rattle.server.specs.Histories.{AllEnded, ended_in, opened_in, settings_in, slots_in};

use crate::policy::Policy;
use crate::socket::Socket;
use element::history::History;
use negotiate::Config;
use part10::Settling;
use serving::ConnectionEnd;
use std::marker::PhantomData;

/// For contracts: the connections of one slot, with filings of type `F`: the filings over which
/// they were opened, and the settings and results of those that have ended. It is not `Drop`.
pub struct SlotHistory<F> {
    opened: History<F>,
    configs: History<Config>,
    ended: History<ConnectionEnd<Socket, F>>,
}

impl<F> SlotHistory<F> {
    /// Creates the history of a slot that has had no connection.
    pub(crate) fn new() -> SlotHistory<F>
        ensures opened { opened_in result ≡ [] }
        ensures settings { settings_in result ≡ [] }
        ensures ended { ended_in result ≡ [] }
    {
        SlotHistory {
            opened: History::new(),
            configs: History::new(),
            ended: History::new(),
        }
    }

    /// Records that a connection is opened over this filing.
    pub(crate) fn open(&mut self, filing: &F)
        ensures opened { opened_in self.new ≡ opened_in self.old ++ filing.now ∷ [] }
        ensures settings { settings_in self.new ≡ settings_in self.old }
        ensures ended { ended_in self.new ≡ ended_in self.old }
    {
        self.opened.push(filing);
    }

    /// Records the result of a connection that has ended, and its settings.
    pub(crate) fn end(&mut self, config: &Config, end: &ConnectionEnd<Socket, F>)
        ensures opened { opened_in self.new ≡ opened_in self.old }
        ensures settings { settings_in self.new ≡ settings_in self.old ++ settings_of config.now ∷ [] }
        ensures ended { ended_in self.new ≡ ended_in self.old ++ end.now ∷ [] }
    {
        self.configs.push(config);
        self.ended.push(end);
    }
}

/// For contracts: the connections of a server that has stopped, as the history of each slot.
#[derive(Drop)]
pub struct ServerHistory<F> {
    slots: History<SlotHistory<F>>,
}

impl<F> ServerHistory<F> {
    /// Creates the history of a server without slots.
    pub fn new() -> ServerHistory<F>
        ensures { slots_in result ≡ [] }
    {
        ServerHistory {
            slots: History::new(),
        }
    }
}

/// The histories of slots that were closed. It is not `Drop`.
pub(crate) struct ClosedSlots<F: Settling, P: Policy> {
    history: ServerHistory<F>,
    policy: PhantomData<P>,
    ghost each: { ∥ All (AllEnded F.store F.has_pending P.allows P.configuration) (slots_in history) ∥₁ },
}

impl<F: Settling, P: Policy> ClosedSlots<F, P> {
    /// Creates the history of no slots.
    pub(super) fn new() -> ClosedSlots<F, P>
        ensures { slots_in result.history ≡ [] }
    {
        ClosedSlots {
            history: ServerHistory::new(),
            policy: PhantomData,
        }
    }

    /// Adds the history of a slot that was closed.
    pub(crate) fn push(&mut self, slot: SlotHistory<F>)
        requires { AllEnded F.store F.has_pending P.allows P.configuration slot }
        ensures { slots_in self.new.history ≡ slots_in self.old.history ++ slot ∷ [] }
    {
        self.history.slots.push(&slot);
        let SlotHistory {
            opened: _opened,
            configs: _configs,
            ended: _ended,
        } = slot;
    }

    /// Returns the history of a server whose slots are all closed.
    pub(super) fn into_history(self) -> ServerHistory<F>
        ensures same { result ≡ self.history }
        ensures ended { ∥ All (AllEnded F.store F.has_pending P.allows P.configuration) (slots_in result) ∥₁ }
    {
        let ClosedSlots {
            history,
            policy: _policy,
        } = self;
        history
    }
}
