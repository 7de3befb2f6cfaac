//! The message of which fragments are received, by the decisions of an association.
ghost use Rattle.std.specs.Prelude.{◌≡◌};

use decisions::Decision;
use pdu::PdvHead;

/// What the log keeps of a message: no byte of it, only the sizes of its fragments.
#[derive(Clone, Copy, Debug, PartialEq, Eq)]
pub(crate) struct Message {
    /// The ID of its context.
    pub context: u8,
    /// Whether the message is a store whose data set was expected.
    pub is_store: bool,
    /// The size in bytes of the fragments of its data set.
    pub data_size: u64,
    /// Whether the bytes of the last fragment are expected.
    is_fragment_due: bool,
}

impl Message {
    ghost use Rattle.journal.specs.Fragments.{started, heard};

    /// Creates a message before any decision.
    pub(crate) fn new() -> Message {
        Message {
            context: 0,
            is_store: false,
            data_size: 0,
            is_fragment_due: false,
        }
    }

    /// Records the header of a fragment that continues the message.
    fn begin(&mut self, head: PdvHead)
        ensures { self.new ≡ started head self.old }
    {
        let size = u64::from(head.length).saturating_sub(2);
        self.context = head.context;
        self.is_fragment_due = size > 0;
        if head.command {
            self.is_store = false;
            self.data_size = 0;
        } else {
            self.data_size = self.data_size.saturating_add(size);
        }
    }

    /// Records the last decision when a section of a PDU is complete. It was decided with that
    /// section, unless the section is a fragment after which the message continues.
    pub(crate) fn hear(&mut self, decision: Decision)
        ensures { self.new ≡ heard decision self.old }
    {
        let is_after_fragment = self.is_fragment_due;
        self.is_fragment_due = false;
        match decision {
            Decision::Fragment(head) => {
                if !is_after_fragment {
                    self.begin(head);
                }
            }
            Decision::DataDue => self.is_store = true,
            _ => {}
        }
    }
}
