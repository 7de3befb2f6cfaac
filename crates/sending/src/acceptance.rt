//! Reads A-ASSOCIATE-AC (PS3.8 section 9.3.3).
use crate::context::{MOST_CONTEXTS, StorageContext};
use crate::ending::Ending;
use byteorder::{BigEndian, ByteOrder};
use element::unpadded;
use pdu::{Items, item_type};

/// What an A-ASSOCIATE-AC grants.
#[derive(Clone, Copy)]
pub(crate) struct Acceptance {
    /// For each proposed presentation context, whether it is accepted.
    pub(crate) accepted: [bool; MOST_CONTEXTS],
    /// The greatest length of a P-DATA-TF PDU that the peer receives; 0 for no limit.
    pub(crate) maximum: u32,
}

/// The number of bytes in the body of an A-ASSOCIATE-AC before its first item.
const BEFORE_ITEMS: usize = 68;

/// Returns the content of the first item of this type, or an empty slice.
fn content_in<'a>(kind: u8, text: &'a [u8]) -> &'a [u8] {
    for item in Items::of(text) {
        if item.kind() == kind {
            return item.content();
        }
    }
    &[]
}

impl Acceptance {
    /// Reads the answer to a proposed presentation context: it is accepted if its result is 0 and
    /// its transfer syntax is the proposed one.
    fn take_context(&mut self, contexts: &[StorageContext], content: &[u8]) {
        if content.len() < 4 || content[2] != 0 {
            return;
        }
        let syntax = unpadded(content_in(item_type::TRANSFER_SYNTAX, &content[4..]));
        for context in contexts {
            if context.id() == content[0] && context.syntax.uid() == syntax {
                self.accepted[context.index()] = true;
            }
        }
    }

    /// Reads the body of the A-ASSOCIATE-AC to a request with these presentation contexts.
    pub(crate) fn read(contexts: &[StorageContext], body: &[u8]) -> Result<Acceptance, Ending> {
        let mut acceptance = Acceptance {
            accepted: [false; MOST_CONTEXTS],
            maximum: 0,
        };
        if body.len() < BEFORE_ITEMS {
            return Err(Ending::Invalid("an A-ASSOCIATE-AC of fewer than 68 bytes"));
        }
        for item in Items::of(&body[BEFORE_ITEMS..]) {
            match item.kind() {
                item_type::ANSWERED_CONTEXT => acceptance.take_context(contexts, item.content()),
                item_type::USER_INFORMATION => {
                    let maximum = content_in(item_type::MAXIMUM_LENGTH, item.content());
                    if maximum.len() == 4 {
                        acceptance.maximum = BigEndian::read_u32(maximum);
                    }
                }
                _ => {}
            }
        }
        if (1..1024).contains(&acceptance.maximum) {
            return Err(Ending::Invalid("a maximum length below 1,024"));
        }
        Ok(acceptance)
    }
}
