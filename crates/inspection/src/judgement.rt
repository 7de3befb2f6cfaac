//! The notes and the judgement of an inspection, printed as lines.
use crate::texts::{TagText, VrText};
use element::{Tag, Vr};
use part10::MetaFault;
use sequence::Fault;
use std::fmt;

/// The number and the name of a rule of this product.
pub(crate) type Rule = (u8, &'static str);

/// A broken rule that is no fault. It prints as a line of `dcmbox check`.
#[derive(Clone, Copy)]
pub(crate) struct Note {
    /// The offset of the element's header; for a missing element that of the element after it, or
    /// the file's length.
    pub offset: u64,
    pub tag: Tag,
    pub vr: Option<Vr>,
    pub rule: Rule,
}

impl Note {
    /// Returns the note about a UID.
    pub(crate) fn of_uid(offset: u64, tag: Tag, rule: Rule) -> Note {
        let vr = Some(Vr::UI);
        Note {
            offset,
            tag,
            vr,
            rule,
        }
    }
}

impl fmt::Display for Note {
    fn fmt<W: fmt::Write>(&self, f: &mut fmt::Formatter<W>) -> fmt::Result {
        let (offset, (number, name)) = (self.offset, self.rule);
        let (tag, vr) = (TagText(self.tag), VrText(self.vr));
        write!(f, "note {offset:010} {tag} {vr} {number} {name}")
    }
}

/// The judgement of a file. It prints as the last line of `dcmbox check`.
#[derive(Clone, Copy, Debug)]
pub enum Judgement {
    /// The file's header has a fault. Nothing is read after it.
    BadHeader(MetaFault),
    /// The data set, which begins at this offset of the file, has a fault. Nothing is read after
    /// it.
    BadData(u64, Fault),
    /// The file has no fault. The number is its length in bytes.
    Good(u64),
}

/// Returns the offset where a file's header breaks a rule: at the letters `DICM`, or after them.
pub(crate) fn offset_of(fault: MetaFault) -> u64 {
    match fault {
        MetaFault::NotPart10 => 128,
        _ => 132,
    }
}

impl fmt::Display for Judgement {
    fn fmt<W: fmt::Write>(&self, f: &mut fmt::Formatter<W>) -> fmt::Result {
        match *self {
            Judgement::BadHeader(fault) => {
                let offset = offset_of(fault);
                write!(f, "fault {fault} at {offset}")
            }
            Judgement::BadData(start, fault) => {
                let (number, name, tag) = (fault.number, fault.name(), TagText(fault.tag));
                let offset = start.saturating_add(fault.offset);
                write!(f, "fault {number} {name} at {offset} tag {tag}")
            }
            Judgement::Good(length) => write!(f, "good {length}"),
        }
    }
}
