//! The UIDs of the instance and of the study that a strict check requires of a data set.
use crate::judgement::Rule;
use crate::origin::DIRECTORY_CLASS;
use element::{Header, Tag, Uid, unpadded};
use part10::Meta;

/// The tag of SOP Instance UID.
pub(crate) const SOP_INSTANCE_UID: Tag = Tag(0x0008, 0x0018);

/// The tag of Study Instance UID.
const STUDY_INSTANCE_UID: Tag = Tag(0x0020, 0x000d);

/// The most UIDs that a data set must have.
pub(crate) const MOST_DUE: usize = 2;

/// The SOP Classes whose instances belong to no patient, hence to no study (PS3.4 section GG.3).
const OF_NO_STUDY: [&[u8]; 9] = [
    b"1.2.840.10008.5.1.4.38.1",
    b"1.2.840.10008.5.1.4.39.1",
    b"1.2.840.10008.5.1.4.43.1",
    b"1.2.840.10008.5.1.4.44.1",
    b"1.2.840.10008.5.1.4.45.1",
    b"1.2.840.10008.5.1.4.1.1.200.1",
    b"1.2.840.10008.5.1.4.1.1.200.3",
    b"1.2.840.10008.5.1.4.1.1.200.7",
    b"1.2.840.10008.5.1.4.1.1.201.1",
];

/// The number and name of the rule that the SOP Instance UID equals that in the file's header
/// (PS3.10 section 7.1).
pub(crate) const OTHER_INSTANCE: Rule = (20, "OtherInstance");

/// The number and name of the rule that a data set has a SOP Instance UID and a Study Instance UID
/// (PS3.3 sections C.12.1 and C.7.2.1), and a file's header a Transfer Syntax UID (PS3.10 section
/// 7.1).
pub(crate) const MISSING_UID: Rule = (21, "MissingUid");

/// Follows the elements of a data set and finds whether its instance and study UIDs are there.
#[derive(Drop)]
pub(crate) struct Identity {
    /// The SOP Instance UID in the file's header, if the data set must have the same.
    instance: Option<Uid>,
    /// The tags of the required UIDs that were not found yet.
    due: [Option<Tag>; MOST_DUE],
}

impl Identity {
    /// Returns a value that requires no UID.
    pub(crate) fn new() -> Identity {
        Identity {
            instance: None,
            due: [None; MOST_DUE],
        }
    }

    /// Starts the data set after a file's header.
    pub(crate) fn begin(&mut self, meta: &Meta) {
        let class = meta.class.as_bytes();
        if class == DIRECTORY_CLASS {
            // The data set of a DICOMDIR has neither UID (PS3.3 section F.3).
            return;
        }
        self.instance = Some(meta.instance.copied());
        let study = if OF_NO_STUDY.iter().any(|other| *other == class) {
            None
        } else {
            Some(STUDY_INSTANCE_UID)
        };
        self.due = [Some(SOP_INSTANCE_UID), study];
    }

    /// Applies the header of an element at the top level. An element without a value counts as
    /// absent.
    pub(crate) fn meet(&mut self, header: &Header) {
        if header.length == 0 {
            return;
        }
        for offset in 0..MOST_DUE {
            if self.due[offset] == Some(header.tag) {
                self.due[offset] = None;
            }
        }
    }

    /// Returns the tag of a required UID that is absent before an element with this tag number.
    /// Returns each tag once.
    pub(crate) fn take_missing(&mut self, number: u32) -> Option<Tag> {
        for offset in 0..MOST_DUE {
            if let Some(tag) = self.due[offset] {
                if tag.number() < number {
                    self.due[offset] = None;
                    return Some(tag);
                }
            }
        }
        None
    }

    /// Returns the SOP Instance UID in the file's header if it differs from `value`, the data
    /// set's.
    pub(crate) fn other_than(&self, value: &[u8]) -> Option<&Uid> {
        match &self.instance {
            Some(uid) if uid.as_bytes() != unpadded(value) => Some(uid),
            _ => None,
        }
    }
}
