//! Notes and judgements as members of a JSON object.
use crate::judgement::{Judgement, Note, offset_of};
use crate::keyword::known_keyword;
use crate::texts::{TagText, VrText};
use element::Vr;
use std::fmt;

/// Prints a text without characters to escape as a JSON string, or `null` if there is none.
#[derive(Clone, Copy)]
pub(crate) struct OrNull<T>(pub Option<T>);

impl<T: fmt::Display> fmt::Display for OrNull<T> {
    fn fmt<W: fmt::Write>(&self, f: &mut fmt::Formatter<W>) -> fmt::Result {
        match &self.0 {
            Some(text) => write!(f, "\"{text}\""),
            None => f.write_str("null"),
        }
    }
}

/// Returns the printed form of a VR, `null` if it is unknown.
pub(crate) fn vr_json(vr: Option<Vr>) -> OrNull<VrText> {
    match vr {
        Some(_) => OrNull(Some(VrText(vr))),
        None => OrNull(None),
    }
}

/// Prints the members of a note's object.
#[derive(Clone, Copy)]
pub(crate) struct NoteJson<'a>(pub &'a Note);

impl fmt::Display for NoteJson<'_> {
    fn fmt<W: fmt::Write>(&self, f: &mut fmt::Formatter<W>) -> fmt::Result {
        let (offset, (number, name)) = (self.0.offset, self.0.rule);
        let (tag, vr) = (TagText(self.0.tag), vr_json(self.0.vr));
        let keyword = OrNull(known_keyword(self.0.tag));
        write!(f, "\"place\":{offset},\"tag\":\"{tag}\",\"vr\":{vr},")?;
        write!(
            f,
            "\"number\":{number},\"name\":\"{name}\",\"keyword\":{keyword}"
        )
    }
}

/// Prints the last members of a file's object: its judgement.
#[derive(Clone, Copy)]
pub(crate) struct JudgementJson<'a>(pub &'a Judgement);

impl fmt::Display for JudgementJson<'_> {
    fn fmt<W: fmt::Write>(&self, f: &mut fmt::Formatter<W>) -> fmt::Result {
        let (number, name, offset) = match *self.0 {
            Judgement::BadHeader(fault) => (fault.number(), fault.name(), offset_of(fault)),
            Judgement::BadData(start, fault) => {
                (
                    fault.number,
                    fault.name(),
                    start.saturating_add(fault.offset),
                )
            }
            Judgement::Good(length) => return write!(f, "\"result\":\"good\",\"length\":{length}"),
        };
        write!(
            f,
            "\"result\":\"fault\",\"number\":{number},\"name\":\"{name}\",\"place\":{offset}"
        )?;
        if let Judgement::BadData(_, fault) = *self.0 {
            let (tag, keyword) = (TagText(fault.tag), OrNull(known_keyword(fault.tag)));
            write!(f, ",\"tag\":\"{tag}\",\"keyword\":{keyword}")?;
        }
        Ok(())
    }
}
