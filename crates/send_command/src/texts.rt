//! Prints what was done with files, and how associations ended.
use inspection::Judgement;
use journal::{provider_words, rejection_words};
use keywords::class_keyword;
use negotiate::rejection::{
    CALLED_AE_TITLE_NOT_RECOGNIZED, CALLING_AE_TITLE_NOT_RECOGNIZED, SERVICE_USER,
};
use sending::{Ending, Handed, Refusal, StorageContext, is_filed};
use std::fmt;
use std::io::ErrorKind;
use std::time::Duration;

/// The result of an A-ASSOCIATE-RJ that is rejected-transient (PS3.8 section 9.3.4).
const TRANSIENT: u8 = 2;

/// The source of an A-ABORT that is the service provider (PS3.8 section 9.3.8).
const PROVIDER: u8 = 2;

/// Prints the status of a C-STORE-RSP.
#[derive(Clone, Copy)]
struct StatusText(u16);

impl fmt::Display for StatusText {
    fn fmt<W: fmt::Write>(&self, f: &mut fmt::Formatter<W>) -> fmt::Result {
        let status = self.0;
        if status == 0 {
            f.write_str("filed")
        } else if is_filed(status) {
            write!(f, "filed with a warning, status {status:04X}")
        } else {
            write!(f, "refused with status {status:04X}")
        }
    }
}

/// Prints why a file of this presentation context is refused for good.
#[derive(Clone, Copy)]
struct RefusalText<'a>(Refusal, &'a StorageContext);

impl fmt::Display for RefusalText<'_> {
    fn fmt<W: fmt::Write>(&self, f: &mut fmt::Formatter<W>) -> fmt::Result {
        let RefusalText(refusal, context) = *self;
        match refusal {
            Refusal::Status(_) => write!(f, "refused with status {refusal}"),
            Refusal::NoContext => {
                let class = class_keyword(context.class.as_bytes()).unwrap_or("its SOP class");
                let syntax = context.syntax.keyword();
                write!(
                    f,
                    "left out: the archive does not accept {class} in {syntax}"
                )
            }
        }
    }
}

/// Prints what was done with a file of this presentation context.
#[derive(Clone, Copy)]
pub(crate) struct HandedText<'a>(pub(crate) &'a Handed, pub(crate) &'a StorageContext);

impl fmt::Display for HandedText<'_> {
    fn fmt<W: fmt::Write>(&self, f: &mut fmt::Formatter<W>) -> fmt::Result {
        let HandedText(handed, context) = *self;
        match handed {
            Handed::Faulty(fault) => {
                let fault = Judgement::BadHeader(*fault);
                write!(f, "left out: {fault}")
            }
            Handed::Odd => f.write_str("left out: its data set has an odd number of bytes"),
            Handed::Unread(error) => write!(f, "left out: the file can't be read: {error}"),
            Handed::Changed => f.write_str("left out: it has changed"),
            Handed::Unaccepted => {
                let why = RefusalText(Refusal::NoContext, context);
                write!(f, "{why}")
            }
            Handed::SetAside(refusal) => {
                let why = RefusalText(*refusal, context);
                write!(f, "{why}; set aside")
            }
            Handed::NotSetAside(refusal, error) => {
                let why = RefusalText(*refusal, context);
                write!(f, "{why}; it can't be set aside: {error}")
            }
            Handed::Answered(status) | Handed::Removed(status) => {
                let status = StatusText(*status);
                write!(f, "{status}")
            }
            Handed::Kept(status, Some(error)) => {
                let status = StatusText(*status);
                write!(f, "{status}; it can't be removed: {error}")
            }
            Handed::Kept(status, None) => {
                let status = StatusText(*status);
                write!(f, "{status}; it is not removed, since it has changed")
            }
        }
    }
}

/// Prints how an association ended, with an archive that may be silent for this long.
#[derive(Clone, Copy)]
pub(crate) struct EndingText<'a>(pub(crate) &'a Ending, pub(crate) Duration);

impl fmt::Display for EndingText<'_> {
    fn fmt<W: fmt::Write>(&self, f: &mut fmt::Formatter<W>) -> fmt::Result {
        let EndingText(ending, timeout) = *self;
        match ending {
            // A read or a write that reaches its timeout fails so.
            Ending::Broken(error) if error.kind() == ErrorKind::WouldBlock => {
                let seconds = timeout.as_secs();
                write!(f, "the archive was silent for {seconds} s")
            }
            Ending::Rejected(_, SERVICE_USER, CALLING_AE_TITLE_NOT_RECOGNIZED) => {
                f.write_str("association rejected: the archive does not know the title of --aet")
            }
            Ending::Rejected(_, SERVICE_USER, CALLED_AE_TITLE_NOT_RECOGNIZED) => {
                f.write_str("association rejected: the archive has another title than --aec")
            }
            Ending::Rejected(TRANSIENT, source, reason) => {
                let why = rejection_words(*source, *reason);
                write!(f, "association rejected for now: {why}")
            }
            Ending::Rejected(_, source, reason) => {
                let why = rejection_words(*source, *reason);
                write!(f, "association rejected: {why}")
            }
            Ending::Aborted(PROVIDER, reason) => {
                let why = provider_words(*reason);
                write!(f, "association aborted by the archive: {why}")
            }
            Ending::Aborted(..) => f.write_str("association aborted by the archive"),
            _ => write!(f, "{ending}"),
        }
    }
}
