//! A sender's association with this receiver: what it sends of a file is what the receiver files,
//! and the file is removed only if it is filed.

use dictionary::Transfer;
use dimse::status;
use element::{AeTitle, Uid};
use fixtures::bytes::joined;
use fixtures::folders::{count, fresh, put};
use fixtures::stores::{ACCEPT, CT_SET, EXPLICIT, INSTANCE, file, reply};
use fixtures::{Step, over_memory};
use sending::{Association, Handed, Removals, SentFile, StorageContext, Titles, hand_over};
use std::alloc::{AllocError, Global};
use std::io::{self, Read, Write};
use std::test::Fail;

/// A connection that yields a receiver's replies and records what is sent.
#[derive(Drop)]
struct Scripted {
    replies: Vec<u8>,
    /// The number of bytes of the replies that were read.
    at: usize,
    sent: Vec<u8>,
}

impl Read for Scripted {
    fn read(&mut self, room: &mut [u8]) -> io::Result<usize> {
        let rest = self.replies.as_slice().get(self.at..).unwrap_or(&[]);
        let n = rest.len().min(room.len());
        room[..n].copy_from_slice(&rest[..n]);
        self.at = self.at.saturating_add(n);
        Ok(n)
    }
}

impl Write for Scripted {
    fn write(&mut self, bytes: &[u8]) -> io::Result<usize> {
        self.sent.extend_from_slice(bytes)?;
        Ok(bytes.len())
    }

    fn flush(&mut self) -> io::Result<()> {
        Ok(())
    }
}

/// An A-RELEASE-RP.
const RELEASED: &[u8] = &[6, 0, 0, 0, 0, 4, 0, 0, 0, 0];

/// An A-ABORT by the service user.
const ABORTED: &[u8] = &[7, 0, 0, 0, 0, 4, 0, 0, 0, 0];

/// Returns what a receiver sends: an A-ASSOCIATE-AC, the C-STORE-RSP to this message with this
/// status, and an A-RELEASE-RP.
fn replies(alloc: Global, message: u8, status: u16) -> Result<Vec<u8>, AllocError> {
    let mut reply = reply(alloc, INSTANCE, status, None)?;
    if let Some(responded) = reply.get_mut(76) {
        *responded = message;
    }
    joined(alloc, &[ACCEPT, reply.as_slice(), RELEASED])
}

/// Returns the data set of a CT image with this many bytes of Pixel Data.
fn image(alloc: Global, size: u32) -> Result<Vec<u8>, AllocError> {
    let mut set = Vec::from_slice(alloc, &CT_SET)?;
    set.extend_from_slice(b"\xe0\x7f\x10\0OB\0\0")?;
    set.extend_from_slice(&size.to_le_bytes())?;
    for at in 0..size {
        set.push((at % 251) as u8)?;
    }
    Ok(set)
}

/// Returns whether the file at this path was removed after it was sent over this connection. An
/// association that has not ended is released.
fn is_moved(rt: &HostRuntime, stream: &mut Scripted, path: &str) -> Result<bool, Fail> {
    let class = Uid::read(b"1.2.840.10008.5.1.4.1.1.2").ok_or("no class")?;
    let context = StorageContext::new(0, class, Transfer::Explicit);
    let titles = Titles {
        called: AeTitle::of_text("DCMBOX").ok_or("no title")?,
        calling: AeTitle::of_text("SCANNER1").ok_or("no title")?,
    };
    let contexts = [context];
    let Ok(mut association) = Association::open(rt.alloc(), stream, titles, &contexts) else {
        return Ok(false);
    };
    let [context] = &contexts;
    if !association.accepts(context) {
        return Ok(false);
    }
    let mut sent_file = SentFile::open(rt, path)?;
    let mut removals = Removals::new(true, None);
    match hand_over(rt, &mut association, context, &mut sent_file, &mut removals) {
        Ok(Handed::Removed(_)) => Ok(association.release().is_ok()),
        _ => Ok(false),
    }
}

#[test]
fn what_a_sender_sends_is_filed(rt: HostRuntime) -> Result<(), Fail> {
    let dir = "what_a_sender_sends_is_filed";
    fresh(&rt, dir)?;
    for size in [0, 16_000, 200_000] {
        let set = image(rt.alloc(), size)?;
        let stored = file(rt.alloc(), EXPLICIT, INSTANCE, set.as_slice())?;
        put(&rt, dir, "I0000001", stored.as_slice())?;
        let mut stream = Scripted {
            replies: replies(rt.alloc(), 1, status::SUCCESS)?,
            at: 0,
            sent: Vec::new(rt.alloc()),
        };
        assert!(rt; is_moved(&rt, &mut stream, "what_a_sender_sends_is_filed/I0000001")?);
        assert!(rt; count(&rt, dir)? == 0);
        let received = over_memory(rt.alloc(), &[Step::Piece(stream.sent.as_slice())]);
        assert!(rt; received.filing.files().len() == 1);
        assert!(rt; received.filing.files()[0] == stored);
    }
    Ok(())
}

#[test]
fn a_file_that_is_not_filed_stays(rt: HostRuntime) -> Result<(), Fail> {
    let dir = "a_file_that_is_not_filed_stays";
    fresh(&rt, dir)?;
    let set = image(rt.alloc(), 16)?;
    let stored = file(rt.alloc(), EXPLICIT, INSTANCE, set.as_slice())?;
    put(&rt, dir, "I0000001", stored.as_slice())?;
    for (message, status) in [(1, status::OUT_OF_RESOURCES), (2, status::SUCCESS)] {
        let mut stream = Scripted {
            replies: replies(rt.alloc(), message, status)?,
            at: 0,
            sent: Vec::new(rt.alloc()),
        };
        assert!(rt; !is_moved(&rt, &mut stream, "a_file_that_is_not_filed_stays/I0000001")?);
        assert!(rt; count(&rt, dir)? == 1);
        assert!(rt; stream.sent.as_slice().ends_with(ABORTED) == (message == 2));
    }
    Ok(())
}
