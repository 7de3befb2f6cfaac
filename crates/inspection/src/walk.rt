//! Walks a file from its first byte to its last in fixed memory.
use crate::entering::{BytesOf, Entering};
use crate::error::InspectionError;
use crate::front::FileFront;
use crate::items::ItemStep;
use crate::judgement::Judgement;
use crate::limits::{DEPTH, MOST_DATA, PIECE, VALUES};
use crate::options::{Syntaxes, Vocabulary};
use crate::origin::{PREFIX, header_at};
use crate::outcome::Outcome;
use dictionary::Transfer;
use element::{Header, Tag};
use part10::{Meta, MetaFault};
use sequence::{Fault, Step, Walker, Wanted};
use std::io::{self, Read};

/// What is done with the steps of a walk over a data set.
pub trait Steps {
    /// Applies a step that ends at offset `end` of the file, with so many levels open before it.
    /// Returns whether the walk is over.
    fn take(&mut self, step: &Step<'_>, levels: usize, end: u64) -> io::Result<bool>;
}

/// Walks a chunk of a data set that begins at offset `start` of the file. Returns whether the walk
/// is over. The inner error is the data set's first fault.
fn walk_piece<S: Steps>(
    walker: &mut Walker<VALUES, DEPTH>,
    piece: &[u8],
    start: u64,
    steps: &mut S,
) -> io::Result<Result<bool, Fault>> {
    let mut rest = piece;
    // Each step consumes at least one byte, or refuses.
    for _ in 0..piece.len() {
        if rest.is_empty() {
            break;
        }
        let levels = walker.levels();
        let (count, step) = walker.step(rest);
        rest = &rest[count..];
        if let Step::Refused(fault) = step {
            return Ok(Err(fault));
        }
        if steps.take(&step, levels, start.saturating_add(walker.offset()))? {
            return Ok(Ok(true));
        }
    }
    Ok(Ok(false))
}

/// Walks the data set that `input` continues with, reading into `room`, until `steps` ends the
/// walk. The inner error is the data set's first fault before that.
///
/// Fails if the file can't be read, or with an error of `steps`.
pub fn walk_data_set<R: Read, S: Steps>(
    input: &mut FileFront<'_, R>,
    syntax: Transfer,
    room: &mut [u8],
    steps: &mut S,
) -> Result<Result<(), Fault>, InspectionError> {
    let start = input.count();
    let mut walker = Walker::<VALUES, DEPTH>::in_transfer(syntax, Wanted::none(), MOST_DATA);
    // The walker's limit of bytes ends the loop earlier.
    for _ in 0..u64::MAX {
        let len = input.read_some(room)?;
        if len == 0 {
            break;
        }
        match walk_piece(&mut walker, &room[..len], start, steps) {
            Ok(Ok(false)) => {}
            Ok(Ok(true)) => return Ok(Ok(())),
            Ok(Err(fault)) => return Ok(Err(fault)),
            Err(error) => return Err(InspectionError::Write(error)),
        }
    }
    Ok(walker.finish())
}

/// What a walk finds in a file.
#[derive(Clone, Copy)]
pub(crate) enum Finding<'a> {
    /// The file's header.
    Meta(&'a Meta),
    /// The start of a file without header, which is read in this transfer syntax.
    Bare(Transfer),
    /// A header of an element, an item or a delimitation: its offset in the file, and the number of
    /// levels open before it.
    Header(u64, usize, Header),
    /// Bytes of the last header's value.
    Bytes(&'a [u8]),
    /// The first fault in the items of a sequence that the walker reads as a value: the offset of
    /// the sequence's header, and its tag.
    WrongItems(u64, Tag),
    /// The end of the file, or its first fault.
    End(Judgement),
}

/// Prints what a walk finds in a file.
pub(crate) trait Listing {
    /// Applies the next finding.
    fn take(&mut self, finding: &Finding<'_>) -> io::Result<()>;
}

/// Returns the size of a header in bytes (PS3.5 section 7.1).
fn size_of_header(header: &Header) -> u64 {
    let vr = header.vr;
    match vr {
        Some(vr) if vr.is_long() => 12,
        _ => 8,
    }
}

/// Lists what the steps of a walk find.
#[derive(Drop)]
struct ListedSteps<'a, L: Listing> {
    entering: Entering,
    listing: &'a mut L,
}

impl<L: Listing> ListedSteps<'_, L> {
    /// Lists a header that ends at offset `end`.
    fn header(&mut self, end: u64, levels: usize, header: &Header) -> io::Result<()> {
        let offset = end.saturating_sub(size_of_header(header));
        let header = self.entering.on_header((offset, end), levels, header);
        self.listing.take(&Finding::Header(offset, levels, header))
    }

    /// Lists the items in bytes of a sequence.
    fn items(&mut self, bytes: &[u8]) -> io::Result<()> {
        let mut rest = bytes;
        // Each step consumes at least one byte.
        for _ in 0..bytes.len() {
            if rest.is_empty() {
                break;
            }
            let (count, step) = self.entering.step(rest);
            rest = rest.get(count..).unwrap_or(&[]);
            match step {
                ItemStep::More => {}
                ItemStep::Header(offset, levels, header) => {
                    self.entering.on_inner_header(levels, &header);
                    self.listing.take(&Finding::Header(offset, levels, header))?;
                }
                ItemStep::Run(bytes) => {
                    self.entering.on_inner_bytes(bytes);
                    self.listing.take(&Finding::Bytes(bytes))?;
                }
            }
            if let Some((offset, tag)) = self.entering.take_fault() {
                self.listing.take(&Finding::WrongItems(offset, tag))?;
            }
        }
        Ok(())
    }
}

impl<L: Listing> Steps for ListedSteps<'_, L> {
    fn take(&mut self, step: &Step<'_>, levels: usize, end: u64) -> io::Result<bool> {
        match step {
            Step::Element(header) | Step::Opened(header) | Step::Closed(header) => {
                self.header(end, levels, header)?;
            }
            Step::Run(bytes) => match self.entering.on_bytes(*bytes) {
                BytesOf::Value => self.listing.take(&Finding::Bytes(*bytes))?,
                BytesOf::Items => self.items(*bytes)?,
            },
            Step::More | Step::Refused(_) => {}
        }
        Ok(false)
    }
}

/// Lists the final judgement of a file.
fn end<L: Listing>(judgement: Judgement, listing: &mut L) -> Result<Outcome, InspectionError> {
    listing
        .take(&Finding::End(judgement))
        .map_err(InspectionError::Write)?;
    match judgement {
        Judgement::Good(_) => Ok(Outcome::Good),
        _ => Ok(Outcome::Faulty),
    }
}

/// Lists the data set that `input` continues with, up to its first fault.
fn list_data_set<R: Read, L: Listing>(
    input: &mut FileFront<'_, R>,
    (syntax, vocabulary): (Transfer, Vocabulary),
    listing: &mut L,
) -> Result<Outcome, InspectionError> {
    let start = input.count();
    let mut room = [0; PIECE];
    let mut steps = ListedSteps {
        entering: Entering::new(vocabulary),
        listing,
    };
    let judgement = match walk_data_set(input, syntax, &mut room, &mut steps)? {
        Ok(()) => Judgement::Good(input.count()),
        Err(fault) => Judgement::BadData(start, fault),
    };
    end(judgement, steps.listing)
}

/// Lists the elements of the File Meta Information in `file`, the beginning of a file.
fn list_meta<L: Listing>(file: &[u8], listing: &mut L) -> io::Result<()> {
    let mut offset = PREFIX;
    for _ in 0..file.len() {
        let Some((header, start)) = header_at(file, offset) else {
            break;
        };
        let end = start.saturating_add(header.length as usize);
        let Some(value) = file.get(start..end) else {
            break;
        };
        listing.take(&Finding::Header(offset as u64, 0, header))?;
        listing.take(&Finding::Bytes(value))?;
        offset = end;
    }
    Ok(())
}

/// Lists the file that `input` yields from its start, in one of these transfer syntaxes, up to its
/// first fault. The vocabulary does not change the fault. With `Vocabulary::Standard`, headers
/// without a VR get the VR of PS3.6, and the items of sequences that the walker reads as values are
/// listed. With `has_meta`, the elements of the File Meta Information that end within the first
/// 4096 bytes are listed before the data set.
///
/// Fails if the file can't be read or the output can't be written.
pub(crate) fn list<R: Read, L: Listing>(
    input: &mut FileFront<'_, R>,
    (syntaxes, vocabulary, has_meta): (Syntaxes, Vocabulary, bool),
    listing: &mut L,
) -> Result<Outcome, InspectionError> {
    if let Some(form) = syntaxes.bare_form(input) {
        let syntax = Transfer::native(form);
        listing
            .take(&Finding::Bare(syntax))
            .map_err(InspectionError::Write)?;
        return list_data_set(input, (syntax, vocabulary), listing);
    }
    let meta = match syntaxes.read_meta(input) {
        Ok(meta) => meta,
        Err(MetaFault::ReadFailed) => return Err(input.take_error()),
        Err(fault) => return end(Judgement::BadHeader(fault), listing),
    };
    listing
        .take(&Finding::Meta(&meta))
        .map_err(InspectionError::Write)?;
    if has_meta {
        list_meta(input.returned(), listing).map_err(InspectionError::Write)?;
    }
    list_data_set(input, (meta.syntax, vocabulary), listing)
}
