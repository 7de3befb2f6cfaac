//! A store of 16 MiB while memory is refused: each allocation, or each as large as one chunk of the
//! store.

use crate::sources::Repeated;
use crate::still::{StillFiling, StillWire};
use dimse::status;
use engine::{Report, Standing, run};
use fixtures::bytes::joined;
use fixtures::config;
use fixtures::folders::{count, fresh};
use fixtures::stores::{ACCEPT, CT_SET, EXPLICIT, INSTANCE, data, file, reply, request, store};
use folder_filing::FolderFiling;
use linked_list_allocator::LocalHeap;
use part10::{Filing, MemoryFiling};
use pdu::{MemoryWire, Wire};
use std::alloc::{AllocError, Global};
use std::test::Fail;
use std::{fs, io};

/// The size of the value in bytes: 16 MiB.
const VALUE: usize = 16_777_216;

/// How many bytes of the data set a P-DATA-TF of 4096 bytes has.
const PART: usize = 4084;

/// The header of the value.
const HEADER: [u8; 12] = [0xe0, 0x7f, 0x10, 0, b'O', b'W', 0, 0, 0, 0, 0, 1];

/// How many bytes of the value follow the first such PDU, which also has the SOP Class and SOP
/// Instance UIDs.
const REMAINING: usize = VALUE - (PART - 60);

/// The size of the file: its header, the SOP Class and SOP Instance UIDs, the header of the value,
/// and the value.
const FILE: usize = 288 + 60 + VALUE;

/// How many bytes the devices may allocate.
const ROOM: usize = 4096;

/// The first chunks, and the file up to the first part of the data set.
#[derive(Drop)]
struct Opening {
    request: Vec<u8>,
    command: Vec<u8>,
    first: Vec<u8>,
    file: Vec<u8>,
}

/// The repeated chunk, and the last chunk.
#[derive(Drop)]
struct Rest {
    again: Vec<u8>,
    last: Vec<u8>,
}

fn make_opening(alloc: Global) -> Result<Opening, AllocError> {
    let first = joined(alloc, &[&CT_SET, &HEADER, &[0; PART - 60]])?;
    Ok(Opening {
        request: request(alloc, EXPLICIT)?,
        command: data(alloc, 3, store(alloc, INSTANCE)?.as_slice())?,
        file: file(alloc, EXPLICIT, INSTANCE, first.as_slice())?,
        first: data(alloc, 0, first.as_slice())?,
    })
}

fn make_rest(alloc: Global) -> Result<Rest, AllocError> {
    let zeros = [0u8; PART];
    Ok(Rest {
        again: data(alloc, 0, &zeros)?,
        last: data(alloc, 2, &zeros[..REMAINING % PART])?,
    })
}

/// The report of an association that is open after the store and still buffers parts of its
/// request.
const OPEN: Report = Report {
    standing: Standing::Open,
    held: 24,
};

/// The report of an association that a failed send ended.
const ENDED: Report = Report {
    standing: Standing::Ended,
    held: 0,
};

/// Runs the store over these devices, from the opening of the association. Only the devices can
/// allocate.
fn run_over<W: Wire, F: Filing>(
    opening: &Opening,
    rest: &Rest,
    wire: &mut W,
    filing: &mut F,
) -> Report {
    let first = [
        opening.request.as_slice(),
        opening.command.as_slice(),
        opening.first.as_slice(),
    ];
    let (again, last) = (rest.again.as_slice(), rest.last.as_slice());
    let mut source = Repeated::new(&first, again, REMAINING / PART, last);
    let turns = 4 + (REMAINING / PART) as u64;
    run::<65536, 1024, 256, 64, _, _, _>(&mut source, &config(), wire, filing, turns)
}

/// Returns whether the store is filed over these devices.
fn is_run(
    opening: &Opening,
    rest: &Rest,
    wire: &mut MemoryWire<&LocalHeap>,
    filing: FolderFiling<(HostRuntime, &LocalHeap)>,
) -> bool {
    let mut filing = filing;
    run_over(opening, rest, wire, &mut filing) == OPEN
        && (filing.committed(), filing.dropped()) == (1, 0)
}

/// Returns whether the folder has the file: its size, and its bytes up to the first part of the
/// data set.
fn is_filed(rt: &HostRuntime, dir: &str, front: &[u8]) -> io::Result<bool> {
    let path = format!(in rt.alloc(); "{dir}/I0000001")?;
    let file = fs::read(rt, path)?;
    Ok(count(rt, dir)? == 1 && file.len() == FILE && file.starts_with(front))
}

/// Returns the answer to the store with this status: the A-ASSOCIATE-AC and the reply.
fn answer_of(alloc: Global, status: u16) -> Result<Vec<u8>, AllocError> {
    let reply = reply(alloc, INSTANCE, status, None)?;
    joined(alloc, &[ACCEPT, reply.as_slice()])
}

/// The devices can only allocate from a heap too small for one more chunk of the data set.
#[test]
fn a_store_of_16_mib_in_4_kib(rt: HostRuntime) -> Result<(), Fail> {
    let dir = "a_store_of_16_mib";
    let opening = make_opening(rt.alloc())?;
    let rest = make_rest(rt.alloc())?;
    let answer = answer_of(rt.alloc(), status::SUCCESS)?;
    assert!(rt; opening.first.len() == 4096 && rest.again.len() == 4096);
    fresh(&rt, dir)?;
    let heap = LocalHeap::new(rt.alloc(), ROOM)?;
    let mut wire = MemoryWire::new(&heap);
    let filing = FolderFiling::open((rt, &heap), dir)?.without_sync();
    assert!(rt; is_run(&opening, &rest, &mut wire, filing));
    assert!(rt; wire.sent() == answer.as_slice());
    assert!(rt; is_filed(&rt, dir, opening.file.as_slice())?);
    fs::remove_dir_all(&rt, dir)?;
    Ok(())
}

/// Returns whether the store is filed and gets this answer over devices that allocate nothing.
fn is_still(opening: &Opening, rest: &Rest, answer: &[u8]) -> bool {
    let mut wire = StillWire::new();
    let mut filing = StillFiling::new(opening.file.as_slice());
    run_over(opening, rest, &mut wire, &mut filing) == OPEN
        && wire.sent() == answer
        && filing.has_filed(FILE)
}

/// Returns whether, with an exhausted heap, an allocation of the wire ends the association, and one
/// of the filing leads to this answer.
fn is_noticed(opening: &Opening, rest: &Rest, heap: &LocalHeap, answer: &[u8]) -> bool {
    let (mut asking_wire, mut filing) = (MemoryWire::new(heap), StillFiling::new(&[]));
    let (mut wire, mut asking_filing) = (StillWire::new(), MemoryFiling::new(heap));
    run_over(opening, rest, &mut asking_wire, &mut filing) == ENDED
        && asking_wire.sent().is_empty()
        && filing.is_empty()
        && run_over(opening, rest, &mut wire, &mut asking_filing) == OPEN
        && wire.sent() == answer
        && asking_filing.files().is_empty()
}

/// The heap is exhausted from the opening of the association to its end: the store needs no
/// allocation, and a device that allocates fails.
#[test]
fn a_store_of_16_mib_without_memory(rt: HostRuntime) -> Result<(), Fail> {
    let (opening, rest) = (make_opening(rt.alloc())?, make_rest(rt.alloc())?);
    let stored = answer_of(rt.alloc(), status::SUCCESS)?;
    let refused = answer_of(rt.alloc(), status::OUT_OF_RESOURCES)?;
    let heap = LocalHeap::new(rt.alloc(), 16)?;
    let used = Vec::from_slice(&heap, &[1u8; 16])?;
    assert!(rt; heap.free() == 0 && Vec::from_slice(&heap, &[1u8]).is_err());
    assert!(rt; is_still(&opening, &rest, stored.as_slice()));
    assert!(rt; is_noticed(&opening, &rest, &heap, refused.as_slice()));
    assert!(rt; used.len() == 16);
    Ok(())
}
