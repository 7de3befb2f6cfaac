//! `dcmbox replay`: runs an association with the recorded bytes of a peer.
ghost use Rattle.std.specs.Prelude.{◌<◌};

use crate::hexadecimal;
use arguments::Replay;
use engine::{ListSource, ListedInput, Report, run};
use failures::{Failure, ProgramError, read_whole};
use folder_filing::FolderFiling;
use folders::open_folder;
use negotiate::Config;
use part10::Filing;
use pdu::MemoryWire;
use service::{COMMAND, DEPTH, REQUEST, VALUES};
use std::alloc::{AllocError, Allocator, Global};
use std::io::{BufWriter, Read, Write};
use std::{fs, io};

/// Returns the inputs of a recording: its bytes in chunks of `cut` bytes, then the close of the
/// transport connection. Fails if memory runs out.
fn inputs_of<'a, A: Allocator>(
    alloc: A,
    recording: &'a [u8],
    cut: usize,
) -> Result<Vec<ListedInput<'a>, A>, AllocError>
    requires { 0 < cut }
{
    let mut inputs = Vec::new(alloc);
    for piece in recording.chunks(cut) {
        inputs.push(ListedInput::Piece(piece))?;
    }
    inputs.push(ListedInput::Closed)?;
    Ok(inputs)
}

/// Runs an association with these inputs, an in-memory wire and the filing. Writes the sent bytes
/// in hexadecimal, and returns the final state of the association.
fn replay_inputs<A: Allocator + Copy, F: Filing, O: Write>(
    alloc: A,
    inputs: &[ListedInput<'_>],
    config: &Config,
    filing: &mut F,
    out: &mut O,
) -> Result<Report, ProgramError> {
    let mut source = ListSource::new(inputs);
    let mut wire = MemoryWire::new(alloc);
    let turns = inputs.len() as u64;
    let report = run::<REQUEST, COMMAND, VALUES, DEPTH, _, _, _>(
        &mut source,
        config,
        &mut wire,
        filing,
        turns,
    );
    if wire.failed() {
        return Err(ProgramError::Wire);
    }
    hexadecimal::write_lines(wire.sent(), out).map_err(ProgramError::of_output)?;
    Ok(report)
}

/// Runs an association with a recording in chunks of `cut` bytes, as [`replay_inputs`] does.
fn replay_recording<A: Allocator + Copy, F: Filing, O: Write>(
    alloc: A,
    recording: &[u8],
    cut: usize,
    config: &Config,
    filing: &mut F,
    out: &mut O,
) -> Result<Report, ProgramError>
    requires { 0 < cut }
{
    let inputs = inputs_of(alloc, recording, cut)?;
    replay_inputs(alloc, inputs.as_slice(), config, filing, out)
}

/// Runs an association with the recording that `input` has, in chunks of `cut` bytes, with an
/// in-memory wire and the filing. Writes the sent bytes in hexadecimal, and returns the final state
/// of the association.
///
/// Fails if the recording cannot be read, the output cannot be written, or memory runs out. If it
/// runs out for the sent bytes, nothing is written.
pub fn replay_over<A: Allocator + Copy, R: Read, F: Filing, O: Write>(
    alloc: A,
    input: &mut R,
    cut: usize,
    config: &Config,
    filing: &mut F,
    out: &mut O,
) -> Result<Report, ProgramError>
    requires { 0 < cut }
{
    let recording = read_whole(alloc, input, Failure::Read)?;
    replay_recording(alloc, recording.as_slice(), cut, config, filing, out)
}

/// Runs the recording. Writes the sent bytes and a last line: the state of the association, and the
/// numbers of held bytes and of stored files.
fn write_replay<R: Read, O: Write>(
    alloc: Global,
    settings: &Replay,
    input: &mut R,
    filing: &mut FolderFiling<HostRuntime>,
    out: &mut O,
) -> Result<(), ProgramError> {
    let report = replay_over(alloc, input, settings.cut, &settings.config, filing, out)?;
    let (standing, held, files) = (report.standing, report.held, filing.committed());
    writeln!(out, "{standing} held {held} files {files}").map_err(ProgramError::of_output)
}

/// Runs the recording into a folder. Prints the sent bytes and the last line to standard output.
fn print_replay<R: Read>(
    rt: &HostRuntime,
    settings: &Replay,
    input: &mut R,
) -> Result<(), ProgramError> {
    let mut filing = open_folder(*rt, settings.out, settings.layout, true)?;
    let mut out = BufWriter::new(rt.alloc(), io::writer(rt)).map_err(ProgramError::of_output)?;
    write_replay(rt.alloc(), settings, input, &mut filing, &mut out)?;
    out.flush().map_err(ProgramError::of_output)
}

/// Runs an association with the recorded file of the settings, or with standard input if that is
/// `-`. Prints the sent bytes in hexadecimal, and the final state of the association.
///
/// Fails if the file or the folder cannot be opened, the recording cannot be read, the output
/// cannot be written, or memory runs out.
pub fn replay(rt: &HostRuntime, settings: &Replay) -> Result<(), ProgramError> {
    if settings.file == "-" {
        return print_replay(rt, settings, &mut rt.stdin());
    }
    match fs::open(rt, settings.file) {
        Ok(mut input) => print_replay(rt, settings, &mut input),
        Err(error) => Err(ProgramError::System(Failure::Open, error)),
    }
}
