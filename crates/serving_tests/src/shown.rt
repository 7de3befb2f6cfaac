//! Runs a connection by a script and compares its log lines with those of the script: a further
//! script needs no proof.
use crate::scripted::{Script, ScriptedSocket, after, at_once, configuration, longest_of};
use crate::words::{names, number, parts, peer_does};
use cases::{Case, Parts};
use fixtures::config;
use fixtures::folders::fresh;
use folder_filing::FolderFiling;
use journal::{Journal, LineForm, Logger, Served};
use log::sink::Memory;
use log::{Level, Logged};
use metrics::{CountedEnd, CountedStatus, Counters, MetricsFile};
use service::Observer;
use serving::{Connection, ConnectionMemory};
use std::alloc::Global;
use std::fs;
use std::net::{IpAddr, Ipv4Addr, SocketAddr};
use std::test::Fail;
use std::time::Instant;

/// Returns what an association reports to the journal.
fn served() -> Served {
    Served {
        standing: "Ended",
        held: 0,
        files: 2,
        received: 260,
        seconds: 1,
    }
}

/// A connection that files into a folder, with a journal.
type Journaled<'c, 'a, B> = Connection<'c, ScriptedSocket<'a>, FolderFiling<HostRuntime>, B>;

/// The script of a run, and its settings.
#[derive(Clone, Copy)]
struct Scene<'a> {
    rt: &'a HostRuntime,
    /// The name of the folder.
    dir: &'a str,
    text: &'a str,
    /// The size in bytes of the chunks that the peer sends.
    size: usize,
}

/// Runs a connection by a script, filing into a new folder. Returns the counters.
fn counted(scene: Scene, sink: &Memory<Global>) -> Result<Counters, Fail> {
    let rt = scene.rt;
    fresh(rt, scene.dir)?;
    let filing = FolderFiling::open(*rt, scene.dir)?;
    let notes = filing.notes()?;
    let logged = Logged::new(*rt, level_of(scene.text)?, sink);
    let peer = SocketAddr::new(IpAddr::V4(Ipv4Addr::new(192, 0, 2, 7)), 51234);
    let metrics = MetricsFile::new(rt, rt.alloc(), "box.prom", "1.0.0")?;
    let logger = Logger::new(&logged, LineForm::Text)
        .about(peer)
        .counting(Some(&metrics));
    let config = config();
    let script = Script::new(rt.alloc());
    let mut parts = parts(rt.alloc())?;
    let memory = ConnectionMemory::new(rt.alloc(), &config)?;
    let begin = Instant::now(rt)?;
    let journal = Journal::new(rt.alloc(), logger, notes, &config);
    let mut one = Connection::open(
        configuration(&config, longest_of(scene.text)),
        (ScriptedSocket(&script), filing, journal),
        memory,
        begin,
    );
    let played = perform(&mut one, scene, &script, &mut parts, begin);
    let (_end, journal, _memory) = one.close(begin);
    journal.end(served());
    let _ = fs::remove_dir_all(rt, scene.dir);
    played?;
    Ok(metrics.figures().counters)
}

/// Applies the steps of a script.
fn perform<'a, B: Observer>(
    one: &mut Journaled<'_, '_, B>,
    scene: Scene<'a>,
    script: &Script,
    parts: &mut Parts<'a>,
    begin: Instant,
) -> Result<(), Fail> {
    let mut now = begin;
    for line in scene.text.lines() {
        step(one, scene, script, parts, &mut now, &Case::of(line))?;
    }
    Ok(())
}

/// Applies a step.
fn step<'a, B: Observer>(
    one: &mut Journaled<'_, '_, B>,
    scene: Scene,
    script: &Script,
    parts: &mut Parts<'a>,
    now: &mut Instant,
    case: &Case<'a>,
) -> Result<(), Fail> {
    if names(scene.rt.alloc(), parts, case)? {
        return Ok(());
    }
    match case.name {
        "log" | "line" | "longest" | "pieces" => return Ok(()),
        "send" => return send(one, script, *now, scene, parts.bytes(case, 0)?.as_slice()),
        "later" => *now = after(*now, number(case, 0)? as u64),
        "stop" => {
            let _done = one.stop(at_once(*now), *now);
        }
        "folder goes" => fs::remove_dir_all(scene.rt, scene.dir)?,
        _ if peer_does(script, parts, case)? => {}
        _ => return Err(case.fails("no such step")),
    }
    continues(one, *now);
    Ok(())
}

/// Sends bytes from the peer in chunks, and gives the connection its rounds after each chunk.
fn send<B: Observer>(
    one: &mut Journaled<'_, '_, B>,
    script: &Script,
    now: Instant,
    scene: Scene,
    bytes: &[u8],
) -> Result<(), Fail> {
    for piece in bytes.chunks(scene.size.max(1)) {
        script.send(piece)?;
        continues(one, now);
    }
    Ok(())
}

/// Gives the connection four rounds.
fn continues<B: Observer>(one: &mut Journaled<'_, '_, B>, now: Instant) {
    for _ in 0..4 {
        one.wake();
        let _done = one.round(now, None);
    }
}

/// Returns the log level of a script.
fn level_of(text: &str) -> Result<Level, Fail> {
    for line in text.lines() {
        match line {
            "log | Warn" => return Ok(Level::Warn),
            "log | Info" => return Ok(Level::Info),
            "log | Debug" => return Ok(Level::Debug),
            "log | Trace" => return Ok(Level::Trace),
            _ => {}
        }
    }
    Err(Fail::from("it logs nothing"))
}

/// Returns the words of the log for associations counted with this end.
fn words_of(end: CountedEnd) -> &'static str {
    match end {
        CountedEnd::Released => "released",
        CountedEnd::Rejected => "rejected: ",
        CountedEnd::AbortedByPeer => "aborted by the peer, ",
        CountedEnd::AbortedByBox => "aborted by dcmbox, ",
        CountedEnd::Closed => "closed by the peer",
        CountedEnd::TimerExpired => "ARTIM timer expired",
        CountedEnd::Idle => "aborted: the peer was idle",
        CountedEnd::TooLong => "aborted: it lasted too long",
        CountedEnd::Stopping => "aborted: the box stops",
        CountedEnd::ConnectionFailed => "the connection failed",
        CountedEnd::FileLost => "closed by dcmbox: a file was lost",
        CountedEnd::Unknown => "",
    }
}

/// Returns the end of the only counted association, or `None` if not exactly one was counted.
fn end_of(counters: &Counters) -> Option<CountedEnd> {
    let mut found = None;
    for (end, _) in CountedEnd::ALL {
        match (counters.ended(end), found) {
            (0, _) => {}
            (1, None) => found = Some(end),
            _ => return None,
        }
    }
    found
}

/// Fails if the counters do not match the association's log line, if that is the last line.
fn agree(rt: &HostRuntime, counters: &Counters, lines: &[String]) -> Result<(), Fail> {
    let Some(end) = end_of(counters) else {
        return Err(Fail::from("not one association is counted"));
    };
    let Some(last) = lines.last() else {
        return Ok(());
    };
    let Some((_, line)) = last.as_str().split_once(" called \"") else {
        return Ok(());
    };
    let stored = counters.answered(CountedStatus::Success);
    let refused = counters
        .answered(CountedStatus::ClassNotSupported)
        .saturating_add(counters.answered(CountedStatus::OutOfResources));
    let failed = counters
        .answered(CountedStatus::DataSetMismatch)
        .saturating_add(counters.answered(CountedStatus::CannotUnderstand))
        .saturating_add(counters.answered(CountedStatus::Other));
    let counts = format!(in rt.alloc(); " stored {stored} refused {refused} failed {failed}")?;
    let ended = format!(in rt.alloc(); "\" {}", words_of(end))?;
    let is_reported = line.contains(ended.as_str()) && line.ends_with(counts.as_str());
    if !line.contains(" contexts ") || is_reported && counters.received == served().received {
        return Ok(());
    }
    let reported = format!(in rt.alloc(); "counted as {ended}{counts}: {line}")?;
    Err(Fail::from(reported))
}

/// Runs a script. Fails if the log lines of a connection are not those of the script. Runs are
/// separated by an empty line; each has a folder with the name `dir`, which is removed at its end.
///
/// Each line is a step: a verb and its operands, separated by bars. Names of bytes and the verbs of
/// the peer are those of `words`. After each step the connection has four rounds.
///
/// - `log | Info`: the level of the log, from `Warn` to `Trace`.
/// - `pieces | NUMBER NUMBER`, as the first line: a run for each number, with chunks of this many
///   bytes.
/// - `later | SECONDS`: this many seconds pass. `stop`: the receiver is to end at once.
///   `folder goes`: the folder is removed.
/// - `longest | SECONDS`: the longest duration of the connection.
/// - `line | TEXT`: the next line of the log, without its time.
pub fn reports(rt: &HostRuntime, dir: &str, script: &str) -> Result<(), Fail> {
    for text in script.split("\n\n") {
        let sizes = match text.strip_prefix("pieces | ") {
            Some(rest) => rest.lines().next().unwrap_or(""),
            None => "65536",
        };
        for size in sizes.split(' ') {
            let size = size.parse::<usize>().unwrap_or(0);
            let scene = Scene {
                rt,
                dir,
                text,
                size,
            };
            are(rt, lines_of(scene)?.as_slice(), wanted(scene)?.as_slice())?;
        }
    }
    Ok(())
}

/// Returns the log lines that a script expects.
fn wanted(scene: Scene<'_>) -> Result<Vec<&str>, Fail> {
    let mut wanted = Vec::new(scene.rt.alloc());
    for line in scene.text.lines() {
        let case = Case::of(line);
        if case.name == "line" {
            wanted.push(case.field(0)?)?;
        }
    }
    Ok(wanted)
}

/// Returns the log lines of a run, each without its time.
fn lines_of(scene: Scene) -> Result<Vec<String>, Fail> {
    let rt = scene.rt;
    let sink = Memory::new(rt.alloc());
    let counters = counted(scene, &sink)?;
    let reported = sink.into_lines();
    agree(rt, &counters, reported.as_slice())?;
    let mut lines = Vec::new(rt.alloc());
    for line in reported.as_slice() {
        lines.push(untimed(rt, line.as_str())?)?;
    }
    Ok(lines)
}

/// Returns the line without its time, which is 24 characters after the level and the target.
fn untimed(rt: &HostRuntime, line: &str) -> Result<String, Fail> {
    match line.split_once(" 192.0.2.7:51234 ") {
        Some((before, after)) if before.len() == 46 => {
            let level = before.get(..7).unwrap_or("");
            Ok(format!(in rt.alloc(); "{level}{after}")?)
        }
        _ => Ok(String::from_str(rt.alloc(), line)?),
    }
}

/// Fails with the first line that differs from the expected lines.
fn are(rt: &HostRuntime, lines: &[String], wanted: &[&str]) -> Result<(), Fail> {
    for index in 0..lines.len().max(wanted.len()) {
        let line = lines.get(index).map_or("nothing", |line| line.as_str());
        let want = wanted.get(index).map_or("nothing", |want| *want);
        if line != want {
            let reported = format!(in rt.alloc();
                "line {index} of the log is {line} and not {want}"
            )?;
            return Err(Fail::from(reported));
        }
    }
    Ok(())
}
