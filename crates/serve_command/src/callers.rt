//! Reads the file of the calling AE titles that are accepted, at the start and when it changes.
ghost use Rattle.std.specs.Prelude.{◌≡◌, IfOk, IfSome, string_bytes};
ghost use Rattle.negotiate.specs.Settings.{settings_of};
ghost use Rattle.serve_command.specs.Renewed.{AreRenewed, MayFollow};

use arguments::{Given, serve_settings};
use failures::{Failure, ProgramError, WordsError};
use journal::{Logger, Value, events, shown};
use log::Log;
use negotiate::Config;
use server::ConfigSource;
use std::alloc::Global;
use std::io::Read;
use std::os::unix::fs::MetadataExt;
use std::rt::Files;
use std::time::Clock;
use std::{fs, io};

/// The maximum size of the file of titles in bytes.
const MOST_BYTES: u64 = 65_536;

/// Returns the bytes of a file, at most one more than `MOST_BYTES`.
fn bytes_of<R: Files + Alloc<A = Global>>(rt: &R, path: &str) -> io::Result<Vec<u8>> {
    let file = fs::open(rt, path)?;
    let mut bytes = Vec::new(rt.alloc());
    file.take(MOST_BYTES + 1).read_to_end(&mut bytes)?;
    Ok(bytes)
}

/// Returns the text of the file of titles at this path, with U+FFFD for bytes that are not UTF-8,
/// or an empty text without a path.
///
/// Fails if the file cannot be read, if it is longer than 65,536 bytes, or if memory runs out.
pub fn callers_text<R: Files + Alloc<A = Global>>(
    rt: &R,
    path: Option<&str>,
) -> Result<String, ProgramError> {
    let Some(path) = path else {
        return Ok(String::new(rt.alloc()));
    };
    let bytes = match bytes_of(rt, path) {
        Ok(bytes) => bytes,
        Err(error) => return Err(ProgramError::of(Failure::Callers, error)),
    };
    if bytes.len() as u64 > MOST_BYTES {
        return Err(ProgramError::Words(WordsError::refused(
            rt.alloc(),
            format_args!("--callers names '{path}', which has more than {MOST_BYTES} bytes"),
        )));
    }
    Ok(String::from_utf8_lossy(rt.alloc(), bytes.as_slice())?)
}

/// Returns whether memory ran out.
fn is_of_memory(failure: &ProgramError) -> bool {
    matches!(
        failure,
        ProgramError::Memory(_) | ProgramError::Words(WordsError::Memory(_))
    )
}

/// What changes when a file is written or another one takes its name.
#[derive(Clone, Copy, PartialEq, Eq)]
struct Stamp {
    device: u64,
    inode: u64,
    size: u64,
    seconds: i64,
    nanoseconds: i64,
}

impl Stamp {
    /// The stamp of no file.
    const NONE: Stamp = Stamp {
        device: 0,
        inode: 0,
        size: 0,
        seconds: 0,
        nanoseconds: 0,
    };

    /// Returns the stamp of the file at this path, or `NONE` if there is none.
    fn of(rt: &HostRuntime, path: &str) -> Stamp {
        match fs::metadata(rt, path) {
            Ok(found) => Stamp {
                device: found.dev(),
                inode: found.ino(),
                size: found.size(),
                seconds: found.ctime(),
                nanoseconds: found.ctime_nsec(),
            },
            Err(_) => Stamp::NONE,
        }
    }
}

/// The file of calling titles of a running server. When it has changed, the settings are read anew.
#[derive(Drop)]
pub(crate) struct CallersFile<'a, 'g, R> {
    rt: &'a HostRuntime,
    given: &'a Given<'g>,
    logger: Logger<'a, R>,
    /// The stamp of the file before it was last read, or `None` if that is not known.
    seen: Option<Stamp>,
    /// The text that was last read, or an empty one if the file could not be read.
    text: String,
}

impl<'a, 'g, R: Log + Clock> CallersFile<'a, 'g, R> {
    /// Creates the source of the settings that follow those of these arguments and this text of the
    /// file.
    pub(crate) fn new(
        rt: &'a HostRuntime,
        (given, text): (&'a Given<'g>, String),
        logger: Logger<'a, R>,
    ) -> CallersFile<'a, 'g, R> {
        CallersFile {
            rt,
            given,
            logger,
            seen: None,
            text,
        }
    }

    /// Reads the file, and returns the settings with its titles, unless its text is that which was
    /// read last.
    ///
    /// Fails if the file cannot be read, if its text is refused, or if memory runs out.
    fn read(&mut self, path: &str) -> Result<Option<Box<Config>>, ProgramError>
        ensures renewed { IfOk result (λ found. IfSome found (λ c. AreRenewed self.old.given.now (string_bytes self.new.text) (settings_of c.value))) }
        ensures given { self.new.given ≡ self.old.given }
    {
        let alloc = self.rt.alloc();
        let text = match callers_text(self.rt, Some(path)) {
            Ok(text) => text,
            Err(failure) => {
                self.text.clear();
                return Err(failure);
            }
        };
        if text == self.text {
            return Ok(None);
        }
        self.text = text;
        let settings = serve_settings(alloc, self.given, self.text.as_str())?;
        Ok(Some(Box::new(alloc, settings.config)?))
    }

    /// Logs why the file was not read.
    fn report(&self, failure: &ProgramError) {
        let Ok(text) = format!(in self.rt.alloc(); "{failure}") else {
            return;
        };
        let text = text.as_str().trim_end();
        let reason = match text.strip_prefix("error: ") {
            Some(reason) => reason,
            None => text,
        };
        self.logger
            .report(events::CALLERS_NOT_READ, &[shown(reason)]);
    }
}

impl<R: Log + Clock> ConfigSource for CallersFile<'_, '_, R> {
    ghost gives = { λ file s. MayFollow file.given.now s };

    /// Returns the settings with the titles of the file, if they were read anew, which is logged.
    /// If the file has changed and cannot be used, logs an error once.
    fn renewed(&mut self) -> Option<Box<Config>> {
        let path = self.given.get("callers")?;
        let stamp = Stamp::of(self.rt, path);
        if self.seen == Some(stamp) {
            return None;
        }
        self.seen = Some(stamp);
        match self.read(path) {
            Ok(Some(config)) => {
                let callers = config.callers().len() as u64;
                self.logger
                    .report(events::CALLERS_READ, &[Value::Number(callers)]);
                Some(config)
            }
            Ok(None) => None,
            Err(failure) => {
                self.report(&failure);
                if is_of_memory(&failure) {
                    // The next connection tries again.
                    self.seen = None;
                    self.text.clear();
                }
                None
            }
        }
    }
}
