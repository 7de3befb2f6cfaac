//! Inspects one file and prints the findings.
use checkdir_command::checkdir_named;
use dictionary::Transfer;
use element::Uid;
use failures::{Failure, ProgramError, flushed};
use inspection::{
    CheckOptions, DIRECTORY_CLASS, FileFront, Inspected, InspectionError, JsonPath, MetaRule,
    Outcome, OutputForm, Printable, ShowOptions, Syntaxes, bare_form, broken_rule_of, check_with,
    class_of, other_syntax_of, show_with,
};
use keyed_files::open_file;
use keywords::{class_keyword, syntax_keyword};
use std::fs::File;
use std::io;
use std::io::{BufWriter, Error, ErrorKind, Read, Write};

/// What is printed of a file.
#[derive(Clone, Copy, Debug)]
pub enum Inspection<'a> {
    Show(ShowOptions<'a>),
    Check(CheckOptions),
    Directory(OutputForm),
}

impl Inspection<'_> {
    /// Returns the format of the output.
    pub fn form(&self) -> OutputForm {
        match self {
            Inspection::Show(options) => options.form,
            Inspection::Check(options) => options.form,
            Inspection::Directory(form) => *form,
        }
    }

    /// Returns the transfer syntaxes that are accepted.
    pub fn syntaxes(&self) -> Syntaxes {
        match self {
            Inspection::Show(options) => options.syntaxes,
            Inspection::Check(options) => options.syntaxes,
            Inspection::Directory(_) => Syntaxes::Native,
        }
    }

    /// Returns whether a final line has the numbers of files.
    pub fn is_counted(&self) -> bool {
        match self {
            Inspection::Check(options) => options.form == OutputForm::Lines,
            _ => false,
        }
    }

    /// Returns whether a note makes the program exit with status 1.
    pub fn is_strict(&self) -> bool {
        match self {
            Inspection::Check(options) => options.strict,
            _ => false,
        }
    }

    /// Returns the outcome of an inspection.
    fn outcome(&self, inspected: &Inspected) -> Outcome {
        if self.is_strict() && inspected.notes > 0 {
            Outcome::Faulty
        } else {
            inspected.outcome
        }
    }
}

/// Returns the program's error for an inspection that failed.
fn failed(error: InspectionError) -> ProgramError {
    match error {
        InspectionError::Read(error) => ProgramError::of(Failure::Read, error),
        InspectionError::Write(error) => ProgramError::of_output(error),
    }
}

/// Writes the findings of the file with this name that the reader yields.
fn inspect_over<R: Read, O: Write>(
    rt: &HostRuntime,
    inspection: Inspection<'_>,
    (file, input): (&str, &mut FileFront<'_, R>),
    out: &mut O,
) -> Result<Inspected, ProgramError> {
    match inspection {
        Inspection::Show(options) => show_with(input, options, out).map_err(failed),
        Inspection::Check(options) => check_with(input, options, out).map_err(failed),
        Inspection::Directory(form) => Ok(Inspected {
            outcome: checkdir_named(rt.alloc(), (file, input), form, (out, &mut rt.stderr()))?,
            notes: 0,
            unjudged: 0,
        }),
    }
}

/// Reports the transfer syntax of a file that is not accepted, and whether an option would accept
/// it.
fn report_syntax(rt: &HostRuntime, file: &str, syntax: &Uid, needs_all: bool) {
    let (file, uid) = (Printable(file.as_bytes()), syntax.as_bytes());
    let keyword = syntax_keyword(uid).unwrap_or("unknown");
    let (uid, option) = (
        Printable(uid),
        if needs_all {
            "; --all-syntaxes takes it"
        } else {
            ""
        },
    );
    let _ = eprintln!(rt;
        "dcmbox: {file}: its transfer syntax is {keyword} ({uid}), which is not taken{option}"
    );
}

/// Reports the rule of the File Meta Information that a file breaks.
fn report_rule(rt: &HostRuntime, file: &str, rule: MetaRule) {
    let file = Printable(file.as_bytes());
    let _ = eprintln!(rt; "dcmbox: {file}: its file meta information is wrong: {rule}");
}

/// Reports the transfer syntax as which a file is read, if it has no file meta information.
fn report_form(rt: &HostRuntime, file: &str, beginning: &[u8]) {
    let Some(form) = bare_form(beginning) else {
        return;
    };
    let (file, syntax) = (Printable(file.as_bytes()), Transfer::native(form).keyword());
    let _ = eprintln!(rt; "dcmbox: {file}: no file meta information: read as {syntax}");
}

/// Reports the SOP Class of a file that is not a DICOMDIR.
fn report_class(rt: &HostRuntime, file: &str, beginning: &[u8]) {
    let Some(class) = class_of(beginning) else {
        return;
    };
    if class.as_bytes() != DIRECTORY_CLASS {
        let keyword = class_keyword(class.as_bytes()).unwrap_or("unknown");
        let (file, uid) = (Printable(file.as_bytes()), Printable(class.as_bytes()));
        let _ = eprintln!(rt; "dcmbox: {file}: it is no DICOMDIR: its class is {keyword} ({uid})");
    }
}

/// Reports a transfer syntax that is not accepted, or the broken rule of the File Meta Information,
/// if either is the fault.
fn report_header(rt: &HostRuntime, file: &str, beginning: &[u8], syntaxes: Syntaxes) {
    if let Some(syntax) = other_syntax_of(beginning, syntaxes) {
        let needs_all = other_syntax_of(beginning, Syntaxes::All).is_none();
        report_syntax(rt, file, &syntax, needs_all);
    }
    if let Some(rule) = broken_rule_of(beginning) {
        report_rule(rt, file, rule);
    }
}

/// Writes the opening brace of a file's object, its name and a comma.
fn write_file_name<O: Write>(file: &str, out: &mut O) -> Result<(), ProgramError> {
    let name = JsonPath(file);
    write!(out, "{{\"file\":{name},").map_err(ProgramError::of_output)
}

/// Writes the findings of the file with this name that the reader yields, and reports the cause of
/// a fault in the file's header.
fn inspect_named<R: Read, O: Write>(
    rt: &HostRuntime,
    inspection: Inspection<'_>,
    (file, input): (&str, &mut R),
    out: &mut O,
) -> Result<Inspected, ProgramError> {
    if inspection.form() == OutputForm::Json {
        write_file_name(file, out)?;
    }
    let mut front = FileFront::new(input);
    let inspected = inspect_over(rt, inspection, (file, &mut front), out)?;
    if inspection.syntaxes() == Syntaxes::Any {
        report_form(rt, file, front.kept());
    }
    if inspected.outcome == Outcome::Faulty {
        match inspection {
            Inspection::Directory(_) => report_class(rt, file, front.kept()),
            _ => report_header(rt, file, front.kept(), inspection.syntaxes()),
        }
    }
    Ok(inspected)
}

/// Writes in JSON that a file can't be opened, and returns the error.
pub fn unopened<O: Write>(
    inspection: Inspection<'_>,
    (file, error): (&str, ProgramError),
    out: &mut O,
) -> ProgramError {
    if inspection.form() == OutputForm::Json {
        if let Err(error) = write_file_name(file, out) {
            return error;
        }
        if let Err(error) = writeln!(out, "\"result\":\"unread\"}}") {
            return ProgramError::of_output(error);
        }
    }
    error
}

/// Reports that a file can't be shown or checked because it is a folder.
fn report_folder(
    rt: &HostRuntime,
    inspection: Inspection<'_>,
    (file, error): (&str, &ProgramError),
) {
    let is_of_files = !matches!(inspection, Inspection::Directory(_));
    if is_of_files && error.failure() == Some(Failure::IsFolder) {
        let file = Printable(file.as_bytes());
        let _ = eprintln!(rt; "dcmbox: {file}: it is a folder; -r takes the files in it");
    }
}

/// Opens a file; returns `None` for `-`, standard input. A name with a zero byte stands for a name
/// that is not UTF-8.
pub fn open_input(rt: &HostRuntime, file: &str) -> Result<Option<File>, ProgramError> {
    if file == "-" {
        return Ok(None);
    }
    if file.contains('\0') {
        let error = Error::from(ErrorKind::InvalidFilename);
        return Err(ProgramError::System(Failure::Name, error));
    }
    match open_file(rt, file) {
        Ok(input) => Ok(Some(input)),
        Err(error) => Err(ProgramError::System(Failure::Open, error)),
    }
}

/// Writes the findings of the opened file with this name, or that it can't be opened.
pub fn inspect_opened<O: Write>(
    rt: &HostRuntime,
    inspection: Inspection<'_>,
    (file, opened): (&str, Result<Option<File>, ProgramError>),
    out: &mut O,
) -> Result<Inspected, ProgramError> {
    match opened {
        Ok(None) => inspect_named(rt, inspection, (file, &mut rt.stdin()), out),
        Ok(Some(mut input)) => match inspect_named(rt, inspection, (file, &mut input), out) {
            Ok(inspected) => Ok(inspected),
            Err(error) => {
                report_folder(rt, inspection, (file, &error));
                Err(error)
            }
        },
        Err(error) => Err(unopened(inspection, (file, error), out)),
    }
}

/// Reports how many values were not judged, if any.
pub fn report_unjudged(rt: &HostRuntime, count: u64) {
    if count > 0 {
        let _ = eprintln!(rt; "dcmbox: not judged {count}");
    }
}

/// Prints the findings of a file. Output written before an error is printed as well.
pub fn inspect(
    rt: &HostRuntime,
    file: &str,
    inspection: Inspection<'_>,
) -> Result<Outcome, ProgramError> {
    let mut out = BufWriter::new(rt.alloc(), io::writer(rt)).map_err(ProgramError::of_output)?;
    let opened = open_input(rt, file);
    let outcome = match inspect_opened(rt, inspection, (file, opened), &mut out) {
        Ok(inspected) => {
            report_unjudged(rt, inspected.unjudged);
            Ok(inspection.outcome(&inspected))
        }
        Err(error) => Err(error),
    };
    flushed(outcome, &mut out)
}
