//! The program's commands.
ghost use Rattle.std.specs.Prelude.{◌≡◌, IfOk, map};
ghost use Rattle.clap.specs.Simple.{app_of};
ghost use Rattle.arguments.specs.CommandLine.{reading_apps, receiving_apps, the_command, with_subcommands};
ghost use Rattle.arguments.specs.machine.Tables.{app_for};

use crate::argument::{Argument, add_arguments};
use clap::Command;
use std::alloc::{AllocError, Global};

/// The version of the program.
pub const VERSION: &str = "1.1.0";

/// A command of the program.
#[derive(Clone, Copy)]
struct Subcommand<'a> {
    name: &'a str,
    about: &'a str,
    example: &'a str,
    arguments: &'a [Argument<'a>],
}

// Made by tools/tables from docs/tables.json.

const SERVE: Subcommand<'static> = Subcommand {
    name: "serve",
    about: "Receives images from scanners",
    example: "Example: dcmbox serve --port 11112 --out received --bind 0.0.0.0 --ae DCMBOX --caller SCANNER1",
    arguments: &[
        Argument::Needed("port", "PORT", "The TCP port to listen on, from 1 to 65535"),
        Argument::Needed("out", "DIR", "The folder that received files go to"),
        Argument::Default("bind", "ADDRESS", "127.0.0.1", "The address to listen on"),
        Argument::Repeated(
            "listen",
            "ADDRESS:PORT",
            "A further address and port to listen on, up to 4 times",
        ),
        Argument::Defaults(
            "ae",
            "TITLE",
            "DCMBOX",
            "An AE title that a peer may call, up to 16 times",
        ),
        Argument::Flag("any-called", "Lets a peer call any AE title"),
        Argument::Repeated(
            "caller",
            "TITLE",
            "An AE title that may call, up to 64 times; any may where none is named",
        ),
        Argument::Free(
            "callers",
            "FILE",
            "A file of AE titles that may call, one a line; a line that begins with # is a comment",
        ),
        Argument::Default(
            "timeout",
            "SECONDS",
            "30",
            "How long the ARTIM timer runs, from 1 to 86400",
        ),
        Argument::Default(
            "idle",
            "SECONDS",
            "600",
            "How long an association may be silent, from 1 to 86400",
        ),
        Argument::Default(
            "max-pdu",
            "BYTES",
            "16384",
            "The longest P-DATA-TF PDU that is taken, from 1024 to 131072",
        ),
        Argument::Default(
            "max-data",
            "BYTES",
            "1099511627776",
            "The longest data set that is taken, from 1024 to 2^48",
        ),
        Argument::Counted(
            "verbose",
            'v',
            "Logs a line for each store, too; -vv also each refused context",
        ),
        Argument::Letter("quiet", 'q', "Logs warnings and errors alone"),
        Argument::Free(
            "log",
            "FORM",
            "How lines are logged: text, the default, or json",
        ),
        Argument::Free(
            "per",
            "FILES",
            "Files into folders of so many, from 1 to 9999",
        ),
        Argument::Free(
            "numbers",
            "FILE",
            "A file that keeps the greatest numbers that were given, so that none comes again",
        ),
        Argument::Free(
            "quarantine",
            "DIR",
            "A folder that keeps the data sets that are refused for what is in them, as they came",
        ),
        Argument::Free(
            "quarantine-most",
            "COUNT",
            "How many of them it keeps at most, from 1 to 999999; 100 where none is given",
        ),
        Argument::Flag(
            "no-sync",
            "Answers a store before its file is surely on the disk",
        ),
        Argument::Flag("once", "Ends after one association"),
        Argument::Default(
            "at-once",
            "COUNT",
            "1",
            "How many associations are served at once, from 1 to 64",
        ),
        Argument::Free(
            "per-peer",
            "COUNT",
            "How many of them one address may have, at most all; half of them where none is given",
        ),
        Argument::Free(
            "longest",
            "SECONDS",
            "How long an association may last, from 1 to 86400; as long as it likes where none is given",
        ),
        Argument::Free(
            "stop-file",
            "FILE",
            "A file whose appearance ends the program in good order",
        ),
        Argument::Default(
            "grace",
            "SECONDS",
            "10",
            "How long stores that have begun may go on then, from 0 to 86400",
        ),
        Argument::Free(
            "metrics",
            "FILE",
            "A file that has counters in the text form of Prometheus",
        ),
        Argument::Flag("all-storage", "Takes every storage class of the standard"),
        Argument::Repeated(
            "storage-class",
            "UID",
            "A further storage class that is taken, up to 64 times",
        ),
        Argument::Flag("all-syntaxes", "Takes compressed transfer syntaxes, too"),
        Argument::Repeated(
            "transfer-syntax",
            "UID",
            "A compressed transfer syntax that is taken, up to 16 times",
        ),
    ],
};

const REPLAY: Subcommand<'static> = Subcommand {
    name: "replay",
    about: "Runs a recorded association, and prints what is sent in hexadecimal",
    example: "Example: dcmbox replay echo.bin --out received",
    arguments: &[
        Argument::Positional("FILE", "The recorded bytes of one association"),
        Argument::Needed("out", "DIR", "The folder that received files go to"),
        Argument::Defaults(
            "ae",
            "TITLE",
            "DCMBOX",
            "An AE title that a peer may call, up to 16 times",
        ),
        Argument::Default(
            "cut",
            "BYTES",
            "4096",
            "How many bytes are taken at a time, from 1 to 65536",
        ),
        Argument::Free(
            "per",
            "FILES",
            "Files into folders of so many, from 1 to 9999",
        ),
        Argument::Flag("all-storage", "Takes every storage class of the standard"),
        Argument::Repeated(
            "storage-class",
            "UID",
            "A further storage class that is taken, up to 64 times",
        ),
        Argument::Flag("all-syntaxes", "Takes compressed transfer syntaxes, too"),
        Argument::Repeated(
            "transfer-syntax",
            "UID",
            "A compressed transfer syntax that is taken, up to 16 times",
        ),
    ],
};

const SHOW: Subcommand<'static> = Subcommand {
    name: "show",
    about: "Lists the elements of DICOM files",
    example: "Example: dcmbox show received/I0000001",
    arguments: &[
        Argument::Several("FILE", "A DICOM file; - stands for standard input"),
        Argument::Letter("recursive", 'r', "Takes the files in folders, too"),
        Argument::Flag("follow", "Follows symbolic links in folders"),
        Argument::Flag("values", "Shows the value of each element after its line"),
        Argument::Flag("full", "Shows values of up to 65,536 bytes whole"),
        Argument::Flag("meta", "Lists the file meta information, group 0002, too"),
        Argument::Repeated(
            "tag",
            "TAG",
            "An element that is shown, as 0010,0020 or PatientID, and no other is but those of further --tag",
        ),
        Argument::Flag("json", "Writes a JSON object for each file"),
        Argument::Flag("all-syntaxes", "Takes compressed transfer syntaxes, too"),
        Argument::Flag(
            "any",
            "Takes files without a header, and compressed transfer syntaxes, too",
        ),
    ],
};

const CHECK: Subcommand<'static> = Subcommand {
    name: "check",
    about: "Checks DICOM files: their first fault, and the values that break the rules of their VR",
    example: "Example: dcmbox check received/I0000001",
    arguments: &[
        Argument::Several("FILE", "A DICOM file; - stands for standard input"),
        Argument::Letter("recursive", 'r', "Takes the files in folders, too"),
        Argument::Flag("follow", "Follows symbolic links in folders"),
        Argument::Flag(
            "strict",
            "Holds values to the whole table of VRs, and ends with status 1 after a note",
        ),
        Argument::Flag(
            "values",
            "Writes the keyword and the value after each note, and the keyword after a fault",
        ),
        Argument::Flag(
            "ignore-others",
            "Passes by files that are no DICOM files, and tells how many",
        ),
        Argument::Flag("json", "Writes a JSON object for each file"),
        Argument::Flag("all-syntaxes", "Takes compressed transfer syntaxes, too"),
        Argument::Flag(
            "any",
            "Takes files without a header, and compressed transfer syntaxes, too",
        ),
    ],
};

const INDEX: Subcommand<'static> = Subcommand {
    name: "index",
    about: "Writes the DICOMDIR of a folder of received files",
    example: "Example: dcmbox index received --new-uid",
    arguments: &[
        Argument::Positional("DIR", "The folder of received files"),
        Argument::Free("uid", "UID", "The SOP instance UID of the directory"),
        Argument::Flag("new-uid", "Makes the SOP instance UID, in place of --uid"),
        Argument::Flag(
            "descriptions",
            "Puts Series Description into the records of series",
        ),
        Argument::Flag("all-syntaxes", "Takes compressed transfer syntaxes, too"),
        Argument::Flag(
            "any-name",
            "Takes each DICOM file whose path is a file ID, not those named I and seven digits alone",
        ),
        Argument::Flag(
            "ignore-others",
            "Passes by files that are no DICOM files, and tells how many",
        ),
        Argument::Flag("follow", "Follows symbolic links in folders"),
        Argument::Flag(
            "keep",
            "Takes the files that the folder's DICOMDIR names, not those that are there",
        ),
        Argument::Flag("drop", "Changes nothing; it is taken since 1.1.0 needed it"),
        Argument::Flag(
            "replace",
            "Writes over a DICOMDIR that another program wrote",
        ),
        Argument::Flag("strict", "Ends with status 1 where a file is left out"),
        Argument::Flag("json", "Writes one JSON object"),
    ],
};

const CHECKDIR: Subcommand<'static> = Subcommand {
    name: "checkdir",
    about: "Checks a DICOMDIR, and lists its records",
    example: "Example: dcmbox checkdir received/DICOMDIR",
    arguments: &[
        Argument::Positional("FILE", "A DICOMDIR"),
        Argument::Flag("json", "Writes one JSON object"),
    ],
};

const LIST: Subcommand<'static> = Subcommand {
    name: "list",
    about: "Lists the studies of the DICOM files in folders",
    example: "Example: dcmbox list received --series",
    arguments: &[
        Argument::Several("DIR", "A folder; the files in its folders are taken, too"),
        Argument::Flag("series", "Lists the series of each study, too"),
        Argument::Flag(
            "instances",
            "Lists the series of each study and their files, too",
        ),
        Argument::Repeated(
            "where",
            "KEYWORD=VALUE",
            "Lists only files that have this value, as PatientID=P1; up to 8 times, and all hold",
        ),
        Argument::Free(
            "columns",
            "KEYWORDS",
            "Adds these values to each line, as StudyTime,BodyPartExamined; up to 8",
        ),
        Argument::Flag(
            "ignore-others",
            "Passes by files that are no DICOM files, and tells how many",
        ),
        Argument::Flag("follow", "Follows symbolic links in folders"),
        Argument::Flag("json", "Writes one JSON object"),
    ],
};

const ARRANGE: Subcommand<'static> = Subcommand {
    name: "arrange",
    about: "Links the DICOM files in folders into one tree of patients, studies and series",
    example: "Example: dcmbox arrange received --to tree",
    arguments: &[
        Argument::Several("DIR", "A folder; the files in its folders are taken, too"),
        Argument::Needed("to", "TREE", "The folder that the tree stands in"),
        Argument::Free(
            "pattern",
            "PATTERN",
            "The path of each file in the tree, with keywords in braces, as {PatientID}/{SOPInstanceUID}",
        ),
        Argument::Flag("copy", "Copies the files in place of linking them"),
        Argument::Flag("dry-run", "Prints what is to be done, and writes no file"),
        Argument::Flag(
            "ignore-others",
            "Passes by files that are no DICOM files, and tells how many",
        ),
        Argument::Flag("follow", "Follows symbolic links in folders"),
        Argument::Flag("json", "Writes one JSON object"),
    ],
};

const SEND: Subcommand<'static> = Subcommand {
    name: "send",
    about: "Sends the received files of a folder to an archive",
    example: "Example: dcmbox send received archive.example:104 --aec ARCHIVE --move",
    arguments: &[
        Argument::Positional("DIR", "The folder of received files"),
        Argument::Positional("HOST:PORT", "The host and port of the archive"),
        Argument::Needed("aec", "TITLE", "The AE title of the archive"),
        Argument::Default("aet", "TITLE", "DCMBOX", "The AE title that calls it"),
        Argument::Flag("move", "Removes each file that the archive has filed"),
        Argument::Free(
            "refused",
            "DIR",
            "A folder that files go to which the archive refuses for good",
        ),
        Argument::Flag(
            "any-name",
            "Takes each DICOM file, not those named I and seven digits alone",
        ),
        Argument::Default(
            "timeout",
            "SECONDS",
            "300",
            "How long the archive may be silent, from 1 to 86400",
        ),
        Argument::Letter("verbose", 'v', "Reports files that are filed, too"),
        Argument::Flag("json", "Writes one JSON object"),
    ],
};

const ECHO: Subcommand<'static> = Subcommand {
    name: "echo",
    about: "Tests whether an archive answers",
    example: "Example: dcmbox echo archive.example:104 --aec ARCHIVE",
    arguments: &[
        Argument::Positional("HOST:PORT", "The host and port of the archive"),
        Argument::Needed("aec", "TITLE", "The AE title of the archive"),
        Argument::Default("aet", "TITLE", "DCMBOX", "The AE title that calls it"),
        Argument::Default(
            "timeout",
            "SECONDS",
            "30",
            "How long the archive may be silent, from 1 to 86400",
        ),
    ],
};

/// The commands that receive data sets.
const RECEIVING: &[Subcommand<'static>] = &[SERVE, REPLAY];

/// The commands that read files, or call an archive.
const READING: &[Subcommand<'static>] = &[SHOW, CHECK, INDEX, CHECKDIR, LIST, ARRANGE, SEND, ECHO];

// End.

/// Returns clap's command for this command.
fn command_for<'a>(alloc: Global, subcommand: Subcommand<'a>) -> Result<Command<'a>, AllocError>
    ensures { IfOk result (λ c. app_of c ≡ app_for subcommand.entry) }
{
    let command = Command::new(alloc, subcommand.name)
        .about(subcommand.about)
        .after_help(subcommand.example);
    add_arguments(alloc, command, subcommand.arguments)
}

/// Appends subcommands to the command, in order.
fn add_subcommands<'a>(
    alloc: Global,
    command: Command<'a>,
    subcommands: &[Subcommand<'a>],
) -> Result<Command<'a>, AllocError>
    ensures { IfOk result (λ c. app_of c ≡ with_subcommands (app_of command.entry) (map app_for subcommands.now)) }
{
    let mut command = command;
    for subcommand in subcommands {
        command = command.subcommand(command_for(alloc, *subcommand)?)?;
    }
    Ok(command)
}

/// Appends the commands that receive data sets.
fn add_receiving<'a>(alloc: Global, command: Command<'a>) -> Result<Command<'a>, AllocError>
    ensures { IfOk result (λ c. app_of c ≡ with_subcommands (app_of command.entry) receiving_apps) }
{
    add_subcommands(alloc, command, RECEIVING)
}

/// Appends the commands that read files.
fn add_reading<'a>(alloc: Global, command: Command<'a>) -> Result<Command<'a>, AllocError>
    ensures { IfOk result (λ c. app_of c ≡ with_subcommands (app_of command.entry) reading_apps) }
{
    add_subcommands(alloc, command, READING)
}

/// Returns clap's command of the program, with all subcommands.
pub fn command<'a>(alloc: Global) -> Result<Command<'a>, AllocError>
    ensures { IfOk result (λ c. app_of c ≡ the_command) }
{
    let command = Command::new(alloc, "dcmbox")
        .version(VERSION)
        .about("A DICOM storage receiver whose behaviour is proved")
        .after_help("Help on a command, with an example: dcmbox help COMMAND")
        .subcommand_required(true);
    add_reading(alloc, add_receiving(alloc, command)?)
}
