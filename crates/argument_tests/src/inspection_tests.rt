//! The arguments of `show`, `check` and `list` for a command line.
use crate::asked::asks;
use std::test::Fail;

static ALONE: &str = "dcmbox check a.dcm
files | a.dcm
values | no
strict | no
json | no
recursive | no
all-syntaxes | no
any | no";

#[test]
fn check_without_options(rt: HostRuntime) -> Result<(), Fail> {
    asks(rt.alloc(), ALONE)
}

/// Each option sets only its own value.
static OPTIONS: &str = "dcmbox check --values a.dcm b.dcm
values | yes
strict | no
json | no
files | a.dcm b.dcm
dcmbox check a.dcm --strict
strict | yes
values | no
dcmbox check -r --json --values --strict --all-syntaxes a
values | yes
strict | yes
json | yes
recursive | yes
all-syntaxes | yes
any | no
dcmbox check --any a
any | yes
all-syntaxes | no
dcmbox show --any a
any | yes
all-syntaxes | no
dcmbox show --all-syntaxes a
any | no
all-syntaxes | yes
dcmbox index --any a
fails | yes
dcmbox check --values
fails | yes
dcmbox check --tag PatientID a
fails | yes";

#[test]
fn options_of_check(rt: HostRuntime) -> Result<(), Fail> {
    asks(rt.alloc(), OPTIONS)
}

/// Tags are kept as given; their names are resolved later.
static TAGS: &str = "dcmbox show --tag PatientID --tag (0010,0020) a.dcm
tags | PatientID (0010,0020)
values | no
files | a.dcm";

#[test]
fn tags_of_show(rt: HostRuntime) -> Result<(), Fail> {
    asks(rt.alloc(), TAGS)
}

/// Keywords are kept as given; they are resolved later.
static COLUMNS: &str = "dcmbox list in
columns | none
series | no
dcmbox list --columns StudyTime,PatientAge in --where Modality=CT
columns | StudyTime,PatientAge
conditions | Modality=CT
folders | in
dcmbox list in --columns StudyTime --columns PatientAge
fails | yes
dcmbox list in --columns
fails | yes";

#[test]
fn columns_of_list(rt: HostRuntime) -> Result<(), Fail> {
    asks(rt.alloc(), COLUMNS)
}
