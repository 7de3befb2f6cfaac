//! Inspects a DICOM file: its elements, its first fault, and the values that break a rule of their
//! VR.
#![tactic(auto)]

mod bare;
mod check;
mod element_vrs;
mod entering;
mod error;
mod file_kind;
mod followed_sets;
mod fragments;
mod frame_tables;
mod front;
mod identity;
mod items;
mod json;
mod json_text;
mod judgement;
mod keyword;
mod limits;
mod meta_rule;
mod named_tag;
mod notes;
mod number_table;
mod options;
mod origin;
mod outcome;
mod sets;
mod show;
mod shown_value;
mod strict;
mod syntax;
mod texts;
mod value_text;
mod walk;

pub use bare::bare_form;
pub use check::check_with;
pub use error::InspectionError;
pub use file_kind::{FileKind, kind_of};
pub use front::FileFront;
pub use json_text::{JsonPath, JsonText};
pub use judgement::Judgement;
pub use keyword::known_keyword;
pub use meta_rule::{MetaRule, broken_rule_of};
pub use named_tag::{tag_named, tag_spelled};
pub use options::{CheckOptions, OutputForm, ShowOptions, Syntaxes};
pub use origin::{DIRECTORY_CLASS, class_of, implementation_of, other_syntax_of, value_from};
pub use outcome::{Inspected, Outcome};
pub use show::show_with;
pub use texts::{Indent, PathText, Printable, TagText, VrText};
pub use value_text::ValueText;
pub use walk::{Steps, walk_data_set};
