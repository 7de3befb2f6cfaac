//! The classes of a request of which presentation contexts were refused.
use crate::accepted::Accepted;
use crate::asked::UidText;
use crate::event::Words;
use crate::text::Text;
use dictionary::{Transfer, storage_class, syntax_of};
use element::Uid;
use keywords::{class_keyword, syntax_keyword};
use negotiate::{Config, result_of};
use pdu::{Proposal, Request};
use std::fmt::Write;

/// The maximum number of classes that are named.
const MOST_NAMED: u64 = 4;

/// The maximum size of the table of the standard's storage classes.
const MOST_CLASSES: usize = 1024;

/// The result of a context whose class is not accepted: abstract-syntax-not-supported (PS3.8 Table
/// 9-18).
const CLASS_REFUSED: u8 = 3;

/// The maximum number of transfer syntaxes that are named for a class.
const MOST_SYNTAXES: u64 = 3;

/// Classes of which contexts were refused: the first with the reason and the options that would
/// accept them, and the number of the others.
#[derive(Drop)]
pub(crate) struct RefusedClasses {
    /// The classes that are named, separated by a comma and a space.
    pub named: Text<560>,
    named_count: u64,
    pub others: u64,
    /// Whether one of the classes is or may be a storage class.
    pub has_storage: bool,
}

/// Returns a keyword, or the UID if it has none.
fn shown_uid(uid: &[u8], keyword: Option<&str>) -> UidText {
    let mut text = UidText::new();
    match keyword {
        Some(keyword) => text.add(keyword.as_bytes()),
        None => text.add(uid),
    }
    text
}

/// Returns the keyword of a class, or its UID if it has none.
pub(crate) fn shown_class(uid: &[u8]) -> UidText {
    shown_uid(uid, class_keyword(uid))
}

/// Returns the keyword of a transfer syntax, or its UID if it has none.
pub(crate) fn shown_syntax(uid: &[u8]) -> UidText {
    shown_uid(uid, syntax_keyword(uid))
}

/// Returns whether the class is in the standard's table of storage classes.
fn is_registered(uid: &[u8]) -> bool {
    for index in 0..MOST_CLASSES {
        match storage_class(index) {
            Some(class) if class.uid == uid => return true,
            Some(_) => {}
            None => return false,
        }
    }
    false
}

/// Returns the option by which a class would be accepted, or an empty text if there is none.
fn class_option(uid: &[u8]) -> &'static str {
    if is_registered(uid) {
        return "--all-storage";
    }
    if Uid::read(uid).is_none() {
        return "";
    }
    match class_keyword(uid) {
        Some(keyword) if !keyword.contains("Storage") || keyword.contains("Commitment") => "",
        _ => "--storage-class",
    }
}

/// The transfer syntaxes of the refused contexts of a class.
#[derive(Drop)]
struct RefusedSyntaxes {
    /// The keywords of the first of them, separated by spaces.
    named: Text<160>,
    count: u64,
    /// Whether one of them is always accepted.
    has_native: bool,
    /// Whether one of them is accepted by option.
    has_compressed: bool,
}

impl RefusedSyntaxes {
    /// Returns the transfer syntaxes of the refused contexts of this class.
    fn of(request: &Request, accepted: &Accepted, class: &[u8]) -> RefusedSyntaxes {
        let mut syntaxes = RefusedSyntaxes {
            named: Text::new(),
            count: 0,
            has_native: false,
            has_compressed: false,
        };
        for proposal in request.contexts() {
            if proposal.abstract_syntax() == class && !accepted.has(proposal.id()) {
                for uid in proposal.transfer_syntaxes() {
                    syntaxes.add(uid);
                }
            }
        }
        syntaxes
    }

    /// Adds a transfer syntax.
    fn add(&mut self, uid: &[u8]) {
        self.has_native |= syntax_of(uid).is_some();
        self.has_compressed |= Transfer::of(uid).is_some();
        let shown = shown_syntax(uid);
        if self
            .named
            .as_str()
            .split(' ')
            .any(|name| name == shown.as_str())
        {
            return;
        }
        self.count = self.count.saturating_add(1);
        if self.count <= MOST_SYNTAXES {
            if self.count > 1 {
                self.named.add(b" ");
            }
            self.named.add(shown.as_str().as_bytes());
        }
    }

    /// Returns the options that would accept a context of the class with this result, or an empty
    /// text if there are none.
    fn options(&self, class: &[u8], answer: u8) -> Words {
        let mut options = Words::new();
        if answer == CLASS_REFUSED {
            options.add(class_option(class).as_bytes());
            if options.len() == 0 || !self.has_native && !self.has_compressed {
                return Words::new();
            }
            if !self.has_native {
                options.add(b" --all-syntaxes");
            }
        } else if self.has_compressed {
            options.add(b"--all-syntaxes");
        }
        options
    }
}

/// Returns whether another context of the same class was accepted, or `None` if an earlier context
/// of the class was refused too.
fn accepts_class(request: &Request, accepted: &Accepted, proposal: &Proposal) -> Option<bool> {
    let mut is_accepted = false;
    let mut is_before = true;
    for other in request.contexts() {
        if other.id() == proposal.id() {
            is_before = false;
        } else if other.abstract_syntax() == proposal.abstract_syntax() {
            if accepted.has(other.id()) {
                is_accepted = true;
            } else if is_before {
                return None;
            }
        }
    }
    Some(is_accepted)
}

impl RefusedClasses {
    /// Creates an empty list of classes.
    pub(crate) fn new() -> RefusedClasses {
        RefusedClasses {
            named: Text::new(),
            named_count: 0,
            others: 0,
            has_storage: false,
        }
    }

    /// Returns the classes of which no context was accepted, and the storage classes of which some
    /// contexts were accepted and others were not.
    pub(crate) fn of(
        config: &Config,
        request: &Request,
        accepted: &Accepted,
    ) -> (RefusedClasses, RefusedClasses) {
        let mut refused = RefusedClasses::new();
        let mut in_part = RefusedClasses::new();
        for proposal in request.contexts() {
            if accepted.has(proposal.id()) {
                continue;
            }
            let answer = result_of(config, &proposal);
            match accepts_class(request, accepted, &proposal) {
                Some(false) => refused.add(request, accepted, &proposal, answer),
                Some(true) if !class_option(proposal.abstract_syntax()).is_empty() => {
                    in_part.add(request, accepted, &proposal, answer);
                }
                _ => {}
            }
        }
        (refused, in_part)
    }

    /// Returns whether there are no classes.
    pub(crate) fn is_empty(&self) -> bool {
        self.named_count == 0
    }

    /// Adds the class of a refused context with this result.
    fn add(&mut self, request: &Request, accepted: &Accepted, proposal: &Proposal, answer: u8) {
        let class = proposal.abstract_syntax();
        self.has_storage |= !class_option(class).is_empty();
        if self.named_count == MOST_NAMED {
            self.others = self.others.saturating_add(1);
            return;
        }
        if self.named_count > 0 {
            self.named.add(b", ");
        }
        self.named_count = self.named_count.saturating_add(1);
        let syntaxes = RefusedSyntaxes::of(request, accepted, class);
        let _ = write!(self.named, "{} (", shown_class(class));
        if answer == CLASS_REFUSED {
            self.named.add(b"class");
        } else {
            let _ = write!(self.named, "syntaxes {}", syntaxes.named);
            if syntaxes.count > MOST_SYNTAXES {
                let _ = write!(self.named, " and {} more", syntaxes.count - MOST_SYNTAXES);
            }
        }
        let options = syntaxes.options(class, answer);
        if options.len() > 0 {
            let _ = write!(self.named, ": {options}");
        }
        self.named.add(b")");
    }
}
