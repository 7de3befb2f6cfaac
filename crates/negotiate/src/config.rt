//! The settings of the receiver.
ghost use Rattle.std.specs.Prelude.{◌≡◌, ◌^◌, ◌≤◌, [], false, IfSome, length, map, option_map, slice_get};
ghost use Rattle.std.specs.List.{list_any};
ghost use Rattle.std.specs.List.Sorted.{IsSorted};
ghost use Rattle.std.proofs.Props.{props};
ghost use Rattle.arrayvec.specs.ArrayVec.{array_vec_len};
ghost use Rattle.dictionary.specs.Transfers.{is_text_of, transfer_uid};
ghost use Rattle.negotiate.specs.TitleOrder.{title_order};

use arrayvec::ArrayVec;
use dictionary::{Transfer, storage_class};
use element::{AeTitle, Uid};
use std::cmp::Ordering;

/// The greatest number of called titles that are accepted besides the receiver's own.
pub const MOST_ALSO: usize = 15;

/// The greatest number of additional storage classes that can be named.
pub const MOST_NAMED: usize = 64;

/// The greatest number of additional storage classes: those that are named, and the 177 of the
/// standard.
const MOST_FURTHER: usize = MOST_NAMED + 177;

/// The greatest number of additional transfer syntaxes: those of the dictionary that encapsulate
/// Pixel Data.
const MOST_TRANSFERS: usize = 24;

/// The settings of the receiver: who may associate with it, and what it accepts.
#[derive(Drop)]
pub struct Config {
    /// The title of the receiver. A called title must be this one or one that the next two fields
    /// accept.
    pub ae: AeTitle,
    /// Further called titles that are accepted.
    pub also: ArrayVec<AeTitle, MOST_ALSO>,
    /// Whether any called title is accepted.
    pub any_called: bool,
    /// The calling titles that are accepted, in order; without any, every title is accepted.
    callers: Option<Vec<AeTitle>>,
    /// The maximum length in bytes of a P-DATA-TF PDU that the receiver accepts and announces
    /// (PS3.8 annex D.1); at least 1024.
    pub max_pdu: u32,
    /// The maximum length in bytes of a data set that the receiver accepts; from 1024 to 2^48.
    pub max_data: u64,
    /// Whether every storage class of the standard is accepted (PS3.4 Table B.5-1, and the retired
    /// ones of PS3.6 annex A), not only those of the dictionary.
    pub all_storage: bool,
    /// Additional storage classes that are accepted, by the text of their UIDs.
    pub named: ArrayVec<ArrayVec<u8, 64>, MOST_NAMED>,
    /// Additional transfer syntaxes that are accepted, besides Explicit and Implicit VR Little
    /// Endian.
    pub transfers: ArrayVec<Transfer, MOST_TRANSFERS>,
    pub ghost least_pdu: { 1024 ≤ max_pdu },
    pub ghost least_data: { 1024 ≤ max_data },
    pub ghost most_data: { max_data ≤ 2 ^ 48 },
    pub ghost few_named: { array_vec_len named ≤ 64 },
    pub ghost few_transfers: { array_vec_len transfers ≤ 24 },
    pub ghost ordered: { IfSome callers (λ titles. IsSorted title_order titles.items) } by { Prim.hlevel props },
}

/// Compares titles by their texts without leading and trailing spaces.
fn by_text(one: &AeTitle, other: &AeTitle) -> Ordering
    ensures { result ≡ title_order one.now other.now }
{
    one.trimmed().cmp(other.trimmed())
}

/// Copies a text.
fn text_of(bytes: &[u8]) -> ArrayVec<u8, 64>
    requires { length bytes.now ≤ 64 }
    ensures { result.items ≡ bytes.now }
{
    let mut text = ArrayVec::new();
    // They fit, by the contract.
    let _ = text.try_extend_from_slice(bytes);
    text
}

/// Copies the texts of UIDs.
fn texts_of(uids: &[Uid]) -> ArrayVec<ArrayVec<u8, 64>, MOST_NAMED>
    requires few { length uids.now ≤ 64 }
    ensures texts { map (λ t. t.items) result.items ≡ uids.now }
    ensures few { array_vec_len result ≤ 64 }
{
    let mut texts = ArrayVec::new();
    for uid in uids {
        // By the contract of `len`, the text fits.
        let _ = uid.len();
        texts.push(text_of(uid.as_bytes()));
    }
    texts
}

/// Copies a list of transfer syntaxes.
fn copied_transfers(transfers: &[Transfer]) -> ArrayVec<Transfer, MOST_TRANSFERS>
    requires few { length transfers.now ≤ 24 }
    ensures transfers { result.items ≡ transfers.now }
    ensures few { array_vec_len result ≤ 24 }
{
    let mut copies = ArrayVec::new();
    // They fit, by `few`.
    let _ = copies.try_extend_from_slice(transfers);
    copies
}

/// Returns whether the list has this transfer syntax.
fn is_among(transfers: &[Transfer], transfer: Transfer) -> bool
    ensures { result ≡ list_any (is_text_of (transfer_uid transfer)) transfers.now }
{
    transfers.iter().any(|other| other.uid() == transfer.uid())
}

impl Config {
    ghost use Rattle.std.specs.Prelude.{◌++◌, ◌∷◌, Some};
    ghost use Rattle.std.specs.List.Sorted.{IsPermutation};
    ghost use Rattle.negotiate.specs.Answer.{may_call};
    ghost use Rattle.negotiate.specs.Contexts.{is_allowed};
    ghost use Rattle.negotiate.specs.ContextRows.{index_of};
    ghost use Rattle.negotiate.specs.Settings.{registered, settings_by_default, settings_of};

    /// The default of `max_pdu`.
    pub const DEFAULT_MAX_PDU: u32 = 16384;

    /// The default of `max_data`, 2^40.
    pub const DEFAULT_MAX_DATA: u64 = 1_099_511_627_776;

    /// Creates the settings of a receiver that accepts any calling title.
    pub fn new(ae: AeTitle, max_pdu: u32, max_data: u64) -> Config
        requires least_pdu { 1024 ≤ max_pdu }
        requires least_data { 1024 ≤ max_data }
        requires most_data { max_data ≤ 2 ^ 48 }
        ensures { settings_of result ≡ settings_by_default ae.0 max_pdu max_data }
    {
        Config {
            ae,
            also: ArrayVec::new(),
            any_called: false,
            callers: None,
            max_pdu,
            max_data,
            all_storage: false,
            named: ArrayVec::new(),
            transfers: ArrayVec::new(),
        }
    }

    /// Returns the settings with only these calling titles accepted, or all if there are none.
    pub fn with_callers(mut self, mut callers: Vec<AeTitle>) -> Config
        ensures callers { IsPermutation (map (λ t. t.0) callers.items) (settings_of result).callers }
        ensures others { settings_of result ≡ record (settings_of self) { callers = (settings_of result).callers } }
    {
        callers.sort_unstable_by(by_text);
        self.callers = Some(callers);
        self
    }

    /// Returns the settings with these called titles accepted besides the receiver's own, or all
    /// with `any_called`.
    pub fn with_called(mut self, also: ArrayVec<AeTitle, MOST_ALSO>, any_called: bool) -> Config
        ensures { settings_of result ≡ record (settings_of self) { called = self.ae.0 ∷ map (λ t. t.0) also.items; any_called = any_called } }
    {
        self.also = also;
        self.any_called = any_called;
        self
    }

    /// Returns the settings with these storage classes accepted besides the dictionary's own: those
    /// that are named, and with `all_storage` all of the standard's table.
    pub fn with_storage(mut self, all_storage: bool, named: &[Uid]) -> Config
        requires few { length named.now ≤ 64 }
        ensures { settings_of result ≡ record (settings_of self) { additional = record { classes = named.now ++ registered all_storage; transfers = self.transfers.items } } }
    {
        self.all_storage = all_storage;
        self.named = texts_of(named);
        self
    }

    /// Returns the settings with these transfer syntaxes accepted besides Explicit and Implicit VR
    /// Little Endian.
    pub fn with_transfers(mut self, transfers: &[Transfer]) -> Config
        requires few { length transfers.now ≤ 24 }
        ensures { settings_of result ≡ record (settings_of self) { additional = record (settings_of self).additional { transfers = transfers.now } } }
    {
        self.transfers = copied_transfers(transfers);
        self
    }

    /// Returns the calling titles that are accepted, in the order of their texts; without any, all
    /// are.
    pub fn callers(&self) -> &[AeTitle]
        ensures callers { map (λ t. t.0) result.now ≡ (settings_of self.now).callers }
        ensures ordered { IsSorted title_order result.now }
    {
        match &self.callers {
            Some(callers) => callers.as_slice(),
            None => &[],
        }
    }

    /// Returns whether an application entity with this title may call.
    pub(crate) fn may_call(&self, calling: AeTitle) -> bool
        ensures { result ≡ may_call (settings_of self.now).callers calling.0 }
    {
        let callers = self.callers();
        callers.is_empty()
            || callers
                .binary_search_by(|title| by_text(title, &calling))
                .is_ok()
    }

    /// Returns whether a transfer syntax is accepted.
    pub(crate) fn accepts(&self, transfer: Transfer) -> bool
        ensures { result ≡ is_allowed (settings_of self.now).additional.transfers (Some transfer) }
    {
        !transfer.is_encapsulated() || is_among(self.transfers.as_slice(), transfer)
    }

    /// Returns the text of the additional storage class with this index, named ones first, or
    /// `None`.
    pub(crate) fn additional(&self, index: usize) -> Option<&[u8]>
        ensures { option_map (λ u. u.now) result ≡ slice_get (settings_of self.now).additional.classes index }
    {
        let named = self.named.as_slice();
        if index < named.len() {
            return Some(named[index].as_slice());
        }
        if !self.all_storage {
            return None;
        }
        match storage_class(index - named.len()) {
            Some(class) => Some(class.uid),
            None => None,
        }
    }

    /// Returns the index of an additional storage class, or `None` if it is not accepted.
    pub(crate) fn class_index(&self, uid: &Uid) -> Option<u8>
        ensures { result ≡ index_of (settings_of self.now).additional.classes uid.now }
    {
        for index in 0..MOST_FURTHER {
            match self.additional(index) {
                Some(text) => {
                    if text == uid.as_bytes() {
                        return Some(index as u8);
                    }
                }
                None => return None,
            }
        }
        None
    }
}
