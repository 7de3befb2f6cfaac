//! Reads the transfer syntaxes given with options.
ghost use Rattle.std.specs.Prelude.{◌≡◌, ◌≤◌, IfOk, Some, codes, length, map};
ghost use Rattle.dictionary.specs.Transfers.{transfer_of};
ghost use Rattle.negotiate.specs.Settings.{settings_of};
ghost use Rattle.arguments.specs.Asked.{AsksFor};
ghost use Rattle.arguments.specs.CommandLine.{is_given, values_of};

use crate::given::Given;
use crate::words::MOST_SYNTAXES;
use arrayvec::ArrayVec;
use dictionary::Transfer;
use failures::WordsError;
use negotiate::Config;
use std::alloc::Global;
use std::fmt;

/// Prints the known transfer syntaxes, each in a line of its own after a line break.
#[derive(Drop)]
struct Known;

impl fmt::Display for Known {
    fn fmt<W: fmt::Write>(&self, f: &mut fmt::Formatter<W>) -> fmt::Result {
        for transfer in &Transfer::ALL {
            f.write_str("\n  ")?;
            for byte in transfer.uid() {
                f.write_char(char::from(*byte))?;
            }
            write!(f, " {}", transfer.keyword())?;
        }
        Ok(())
    }
}

/// Reads the UID of a transfer syntax. Fails if the transfer syntax is not known.
fn transfer(alloc: Global, text: &str) -> Result<Transfer, WordsError>
    ensures { IfOk result (λ t. transfer_of text.now ≡ Some t) }
{
    match Transfer::of(text.as_bytes()) {
        Some(transfer) => Ok(transfer),
        None => {
            let known = Known;
            let reason = format_args!(
                "--transfer-syntax takes the UID of a known transfer syntax, \
                not '{text}'; these are known:{known}"
            );
            Err(WordsError::refused(alloc, reason))
        }
    }
}

/// Reads the named transfer syntaxes.
fn transfers_of(
    alloc: Global,
    syntaxes: &[&str],
) -> Result<ArrayVec<Transfer, MOST_SYNTAXES>, WordsError>
    requires few { length syntaxes.now ≤ 16 }
    ensures read { IfOk result (λ transfers. map (λ t. transfer_of t.now) syntaxes.now ≡ map Some transfers.items) }
{
    let mut transfers = ArrayVec::new();
    for syntax in syntaxes {
        transfers.push(transfer(alloc, *syntax)?);
    }
    Ok(transfers)
}

/// Returns the settings with transfer syntaxes added: every one in which Pixel Data may be
/// encapsulated, if all are requested, else those that are named.
pub(crate) fn accepting_transfers(
    alloc: Global,
    config: Config,
    given: &Given,
) -> Result<Config, WordsError>
    ensures rest { IfOk result (λ c. settings_of c ≡ record (settings_of config) { additional = record (settings_of config).additional { transfers = (settings_of c).additional.transfers } }) }
    ensures transfers { IfOk result (λ c. AsksFor (is_given given.now (codes "all-syntaxes")) (values_of given.now (codes "transfer-syntax")) (settings_of c).additional.transfers) }
{
    let syntaxes = given.few(alloc, "transfer-syntax", MOST_SYNTAXES)?;
    let named = transfers_of(alloc, syntaxes)?;
    if given.flag("all-syntaxes") {
        return Ok(config.with_transfers(Transfer::encapsulated()));
    }
    Ok(config.with_transfers(named.as_slice()))
}
