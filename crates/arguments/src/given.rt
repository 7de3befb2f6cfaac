//! The arguments of a command, given or by default.
ghost use Rattle.std.specs.Prelude.{◌≡◌, ◌≤◌, IfOk, Some, length, map, option_map};
ghost use Rattle.clap.specs.Matches.{found_of};
ghost use Rattle.clap.specs.Walk.{count_of, first_of, rows_of};
ghost use Rattle.arguments.specs.CommandLine.{is_given, values_of};

use clap::ArgMatches;
use failures::WordsError;
use std::alloc::Global;
use std::marker::Model;

/// The arguments of a command, given or by default.
#[derive(Debug, Drop)]
pub struct Given<'a> {
    matches: ArgMatches<'a>,
}

impl<'a> Model for Given<'a> {
    ghost use Rattle.std.specs.Prelude.{List};
    ghost use Rattle.clap.specs.Matches.{found_of};
    ghost use Rattle.clap.specs.Walk.{Row, rows_of};

    ghost Value = { List Row };

    ghost view = { λ g. rows_of (found_of g.matches) };
}

impl<'a> Given<'a> {
    /// Returns the arguments that these matches have.
    pub(crate) fn new(matches: ArgMatches<'a>) -> Given<'a>
        ensures { result ≡ rows_of (found_of matches.entry) }
    {
        Given { matches }
    }

    /// Returns the first value of an argument, or `None` if it has none.
    pub fn get(&self, id: &str) -> Option<&'a str>
        ensures { first_of id.now self.now ≡ option_map (λ t. t.now) result }
    {
        self.matches.get_str(id)
    }

    /// Returns the first value of an argument that is required or has a default.
    pub fn text(&self, alloc: Global, id: &str) -> Result<&'a str, WordsError>
        ensures { IfOk result (λ t. first_of id.now self.now ≡ Some t.now) }
    {
        match self.get(id) {
            Some(text) => Ok(text),
            None => { Err(WordsError::refused(alloc, format_args!("--{id} is missing"))) }
        }
    }

    /// Returns whether an option without a value is given.
    pub fn flag(&self, id: &str) -> bool
        ensures { result ≡ is_given self.now id.now }
    {
        match self.get(id) {
            Some(text) => text == "true",
            None => false,
        }
    }

    /// Returns how often an option without a value is given.
    pub fn count(&self, id: &str) -> u8
        ensures { result ≡ count_of id.now self.now }
    {
        self.matches.get_count(id)
    }

    /// Returns the values of an argument that may be repeated.
    pub fn all(&self, id: &str) -> &[&'a str]
        ensures { map (λ t. t.now) result.now ≡ values_of self.now id.now }
    {
        self.matches.get_strs(id).unwrap_or_default()
    }

    /// Returns the values of an option that may be given `most` times. Fails if it is given more
    /// often.
    pub fn few(&self, alloc: Global, id: &str, most: usize) -> Result<&[&'a str], WordsError>
        ensures values { IfOk result (λ v. map (λ t. t.now) v.now ≡ values_of self.now id.now) }
        ensures few { IfOk result (λ v. length v.now ≤ most) }
    {
        let values = self.all(id);
        if values.len() > most {
            let reason = format_args!("--{id} may be given {most} times at most");
            return Err(WordsError::refused(alloc, reason));
        }
        Ok(values)
    }
}
