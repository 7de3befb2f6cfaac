//! Counts the files that were arranged.
ghost use Rattle.std.specs.Prelude.{◌≡◌};
ghost use Rattle.arrange_command.specs.Arranged.{with_placed};

use crate::arranging::ArrangeOptions;
use crate::placing::Placed;
use inspection::OutputForm;
use keyed_files::Tally;
use std::io::{self, Write};

/// The numbers of files that were put at their path, passed over, and renamed with a number.
#[derive(Clone, Copy)]
pub(crate) struct Counts {
    put: u64,
    passed_over: u64,
    renamed: u64,
}

impl Counts {
    /// Creates counts of zero.
    pub fn new() -> Counts {
        Counts {
            put: 0,
            passed_over: 0,
            renamed: 0,
        }
    }

    /// Counts a file by what was done with it.
    pub fn add(&mut self, placed: Placed)
        ensures { self.new ≡ with_placed placed self.old }
    {
        match placed {
            Placed::Put => self.put = self.put.saturating_add(1),
            Placed::PassedOver => self.passed_over = self.passed_over.saturating_add(1),
            Placed::Renamed => self.renamed = self.renamed.saturating_add(1),
        }
    }

    /// Writes the counts and the number of files left out: as a line, or as the last members of a
    /// JSON object.
    pub fn write<O: Write>(
        &self,
        options: ArrangeOptions<'_>,
        tally: Tally,
        out: &mut O,
    ) -> io::Result<()> {
        let Counts {
            put,
            passed_over,
            renamed,
        } = *self;
        let (done, omitted) = (
            if options.copy { "copied" } else { "linked" },
            tally.omitted,
        );
        if options.form == OutputForm::Lines {
            return writeln!(
                out,
                "{done} {put} passed over {passed_over} renamed {renamed} left out {omitted}"
            );
        }
        write!(out, "\"{done}\":{put},\"passed_over\":{passed_over},")?;
        writeln!(out, "\"renamed\":{renamed},\"left_out\":{omitted}}}")
    }
}
