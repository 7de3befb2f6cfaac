//! Prints the numbers in the text form of Prometheus.
use crate::counters::Counters;
use crate::ends::CountedEnd;
use crate::statuses::CountedStatus;
use std::fmt;

/// What the metrics file has, printed in the text form of Prometheus (exposition format, version
/// 0.0.4).
#[derive(Clone, Copy)]
pub struct Figures<'a> {
    pub version: &'a str,
    /// When the program started, in seconds since 1970, if its clock could be read.
    pub started: Option<u64>,
    /// How many connections are open.
    pub open: u64,
    pub counters: Counters,
}

/// Writes the head of a metric: its name, its type and a sentence about it.
fn write_head<W: fmt::Write>(
    f: &mut fmt::Formatter<W>,
    name: &str,
    kind: &str,
    help: &str,
) -> fmt::Result {
    write!(f, "# HELP {name} {help}\n# TYPE {name} {kind}\n")
}

impl Figures<'_> {
    /// Writes the version of the program, its start, and how many connections are open.
    fn write_state<W: fmt::Write>(&self, f: &mut fmt::Formatter<W>) -> fmt::Result {
        write_head(f, "dcmbox_info", "gauge", "The version of the program.")?;
        writeln!(f, "dcmbox_info{{version=\"{}\"}} 1", self.version)?;
        if let Some(started) = self.started {
            let name = "dcmbox_start_time_seconds";
            write_head(
                f,
                name,
                "gauge",
                "When the program began, in seconds since 1970.",
            )?;
            writeln!(f, "{name} {started}")?;
        }
        let name = "dcmbox_open_connections";
        write_head(f, name, "gauge", "Connections that have a place.")?;
        writeln!(f, "{name} {}", self.open)
    }

    /// Writes how many associations ended in each way.
    fn write_ends<W: fmt::Write>(&self, f: &mut fmt::Formatter<W>) -> fmt::Result {
        let name = "dcmbox_associations_total";
        write_head(f, name, "counter", "Associations that have ended, by how.")?;
        for (end, label) in CountedEnd::ALL {
            let count = self.counters.ended(end);
            writeln!(f, "{name}{{end=\"{label}\"}} {count}")?;
        }
        Ok(())
    }

    /// Writes how many C-STOREs were answered with each status, and how many not at all.
    fn write_stores<W: fmt::Write>(&self, f: &mut fmt::Formatter<W>) -> fmt::Result {
        let name = "dcmbox_stores_total";
        let help = "Stores by the status of their replies; none is of those without a reply.";
        write_head(f, name, "counter", help)?;
        for (status, label) in CountedStatus::ALL {
            let count = self.counters.answered(status);
            writeln!(f, "{name}{{status=\"{label}\"}} {count}")?;
        }
        writeln!(f, "{name}{{status=\"none\"}} {}", self.counters.unanswered)
    }
}

impl fmt::Display for Figures<'_> {
    fn fmt<W: fmt::Write>(&self, f: &mut fmt::Formatter<W>) -> fmt::Result {
        self.write_state(f)?;
        self.write_ends(f)?;
        self.write_stores(f)?;
        let name = "dcmbox_received_bytes_total";
        write_head(
            f,
            name,
            "counter",
            "Bytes that associations received that have ended.",
        )?;
        writeln!(f, "{name} {}", self.counters.received)?;
        let name = "dcmbox_refused_contexts_total";
        let help = "Presentation contexts that were refused, of accepted associations.";
        write_head(f, name, "counter", help)?;
        writeln!(f, "{name} {}", self.counters.refused_contexts)
    }
}
