//! The text of the metrics, when it is due, and its file.
use crate::scripted::after;
use metrics::{CountedEnd, CountedStatus, Counters, Figures, MetricsFile, Pace, WriteReport};
use std::fs;
use std::test::Fail;
use std::time::{Duration, Instant};

/// The metrics of a receiver whose counters all differ, in the text format of Prometheus.
const TEXT: &str = "# HELP dcmbox_info The version of the program.
# TYPE dcmbox_info gauge
dcmbox_info{version=\"1.2.3\"} 1
# HELP dcmbox_start_time_seconds When the program began, in seconds since 1970.
# TYPE dcmbox_start_time_seconds gauge
dcmbox_start_time_seconds 1700000000
# HELP dcmbox_open_connections Connections that have a place.
# TYPE dcmbox_open_connections gauge
dcmbox_open_connections 3
# HELP dcmbox_associations_total Associations that have ended, by how.
# TYPE dcmbox_associations_total counter
dcmbox_associations_total{end=\"released\"} 1
dcmbox_associations_total{end=\"rejected\"} 2
dcmbox_associations_total{end=\"aborted_by_peer\"} 3
dcmbox_associations_total{end=\"aborted_by_box\"} 4
dcmbox_associations_total{end=\"closed_by_peer\"} 5
dcmbox_associations_total{end=\"artim_expired\"} 6
dcmbox_associations_total{end=\"idle\"} 7
dcmbox_associations_total{end=\"too_long\"} 8
dcmbox_associations_total{end=\"stopping\"} 9
dcmbox_associations_total{end=\"connection_failed\"} 10
dcmbox_associations_total{end=\"file_lost\"} 11
dcmbox_associations_total{end=\"unknown\"} 12
# HELP dcmbox_stores_total Stores by the status of their replies; none is of those without a reply.
# TYPE dcmbox_stores_total counter
dcmbox_stores_total{status=\"0000\"} 1
dcmbox_stores_total{status=\"0122\"} 2
dcmbox_stores_total{status=\"A700\"} 3
dcmbox_stores_total{status=\"A900\"} 4
dcmbox_stores_total{status=\"C000\"} 5
dcmbox_stores_total{status=\"other\"} 6
dcmbox_stores_total{status=\"none\"} 70
# HELP dcmbox_received_bytes_total Bytes that associations received that have ended.
# TYPE dcmbox_received_bytes_total counter
dcmbox_received_bytes_total 7800
# HELP dcmbox_refused_contexts_total Presentation contexts that were refused, of accepted associations.
# TYPE dcmbox_refused_contexts_total counter
dcmbox_refused_contexts_total 80
";

/// Returns counters that all differ: the first way to end occurred once, the second twice, and so
/// on.
fn counted() -> Counters {
    let mut counters = Counters::new();
    let mut times: u64 = 0;
    for (end, _) in CountedEnd::ALL {
        times = times.saturating_add(1);
        for _ in 0..times {
            counters.end(end, 100);
        }
    }
    times = 0;
    for (status, _) in CountedStatus::ALL {
        times = times.saturating_add(1);
        for _ in 0..times {
            counters.answer(status);
        }
    }
    counters.leave_unanswered(70);
    counters.refuse_contexts(80);
    counters
}

#[test]
fn text_of_prometheus(rt: HostRuntime) -> Result<(), Fail> {
    let figures = Figures {
        version: "1.2.3",
        started: Some(1_700_000_000),
        open: 3,
        counters: counted(),
    };
    let text = format!(in rt.alloc(); "{figures}")?;
    assert!(rt; text.as_str() == TEXT);
    Ok(())
}

#[test]
fn a_clock_that_fails(rt: HostRuntime) -> Result<(), Fail> {
    let figures = Figures {
        version: "1.2.3",
        started: None,
        open: 0,
        counters: Counters::new(),
    };
    let text = format!(in rt.alloc(); "{figures}")?;
    assert!(rt;
        !text.as_str().contains("start_time") && text.as_str().contains("open_connections 0\n")
    );
    Ok(())
}

#[test]
fn counters_stop_at_the_greatest_number(rt: HostRuntime) {
    let mut counters = Counters::new();
    counters.leave_unanswered(u64::MAX);
    counters.leave_unanswered(2);
    counters.end(CountedEnd::Idle, u64::MAX);
    counters.end(CountedEnd::Idle, 2);
    assert!(rt; counters.unanswered == u64::MAX && counters.received == u64::MAX);
    counters.refuse_contexts(u64::MAX);
    counters.refuse_contexts(1);
    assert!(rt; counters.refused_contexts == u64::MAX);
    assert!(rt; counters.ended(CountedEnd::Idle) == 2);
}

#[test]
fn due_after_a_change_and_each_minute(rt: HostRuntime) -> Result<(), Fail> {
    let begin = Instant::now(&rt)?;
    let mut pace = Pace::new();
    assert!(rt; pace.is_due(begin));
    pace.tried(begin, true);
    assert!(rt; !pace.is_due(after(begin, 59)) && pace.is_due(after(begin, 60)));
    pace.change();
    assert!(rt; !pace.is_due(after(begin, 4)) && pace.is_due(after(begin, 5)));
    pace.tried(after(begin, 5), false);
    assert!(rt; !pace.is_due(after(begin, 9)) && pace.is_due(after(begin, 10)));
    assert!(rt; pace.remaining(after(begin, 7)) == Duration::from_secs(3));
    Ok(())
}

#[test]
fn a_file_is_replaced(rt: HostRuntime) -> Result<(), Fail> {
    fs::create_dir(&rt, "metrics")?;
    let file = MetricsFile::new(&rt, rt.alloc(), "metrics/box.prom", "1.2.3")?;
    let now = Instant::now(&rt)?;
    assert!(rt; matches!(file.write_due(&rt, now), WriteReport::Nothing));
    let first = fs::read_to_string(&rt, "metrics/box.prom")?;
    assert!(rt;
        first
            .as_str()
            .contains("dcmbox_associations_total{end=\"released\"} 0\n")
    );
    file.count_end(CountedEnd::Released, 7);
    file.count_answer(CountedStatus::Success);
    file.count_unanswered(2);
    file.set_open(4);
    assert!(rt; file.remaining(now) == Duration::from_secs(5));
    assert!(rt; matches!(file.write_due(&rt, after(now, 4)), WriteReport::Nothing));
    assert!(rt; fs::read_to_string(&rt, "metrics/box.prom")?.as_str() == first.as_str());
    assert!(rt; matches!(file.write_due(&rt, after(now, 5)), WriteReport::Nothing));
    let text = fs::read_to_string(&rt, "metrics/box.prom")?;
    let text = text.as_str();
    assert!(rt; text.contains("end=\"released\"} 1\n") && text.contains("status=\"0000\"} 1\n"));
    assert!(rt; text.contains("status=\"none\"} 2\n") && text.contains("open_connections 4\n"));
    assert!(rt; text.contains("received_bytes_total 7\n"));
    assert!(rt; !fs::exists(&rt, "metrics/box.prom.new")?);
    Ok(())
}

#[test]
fn a_failure_is_reported_once(rt: HostRuntime) -> Result<(), Fail> {
    let file = MetricsFile::new(&rt, rt.alloc(), "later/box.prom", "1.2.3")?;
    assert!(rt; matches!(file.write(&rt), WriteReport::Fails(_)));
    assert!(rt; matches!(file.write(&rt), WriteReport::Nothing));
    fs::write(&rt, "later", b"")?;
    assert!(rt; matches!(file.write(&rt), WriteReport::Fails(_)));
    fs::remove_file(&rt, "later")?;
    fs::create_dir(&rt, "later")?;
    assert!(rt; matches!(file.write(&rt), WriteReport::Works));
    assert!(rt; matches!(file.write(&rt), WriteReport::Nothing));
    Ok(())
}
