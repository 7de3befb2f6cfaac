//! Several connections over test sockets, interleaved by generated turns; and test cases of the
//! log: the bytes of a connection and its log lines.
#![tactic(auto)]

#[cfg(test)]
mod admitting_tests;
#[cfg(test)]
mod association_lines;
#[cfg(test)]
mod chance;
#[cfg(test)]
mod give_up_tests;
#[cfg(test)]
mod message_lines;
#[cfg(test)]
mod metrics_tests;
#[cfg(test)]
mod mixed_tests;
#[cfg(test)]
mod peer;
#[cfg(test)]
mod play;
#[cfg(test)]
mod scripted;
#[cfg(test)]
mod shown;
#[cfg(test)]
mod store_lines;
#[cfg(test)]
mod streams;
#[cfg(test)]
mod time_tests;
#[cfg(test)]
mod timer_tests;
#[cfg(test)]
mod turn_tests;
#[cfg(test)]
mod waiting_filing;
#[cfg(test)]
mod waiting_tests;
#[cfg(test)]
mod words;
