//! Test cases and external vectors of PDUs and messages, on the public calls of `pdu`, `acceptor`,
//! `negotiate` and `dimse`.
#![tactic(auto)]

#[cfg(test)]
mod acceptor_tests;
#[cfg(test)]
mod counting_wire;
#[cfg(test)]
mod deframer_tests;
#[cfg(test)]
mod dimse_tests;
#[cfg(test)]
mod join_tests;
#[cfg(test)]
mod pdu_tests;
#[cfg(test)]
mod request_tests;
