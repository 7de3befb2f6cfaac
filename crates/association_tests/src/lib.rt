//! Test cases of associations and stores on the public calls of `engine`: what is sent, buffered
//! and filed, in chunks of any size, in memory and over a folder.
#![tactic(auto)]

#[cfg(test)]
mod compressed_tests;
#[cfg(test)]
mod decision_tests;
#[cfg(test)]
mod draft_tests;
#[cfg(test)]
mod folder_tests;
#[cfg(test)]
mod length_tests;
#[cfg(test)]
mod many_contexts;
#[cfg(test)]
mod message_tests;
#[cfg(test)]
mod pieces;
#[cfg(test)]
mod readme_tests;
#[cfg(test)]
mod row;
#[cfg(test)]
mod run_tests;
#[cfg(test)]
mod sender_tests;
#[cfg(test)]
mod sets;
#[cfg(test)]
mod store_tests;
#[cfg(test)]
mod two_filings;
