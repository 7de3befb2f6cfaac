//! Test cases of texts that the program prints (of its errors, of faults, and of the status of an
//! association), and of the greatest size of a directory.
#![tactic(auto)]

#[cfg(test)]
mod error_tests;
#[cfg(test)]
mod fault_tests;
#[cfg(test)]
mod index_sizes;
