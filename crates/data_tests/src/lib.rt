//! Test cases and external vectors of data sets, files, values and directories, on the public calls
//! of `element`, `dictionary`, `sequence`, `part10`, `folder_filing`, `values`, `inspection`,
//! `dicomdir` and `dicomdir_writing`. They are in a crate of their own because a crate with tests
//! is proved twice.
#![tactic(auto)]

#[cfg(test)]
mod dicomdir_descriptions;
#[cfg(test)]
mod dicomdir_faults;
#[cfg(test)]
mod dicomdir_memory;
#[cfg(test)]
mod dicomdir_readers;
#[cfg(test)]
mod dicomdir_row_of;
#[cfg(test)]
mod dicomdir_rows;
#[cfg(test)]
mod dicomdir_sizes;
#[cfg(test)]
mod dicomdir_tests;
#[cfg(test)]
mod dicomdir_writers;
#[cfg(test)]
mod dictionary_tests;
#[cfg(test)]
mod element_tests;
#[cfg(test)]
mod files;
#[cfg(test)]
mod folder_filing_numbers;
#[cfg(test)]
mod folder_filing_quarantine;
#[cfg(test)]
mod folder_filing_tests;
#[cfg(test)]
mod images;
#[cfg(test)]
mod inspection_tests;
#[cfg(test)]
mod part10_tests;
#[cfg(test)]
mod repertoire_tests;
#[cfg(test)]
mod sequence_faults;
#[cfg(test)]
mod sequence_fragments;
#[cfg(test)]
mod sequence_tests;
#[cfg(test)]
mod tag_tests;
#[cfg(test)]
mod value_sizes;
#[cfg(test)]
mod value_tests;
#[cfg(test)]
mod walks;
