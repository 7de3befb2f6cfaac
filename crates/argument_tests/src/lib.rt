//! Test cases of the command line on the public calls of `arguments`: each setting, and which
//! arguments are refused.
#![tactic(auto)]

#[cfg(test)]
mod asked;
#[cfg(test)]
mod at_once_tests;
#[cfg(test)]
mod caller_tests;
#[cfg(test)]
mod class_tests;
#[cfg(test)]
mod inspection_tests;
#[cfg(test)]
mod settings_tests;
#[cfg(test)]
mod transfer_tests;
