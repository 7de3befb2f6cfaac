//! Tests over devices that fail or are refused memory: the promises hold after a failed call or
//! without memory. Also many and large stores, which reach no limit.
#![tactic(auto)]

#[cfg(test)]
mod filings;
#[cfg(test)]
mod folder_failures;
#[cfg(test)]
mod folder_links;
#[cfg(test)]
mod large_store;
#[cfg(test)]
mod links;
#[cfg(test)]
mod many_stores;
#[cfg(test)]
mod memory_failures;
#[cfg(test)]
mod read_failures;
#[cfg(test)]
mod replaced_folder;
#[cfg(test)]
mod runtimes;
#[cfg(test)]
mod send_failures;
#[cfg(test)]
mod sources;
#[cfg(test)]
mod still;
#[cfg(test)]
mod store_failures;
#[cfg(test)]
mod timer_tests;
#[cfg(test)]
mod two_stores;
#[cfg(test)]
mod wire_failures;
#[cfg(test)]
mod wires;
