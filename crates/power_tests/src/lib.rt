//! Stores over a disk in memory that loses power, fails, writes partially and is interrupted: what
//! was promised of them still holds.
#![tactic(auto)]

#[cfg(test)]
mod power;
