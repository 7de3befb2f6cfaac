//! A disk in memory that loses power, fails, writes partially and is interrupted, and the promises
//! that hold for stores over it.

mod disk;
mod failed_calls;
mod filed;
mod folder;
mod given_names;
mod groups;
mod handles;
mod lives;
mod lost_power;
mod mounted;
mod name;
mod numbers;
mod powered_wire;
mod several;
mod stored;
mod stores;
mod survivors;
mod trouble;
mod two_drafts;
