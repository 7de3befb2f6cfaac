//! Lemmas on the state table, each stated as the contract of a function with an empty body.
ghost use Rattle.acceptor.specs.TimerLaws.{AStartIsAnEntry, StartsAreSeen};

/// An action starts the ARTIM timer exactly if it leads to another state and the timer runs in that
/// state (PS3.8 Table 9-10). These are AE-5, AE-6 if it rejects, AE-8, AR-4, AA-1 and AA-8, but not
/// AA-7, which stays in Sta13.
pub fn a_start_is_an_entry()
    ensures { AStartIsAnEntry }
{}

/// If the ARTIM timer runs after some events of one transport connection, they started it exactly
/// if the state changed, because no state is entered twice. So comparing the states is enough to
/// know whether the time must be measured anew.
pub fn starts_are_seen()
    ensures { StartsAreSeen }
{}
