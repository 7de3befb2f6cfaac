//! The state table.
ghost use Rattle.std.specs.Prelude.{◌≡◌};
ghost use Rattle.acceptor.specs.Effect.{timer, timer_runs, runs_after};
ghost use Rattle.acceptor.specs.Table.{table};

use crate::action::Action;
use crate::event::Event;
use crate::state::State;

/// Returns the action and the next state for an event in this state: the acceptor's part of PS3.8
/// Table 9-10. For any other pair it returns `Action::Nothing` and the same state, in Sta3 and Sta8
/// even for PDUs, as there the local user responds before the next input is read. After each action
/// the ARTIM timer runs exactly if it runs in the next state (see [`State::timer_runs`]).
pub fn act(state: State, event: Event) -> (Action, State)
    ensures table { result ≡ table state event }
    ensures timer { runs_after (timer result.0 result.1) (timer_runs state) ≡ timer_runs result.1 }
{
    use Action::*;
    use Event::*;
    use State::*;
    match (state, event) {
        (Sta1, Connected) => (Ae5, Sta2),
        (Sta2, AcceptableRq) => (Ae6, Sta3),
        (Sta2, UnacceptableRq) => (Ae6, Sta13),
        (Sta2, Ac | Rj | Data | ReleaseRq | ReleaseRp | Invalid) => (Aa1, Sta13),
        (Sta2, Abort | Expired) => (Aa2, Sta1),
        (Sta2, Closed) => (Aa5, Sta1),
        (Sta3, UserAccepts) => (Ae7, Sta6),
        (Sta3, UserRefuses) => (Ae8, Sta13),
        (Sta6, Data) => (Dt2, Sta6),
        (Sta6, ReleaseRq) => (Ar2, Sta8),
        (Sta6, AcceptableRq | UnacceptableRq | Ac | Rj | ReleaseRp | Invalid) => (Aa8, Sta13),
        (Sta6, Abort) => (Aa3, Sta1),
        (Sta6, Closed) => (Aa4, Sta1),
        (Sta6, UserAborts) => (Aa1, Sta13),
        (Sta8, UserReleases) => (Ar4, Sta13),
        (Sta13, Ac | Rj | Data | ReleaseRq | ReleaseRp) => (Aa6, Sta13),
        (Sta13, AcceptableRq | UnacceptableRq | Invalid) => (Aa7, Sta13),
        (Sta13, Abort | Expired) => (Aa2, Sta1),
        (Sta13, Closed) => (Ar5, Sta1),
        (state, _) => (Nothing, state),
    }
}
