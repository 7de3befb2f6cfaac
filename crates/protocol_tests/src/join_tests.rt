//! Messages joined from fragments, on the public calls of `dimse`.

use crate::dimse_tests::{ECHO, STORE};
use dimse::{DimseFault, Join, Joined};
use pdu::PdvHead;

/// A presentation data value: its context, whether it is of a command set, whether it is the last
/// fragment, and the fragment; and the result of joining it, or the number of the fault.
type Step<'a> = (u8, bool, bool, &'a [u8], Result<Joined, u8>);

/// Feeds a presentation data value to the join, its fragment of at most 1,000 bytes in two parts.
fn join_fragment(
    join: &mut Join<256>,
    context: u8,
    command: bool,
    last: bool,
    fragment: &[u8],
) -> Result<Joined, DimseFault> {
    let fragment = &fragment[..fragment.len().min(1000)];
    let head = PdvHead {
        length: fragment.len() as u32 + 2,
        context,
        command,
        last,
    };
    match join.head(&head) {
        Ok(()) => {}
        Err(fault) => return Err(fault),
    }
    let (front, back) = fragment.split_at(fragment.len() / 2);
    join.take(front);
    join.take(back);
    let (joined, _) = join.end()?;
    Ok(joined)
}

/// Returns whether each step has its expected result.
fn are_joined(join: &mut Join<256>, steps: &[Step]) -> bool {
    for (context, command, last, fragment, expected) in steps {
        let joined = join_fragment(join, *context, *command, *last, fragment);
        let found = match joined {
            Ok(joined) => Ok(joined),
            Err(fault) => Err(fault.number()),
        };
        if found != *expected {
            return false;
        }
    }
    true
}

/// Returns whether each step has its expected result, and these bytes of the command set are
/// buffered afterwards.
fn joins(join: &mut Join<256>, steps: &[Step], held: &[u8]) -> bool {
    are_joined(join, steps) && join.command() == held
}

#[test]
fn an_echo_in_two_fragments(rt: HostRuntime) {
    let mut join = Join::<256>::new();
    let (front, back) = ECHO.as_slice().split_at(10);
    let steps = [
        (1, true, false, front, Ok(Joined::More)),
        (3, false, true, back, Err(44)),
        (1, false, true, back, Err(43)),
        (1, true, true, &[0; 247], Err(40)),
    ];
    assert!(rt; joins(&mut join, &steps, front));
    let last = (1, true, true, back, Ok(Joined::Message));
    assert!(rt; joins(&mut join, &[last], &ECHO));
    join.clear();
    assert!(rt; join.command().is_empty());
}

#[test]
fn a_store_with_its_data_set(rt: HostRuntime) {
    let mut join = Join::<256>::new();
    let (front, back) = STORE.as_slice().split_at(99);
    let steps = [
        (5, true, false, front, Ok(Joined::More)),
        (5, true, true, back, Ok(Joined::DataDue)),
        (5, true, true, &ECHO, Err(43)),
        (7, true, true, &ECHO, Err(44)),
        (5, false, false, &[8; 1000], Ok(Joined::More)),
        (5, false, false, &[], Ok(Joined::More)),
        (5, false, true, &[0, 24], Ok(Joined::Message)),
    ];
    assert!(rt; joins(&mut join, &steps, &STORE));
    // The next message starts without `clear`, in another context.
    let next: Step = (9, true, true, &ECHO, Ok(Joined::Message));
    assert!(rt; joins(&mut join, &[next], &ECHO));
}

#[test]
fn a_command_set_that_is_no_command(rt: HostRuntime) {
    let (front, _kind) = ECHO.as_slice().split_at(66);
    let steps: [Step; 4] = [
        (1, false, true, &ECHO, Err(43)),
        (1, true, true, &[0; 257], Err(40)),
        (1, true, true, front, Err(41)),
        (3, true, true, &ECHO, Err(44)),
    ];
    assert!(rt; joins(&mut Join::<256>::new(), &steps, front));
}
