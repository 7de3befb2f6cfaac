//! Tests of slots, queue, rate limit and peer numbers.

use admitting::{Admission, Notice, Occupiable, Queue, Slots, Waiter, peer_number};
use std::alloc::Global;
use std::net::{IpAddr, Ipv4Addr, Ipv6Addr};
use std::test::Fail;
use std::time::{Duration, Instant};

/// A place of a test.
#[derive(Clone, Copy)]
struct Place {
    has_connection: bool,
}

impl Occupiable for Place {
    ghost is_occupied = { λ place. place.has_connection };

    fn is_occupied(&self) -> bool {
        self.has_connection
    }
}

const USED: Place = Place {
    has_connection: true,
};

const UNUSED: Place = Place {
    has_connection: false,
};

const OCCUPIED: [Place; 4] = [USED; 4];

/// Returns whether these peers in turn get these admissions, while these places have connections.
fn get(slots: &mut Slots<Global>, rows: &[(u128, Admission)], places: &[Place]) -> bool {
    for (peer, admission) in rows {
        if slots.admit(*peer, places) != *admission {
            return false;
        }
    }
    true
}

#[test]
fn peers_come_and_go(rt: HostRuntime) -> Result<(), Fail> {
    let mut slots = Slots::new(rt.alloc(), 4, 2)?;
    let rows = [
        (7, Admission::Slot(0)),
        (7, Admission::Slot(1)),
        (7, Admission::PeerFull),
        (8, Admission::Slot(2)),
        (9, Admission::Slot(3)),
        (8, Admission::Full),
        (7, Admission::PeerFull),
    ];
    assert!(rt; get(&mut slots, &rows, &OCCUPIED));
    assert!(rt; slots.peer(0) == Some(7) && slots.peer(3) == Some(9) && slots.peer(4).is_none());
    let rows = [(7, Admission::Slot(1))];
    let without_second = [USED, UNUSED, USED, USED];
    assert!(rt; get(&mut slots, &rows, &without_second));
    let rows = [(7, Admission::PeerFull), (9, Admission::Full)];
    assert!(rt; get(&mut slots, &rows, &OCCUPIED));
    Ok(())
}

/// Returns the next connection from the queue, and the index of its slot.
fn next(
    queue: &mut Queue<char, Global>,
    slots: &mut Slots<Global>,
    places: &[Place],
) -> Option<(char, usize)> {
    let (waiter, slot) = queue.admit(slots, places)?;
    Some((waiter.waiting, slot))
}

#[test]
fn peers_wait_in_their_order(rt: HostRuntime) -> Result<(), Fail> {
    let mut slots = Slots::new(rt.alloc(), 3, 1)?;
    let mut queue = Queue::new(rt.alloc(), 4)?;
    assert!(rt; slots.admit(7, &OCCUPIED) == Admission::Slot(0));
    let rows = [(7, 'a', 64), (8, 'b', 65), (7, 'c', 66), (9, 'd', 67)];
    for (peer, waiting, number) in rows {
        assert!(rt;
            queue.push(Waiter {
                peer,
                number,
                waiting
            })
        );
    }
    assert!(rt;
        !queue.push(Waiter {
            peer: 10,
            number: 68,
            waiting: 'e'
        })
    );
    assert!(rt; next(&mut queue, &mut slots, &OCCUPIED) == Some(('b', 1)));
    assert!(rt; next(&mut queue, &mut slots, &OCCUPIED) == Some(('d', 2)));
    assert!(rt; next(&mut queue, &mut slots, &OCCUPIED) == None);
    let without_first = [UNUSED, USED, USED];
    assert!(rt; next(&mut queue, &mut slots, &without_first) == Some(('a', 0)));
    assert!(rt; next(&mut queue, &mut slots, &OCCUPIED) == None && !queue.is_empty());
    assert!(rt; !queue.leave(64) && queue.leave(66) && !queue.leave(66) && queue.is_empty());
    let last = Waiter {
        peer: 7,
        number: 69,
        waiting: 'f',
    };
    assert!(rt; queue.push(last) && !queue.leave(68) && !queue.is_empty());
    queue.clear();
    assert!(rt; queue.is_empty());
    Ok(())
}

#[test]
fn reported_once_a_minute(rt: HostRuntime) -> Result<(), Fail> {
    let begin = Instant::now(&rt)?;
    let mut notice = Notice::new();
    assert!(rt; notice.is_due(begin) && !notice.is_due(after(begin, 59)));
    assert!(rt; notice.is_due(after(begin, 60)) && !notice.is_due(after(begin, 119)));
    assert!(rt; notice.is_due(after(begin, 500)) && !notice.is_due(after(begin, 500)));
    Ok(())
}

/// Returns the peer number of the IPv6 address with these segments.
fn peer_of_segments(s: [u16; 8]) -> u128 {
    peer_number(IpAddr::V6(Ipv6Addr::new(s[0], s[1], s[2], s[3], s[4], s[5], s[6], s[7])))
}

#[test]
fn addresses_of_one_peer(rt: HostRuntime) {
    let four = peer_number(IpAddr::V4(Ipv4Addr::new(10, 0, 0, 7)));
    let mapped = peer_of_segments([0, 0, 0, 0, 0, 0xffff, 0x0a00, 7]);
    let next = peer_of_segments([0, 0, 0, 0, 0, 0xffff, 0x0a00, 8]);
    let six = peer_of_segments([0, 0, 0, 0, 0, 0, 0x0a00, 7]);
    assert!(rt; four == mapped && four != next && four != six);
    let one = peer_of_segments([0x2001, 0xdb8, 0, 1, 0, 0, 0, 1]);
    let same = peer_of_segments([0x2001, 0xdb8, 0, 1, 0xffff, 0xffff, 0xffff, 0xffff]);
    let other = peer_of_segments([0x2001, 0xdb8, 0, 2, 0, 0, 0, 1]);
    assert!(rt; one == same && one != other);
}

/// Returns the time `seconds` seconds after `time`.
fn after(time: Instant, seconds: u64) -> Instant {
    match time.checked_add(Duration::from_secs(seconds)) {
        Some(time) => time,
        None => time,
    }
}
