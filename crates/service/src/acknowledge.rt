//! Turns off delayed acknowledgements on a TCP connection.
use libc::net;
use std::os::fd::AsRawFd;

/// Sets `TCP_QUICKACK`, so that the system acknowledges received bytes at once. The system clears
/// the option by itself, so this function is called each time a read returns `WouldBlock`.
///
/// A peer that sends a command and its data set by two writes, with Nagle's algorithm on, sends the
/// second only after the first is acknowledged: a delayed acknowledgement costs it about 40 ms for
/// each C-STORE. An error is ignored, as it only makes the connection slower.
pub fn acknowledge_at_once<S: AsRawFd>(stream: &S) {
    let mut on = [0u8; 16];
    on[..4].copy_from_slice(&1i32.to_ne_bytes());
    let descriptor = stream.as_raw_fd();
    let _status = unsafe {
        net::setsockopt(descriptor, net::IPPROTO_TCP, net::TCP_QUICKACK, &on, 4)
    };
}
