//! The listeners of a server.
use mio::net::{TcpListener, TcpStream};
use mio::{Interest, Poll, Token};
use std::io::{Error, ErrorKind};
use std::net::SocketAddr;
use std::{io, net};

/// The listeners of a server, which accept connections in rotation.
#[derive(Drop)]
pub(crate) struct Listeners {
    all: Vec<TcpListener>,
    /// The index of the listener that is tried first.
    next: usize,
}

impl Listeners {
    /// Registers these listeners with the poll, under one token.
    pub(crate) fn watched(
        poll: &Poll,
        token: Token,
        listeners: Vec<net::TcpListener>,
    ) -> io::Result<Listeners> {
        let mut all = Vec::with_capacity(*listeners.allocator(), listeners.len())?;
        for listener in listeners {
            listener.set_nonblocking(true)?;
            let mut listener = TcpListener::from_std(listener);
            poll.registry()
                .register(&mut listener, token, Interest::READABLE)?;
            all.push(listener)?;
        }
        Ok(Listeners { all, next: 0 })
    }

    /// Registers all listeners again, so that the poll reports at once each one that has a
    /// connection.
    pub(crate) fn watch_anew(&mut self, poll: &Poll, token: Token) {
        for listener in &mut self.all {
            // A socket that is registered again is reported at once if it is ready.
            let _ = poll
                .registry()
                .reregister(listener, token, Interest::READABLE);
        }
    }

    /// Accepts a connection from the next listener that has one.
    ///
    /// Fails with `WouldBlock` if none has, or if a listener fails.
    pub(crate) fn accept(&mut self) -> io::Result<(TcpStream, SocketAddr)> {
        for _ in 0..self.all.len() {
            let index = if self.next < self.all.len() {
                self.next
            } else {
                0
            };
            self.next = index.saturating_add(1);
            match self.all[index].accept() {
                Err(failure) if failure.kind() == ErrorKind::WouldBlock => {}
                accepted => return accepted,
            }
        }
        Err(Error::from(ErrorKind::WouldBlock))
    }
}
