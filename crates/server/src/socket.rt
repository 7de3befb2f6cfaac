//! The non-blocking socket of a connection.
use mio::net::TcpStream;
use mio::{Interest, Poll, Token};
use service::acknowledge_at_once;
use std::io;
use std::io::{ErrorKind, Read, Write};
use std::net::SocketAddr;

/// A connection that was accepted.
#[derive(Drop)]
pub(crate) struct AcceptedStream {
    pub(crate) stream: TcpStream,
    pub(crate) peer: SocketAddr,
}

/// The non-blocking socket of a connection.
#[derive(Drop)]
pub struct Socket(pub(crate) TcpStream);

impl Read for Socket {
    /// Reads what is available. If nothing is, has the system acknowledge at once what was
    /// received, rather than with the next bytes that are sent.
    fn read(&mut self, room: &mut [u8]) -> io::Result<usize> {
        let mut stream = &self.0;
        match stream.read(room) {
            Err(error) if error.kind() == ErrorKind::WouldBlock => {
                acknowledge_at_once(&self.0);
                Err(error)
            }
            result => result,
        }
    }
}

impl Write for Socket {
    fn write(&mut self, bytes: &[u8]) -> io::Result<usize> {
        let mut stream = &self.0;
        stream.write(bytes)
    }

    fn flush(&mut self) -> io::Result<()> {
        Ok(())
    }
}

/// Registers the stream of a connection with the poll, under the index of its slot. Returns its
/// socket.
pub(crate) fn watched(poll: &Poll, stream: TcpStream, index: usize) -> io::Result<Socket> {
    stream.set_nodelay(true)?;
    let mut socket = Socket(stream);
    let both = Interest::READABLE | Interest::WRITABLE;
    poll.registry().register(&mut socket.0, Token(index), both)?;
    Ok(socket)
}
