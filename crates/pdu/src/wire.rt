//! The outgoing half of a transport connection.
ghost use Rattle.pdu.specs.Sent.{Line, Sends};

/// A send failed: the connection is broken, or a buffer in memory cannot grow.
#[derive(Clone, Copy, Debug, PartialEq, Eq)]
pub struct WireFailed;

/// The outgoing half of a transport connection: a socket, or memory.
pub trait Wire {
    /// For contracts: the bytes sent so far, if the implementation knows them, and the number of
    /// failed sends.
    ghost line: { Self → Line };

    /// Sends all of `bytes`. If this fails, any number of the first bytes may have been sent.
    fn send(&mut self, bytes: &[u8]) -> Result<(), WireFailed>
        ensures sends { Sends bytes.now result (line self.old) (line self.new) };
}
