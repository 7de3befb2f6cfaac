//! New unique identifiers.
use element::Uid;
use failures::{Failure, ProgramError};
use std::io::{ErrorKind, Read};
use std::rt::Files;
use std::{fs, io};
use uuid::Builder;

/// The system's source of random bytes.
const RANDOM: &str = "/dev/urandom";

/// Reads 128 random bits.
fn random_bits<R: Files>(rt: &R) -> io::Result<[u8; 16]> {
    let mut bits = [0; 16];
    let mut file = fs::open(rt, RANDOM)?;
    file.read_exact(&mut bits)?;
    Ok(bits)
}

/// Returns a new unique UID: the decimal form of a random UUID under the root 2.25 (PS3.5 section
/// B.2).
///
/// Fails if the system yields no random bytes.
pub fn new_uid<R: Files + Alloc>(rt: &R) -> Result<Uid, ProgramError> {
    let bits = random_bits(rt).map_err(|error| ProgramError::System(Failure::Random, error))?;
    let number = Builder::from_random_bytes(bits).into_uuid().as_u128();
    let text = format!(in rt.alloc(); "2.25.{number}")?;
    match Uid::read(text.as_bytes()) {
        Some(uid) => Ok(uid),
        None => Err(ProgramError::System(Failure::Random, io::Error::from(ErrorKind::InvalidData))),
    }
}
