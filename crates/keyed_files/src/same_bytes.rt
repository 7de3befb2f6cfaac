//! Compares the bytes of two files.
ghost use Rattle.std.specs.Prelude.{◌≡◌, IfOk, true};
ghost use Rattle.keyed_files.specs.SameBytes.{GiveTheSame};

use element::interrupted::read_retrying;
use std::fs;
use std::io::{self, ErrorKind, Read};
use std::rt::Files;

/// How many bytes are compared at a time.
const PIECE: usize = 8192;

#[tactic(auto, using(crate::proofs::FrontsAreSame::same_text))]
fn are_same(one: &[u8], other: &[u8]) -> bool
    ensures { result ≡ true → one.now ≡ other.now }
{
    one == other
}

/// Returns whether two readers yield the same bytes up to the end of both. Fails if a read fails.
#[tactic(auto, using(crate::proofs::FrontsAreSame::at_end))]
fn give_the_same<R: Read>(one: &mut R, other: &mut R) -> io::Result<bool>
    ensures same { IfOk result (λ same. same ≡ true → GiveTheSame (R.remaining one.old) (R.remaining other.old)) }
{
    let (mut first, mut second) = ([0; PIECE], [0; PIECE]);
    for _ in 0..u64::MAX {
        let count = read_retrying(one, &mut first)?;
        if count == 0 {
            return Ok(read_retrying(other, &mut second)? == 0);
        }
        let found = &mut second[..count];
        match other.read_exact(found) {
            Ok(()) if are_same(&first[..count], found) => {}
            Ok(()) => return Ok(false),
            Err(error) if error.kind() == ErrorKind::UnexpectedEof => return Ok(false),
            Err(error) => return Err(error),
        }
    }
    Ok(false)
}

/// Returns whether the files at two paths have the same bytes. Fails if either can't be read.
pub fn have_the_same<R: Files>(rt: &R, one: &str, other: &str) -> io::Result<bool> {
    let mut first = fs::open(rt, one)?;
    let mut second = fs::open(rt, other)?;
    give_the_same(&mut first, &mut second)
}
