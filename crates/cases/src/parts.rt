//! Reads bytes from text.

use crate::case::{Case, cases};
use std::alloc::Global;
use std::test::Fail;

/// Bytes with a name.
#[derive(Drop)]
struct NamedBytes<'a> {
    name: &'a str,
    bytes: Vec<u8>,
}

/// The named bytes that fields may refer to.
#[derive(Drop)]
pub struct Parts<'a> {
    alloc: Global,
    parts: Vec<NamedBytes<'a>>,
}

fn digit_of(byte: u8) -> Option<u8> {
    match byte {
        b'0'..=b'9' => Some(byte - b'0'),
        b'a'..=b'f' => Some(byte - b'a' + 10),
        _ => None,
    }
}

fn byte_of(pair: &[u8]) -> Option<u8> {
    match pair {
        [high, low] => Some(digit_of(*high)? << 4 | digit_of(*low)?),
        _ => None,
    }
}

/// Returns the bytes of a range like `10..26]`; both offsets may be omitted.
fn within<'x>(bytes: &'x [u8], range: &str) -> Option<&'x [u8]> {
    let (from, to) = range.strip_suffix(']')?.split_once("..")?;
    let upto = if to.is_empty() {
        bytes
    } else {
        bytes.get(..to.parse::<usize>().ok()?)?
    };
    if from.is_empty() {
        return Some(upto);
    }
    upto.get(from.parse::<usize>().ok()?..)
}

impl<'a> Parts<'a> {
    /// Returns an empty list of names.
    pub fn new(alloc: Global) -> Parts<'a> {
        Parts {
            alloc,
            parts: Vec::new(alloc),
        }
    }

    /// Names the bytes of each of the `count` test cases of a table; each may refer to the names
    /// before it.
    pub fn read(alloc: Global, table: &'a str, count: usize) -> Result<Parts<'a>, Fail> {
        let mut parts = Parts::new(alloc);
        for case in cases(alloc, table, count)?.as_slice() {
            let bytes = parts.bytes(case, 0)?;
            parts.add(case.name, bytes)?;
        }
        Ok(parts)
    }

    /// Adds bytes under a name.
    pub fn add(&mut self, name: &'a str, bytes: Vec<u8>) -> Result<(), Fail> {
        self.parts.push(NamedBytes { name, bytes })?;
        Ok(())
    }

    /// Returns the bytes of the field at this index.
    pub fn bytes(&self, case: &Case, index: usize) -> Result<Vec<u8>, Fail> {
        let mut bytes = Vec::new(self.alloc);
        for (at, text) in case.field(index)?.split('\'').enumerate() {
            if at % 2 == 1 {
                bytes.extend_from_slice(text.as_bytes())?;
                continue;
            }
            for word in text.split_whitespace() {
                if !self.put(&mut bytes, word)? {
                    return Err(case.fails(word));
                }
            }
        }
        Ok(bytes)
    }

    /// Fails with the name of the test case unless `found` equals the bytes of the field at this
    /// index.
    pub fn expect(&self, case: &Case, index: usize, found: &[u8]) -> Result<(), Fail> {
        if self.bytes(case, index)?.as_slice() == found {
            return Ok(());
        }
        Err(Fail::new(format_args!("{}: {found:?}", case.name)))
    }

    /// Appends the bytes of a word, which may be repeated. Returns whether the word is valid.
    fn put(&self, bytes: &mut Vec<u8>, word: &str) -> Result<bool, Fail> {
        let (text, times) = match word.split_once('*') {
            Some((text, times)) => (text, times.parse::<usize>().unwrap_or(0)),
            None => (word, 1),
        };
        for _ in 0..times {
            if !self.put_once(bytes, text)? {
                return Ok(false);
            }
        }
        Ok(times > 0)
    }

    /// Appends the bytes of a word once. Returns whether the word is valid.
    fn put_once(&self, bytes: &mut Vec<u8>, text: &str) -> Result<bool, Fail> {
        let (name, range) = text.split_once('[').unwrap_or((text, "..]"));
        if let Some(part) = self.parts.iter().find(|part| part.name == name) {
            return match within(part.bytes.as_slice(), range) {
                Some(some) => {
                    bytes.extend_from_slice(some)?;
                    Ok(true)
                }
                None => Ok(false),
            };
        }
        for pair in text.as_bytes().chunks(2) {
            match byte_of(pair) {
                Some(byte) => bytes.push(byte)?,
                None => return Ok(false),
            }
        }
        Ok(true)
    }
}
