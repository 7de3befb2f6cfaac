//! Reads a table of test cases.

use std::alloc::Global;
use std::test::Fail;

/// A test case: a line of a table.
#[derive(Clone, Copy)]
pub struct Case<'a> {
    /// The name of the test case, printed if the test fails.
    pub name: &'a str,
    fields: &'a str,
}

/// Returns the test cases of a table. Fails if there are not `count`.
pub fn cases<'a>(alloc: Global, table: &'a str, count: usize) -> Result<Vec<Case<'a>>, Fail> {
    let mut cases = Vec::new(alloc);
    for line in table.lines() {
        match line.split_once('|') {
            Some((name, fields)) => cases.push(Case {
                name: name.trim(),
                fields,
            })?,
            None if line.trim().is_empty() => {}
            None => return Err(Fail::new(format_args!("{line}: no case"))),
        }
    }
    if cases.len() != count {
        let found = cases.len();
        return Err(Fail::new(format_args!("{found} cases and not {count}")));
    }
    Ok(cases)
}

impl<'a> Case<'a> {
    /// Returns the test case of a line; a line without a bar has one empty field.
    pub fn of(line: &'a str) -> Case<'a> {
        let (name, fields) = line.split_once('|').unwrap_or((line, ""));
        Case {
            name: name.trim(),
            fields,
        }
    }

    /// Returns the field at this index, counted from 0.
    pub fn field(&self, index: usize) -> Result<&'a str, Fail> {
        match self.fields.split('|').nth(index) {
            Some(field) => Ok(field.trim()),
            None => Err(self.fails("has too few fields")),
        }
    }

    /// Fails with the name of the test case unless the field at this index is `found`.
    pub fn expect(&self, index: usize, found: &str) -> Result<(), Fail> {
        if self.field(index)? == found {
            return Ok(());
        }
        Err(self.fails(found))
    }

    /// Returns a failure with the name of the test case.
    pub fn fails(&self, why: &str) -> Fail {
        let name = self.name;
        Fail::new(format_args!("{name}: {why}"))
    }
}
