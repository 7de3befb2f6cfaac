//! Which of the proposed presentation contexts were accepted (PS3.8 section 9.3.3).
use negotiate::ContextRow;

/// Which contexts were accepted, indexed by half their IDs, which are odd.
#[derive(Clone, Copy)]
pub(crate) struct Accepted([bool; 128]);

impl Accepted {
    /// Returns which contexts have a row in this table.
    pub(crate) fn of(rows: &[ContextRow]) -> Accepted {
        let mut accepted = Accepted([false; 128]);
        for row in rows {
            accepted.0[usize::from(row.id / 2)] = true;
        }
        accepted
    }

    /// Returns whether the context with this ID was accepted.
    pub(crate) fn has(&self, id: u8) -> bool {
        self.0[usize::from(id / 2)]
    }
}
