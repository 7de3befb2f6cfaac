//! Ghost lists of values, for use in contracts only; they have no size at run time.
ghost use Rattle.std.specs.Prelude.{◌≡◌, List, [], ◌∷◌, ◌++◌};
ghost use Rattle.std.specs.Borrow.{ftrue};

use std::marker::{Model, PhantomData};

/// An unbounded list of values of type `T`, each as contracts saw it when it was appended. It is a
/// ghost value: contracts can name it, the program cannot read it.
#[derive(Drop)]
pub struct History<T> {
    marker: PhantomData<T>,
    ghost all: { List T },
}

impl<T> Model for History<T> {
    ghost Value = { List T };

    ghost view = { λ h. h.all };

    ghost also_owns = { λ _. ftrue };
}

impl<T> History<T> {
    /// Creates an empty list.
    pub fn new() -> History<T>
        ensures { result ≡ [] }
    {
        History {
            marker: PhantomData,
        }
    }

    /// Appends a value, as contracts see it now.
    pub fn push(&mut self, _value: &T)
        ensures { self.new ≡ self.old ++ _value.now ∷ [] }
    {}

    /// Appends these values, as contracts see them now.
    pub fn append(&mut self, _values: &[T])
        ensures { self.new ≡ self.old ++ _values.now }
    {}
}
