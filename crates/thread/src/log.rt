//! A history that only proofs read. It takes no memory, and its methods do nothing at run time.
ghost use Rattle.std.specs.Prelude.{◌≡◌, List, [], ◌∷◌, ◌++◌};
ghost use Rattle.std.specs.Borrow.{ftrue};

use std::marker::{Model, PhantomData};

/// A clause reads the pairs as `items`.
#[derive(Drop)]
pub struct Log<A, B> {
    of: PhantomData<(A, B)>,
    pub ghost items: { List (A × B) },
}

impl<A, B> Model for Log<A, B> {
    ghost also_owns = { λ _. ftrue };
}

// It owns nothing.
unsafe impl<A: Send, B: Send> Send for Log<A, B> {}

impl<A, B> Log<A, B> {
    pub fn new() -> Log<A, B>
        ensures { result.items ≡ [] }
    {
        Log { of: PhantomData }
    }

    pub fn and(&self, first: &A, second: &B) -> Log<A, B>
        ensures { result.items ≡ self.now.items ++ (first.now, second.now) ∷ [] }
    {
        Log { of: PhantomData }
    }

    /// A copy of the history.
    pub fn same(&self) -> Log<A, B>
        ensures { result.items ≡ self.now.items }
    {
        Log { of: PhantomData }
    }
}
