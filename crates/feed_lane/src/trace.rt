//! Members that only contracts read. They take no memory, and the functions here do nothing when they run.
ghost use Rattle.std.specs.Prelude.{◌≡◌, List, [], ◌∷◌, ◌++◌};
ghost use Rattle.std.specs.Borrow.{ftrue};

use std::marker::{Model, PhantomData};

/// Members in their order.
#[derive(Drop)]
pub(crate) struct Trace<T> {
    of: PhantomData<T>,
    pub ghost items: { List T },
}

impl<T> Model for Trace<T> {
    ghost also_owns = { λ _. ftrue };
}

// It owns nothing.
unsafe impl<T: Send> Send for Trace<T> {}

impl<T> Trace<T> {
    /// No members.
    pub(crate) fn new() -> Trace<T>
        ensures { result.items ≡ [] }
    {
        Trace { of: PhantomData }
    }

    /// These members, and one more behind them.
    pub(crate) fn and(&self, one: &T) -> Trace<T>
        ensures { result.items ≡ self.now.items ++ one.now ∷ [] }
    {
        Trace { of: PhantomData }
    }
}
