//! Stores: bytes that are read at any place.
ghost use Rattle.std.specs.Prelude.{◌≡◌, ◌+◌, ◌≤◌, ℕ, List, Some, length};
ghost use Rattle.mcap_io.specs.Stores.{StoreState};
ghost use Rattle.mcap_io.specs.StoreAnswers.{Measures, ReadsPart};

use crate::outside::Failed;

/// Bytes that are read at any place, below a length that the store has answered.
pub trait Store {
    /// Its bytes, where it tells them, the greatest length that it has answered, how often it has failed, and how many bytes
    /// it was asked for.
    ghost state: { Self → StoreState };

    /// How many bytes it has.
    fn len(&mut self) -> Result<u64, Failed>
        ensures { Measures (state self.old) (state self.new) result };

    /// Fills `out` with the bytes that stand from `at` on.
    fn read_at(&mut self, at: u64, out: &mut [u8]) -> Result<(), Failed>
        requires { at + length out.old ≤ (state self.old).known }
        ensures { ReadsPart (state self.old) (state self.new) at out.new result };

    /// How many bytes were asked for, up to the greatest count of its type.
    fn asked(&self) -> u128
        ensures { result ≡ (state self.now).asked };

    fn faults(&self) -> u64
        ensures { result ≡ (state self.now).faults };

    /// It answers no length that its bytes don't have.
    ghost within: { (s : Self) (bytes : List ℕ) → (state s).bytes ≡ Some bytes → (state s).known ≤ length bytes };
}
