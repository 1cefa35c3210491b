//! What is added to a region in place.
ghost use Rattle.std.specs.Prelude.{◌≡◌, ℕ, ◌≤◌, List, ◌++◌, length, vec_capacity};
ghost use Rattle.mcap_wire.specs.Writing.{HasRoom};

/// What writes itself behind the bytes of a vector that has the room for it.
pub trait Encode {
    /// It may be written, as its lengths fit in front of what they count.
    ghost is_sound: { Self → Type 0 };

    /// The bytes that it writes.
    ghost text: { Self → List ℕ };

    /// Appends its bytes. There is room for them, so that no memory is asked for.
    fn encode(&self, out: &mut Vec<u8>)
        requires sound { is_sound self.now }
        requires room { HasRoom out.old (length (text self.now)) }
        ensures items { out.new.items ≡ out.old.items ++ text self.now }
        ensures capacity { vec_capacity out.old ≤ vec_capacity out.new };
}
