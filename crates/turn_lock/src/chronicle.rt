//! A value with a history.

ghost use Rattle.std.specs.Prelude.{◌≡◌, ℕ, List, length};

/// A value with a history, to which calls on the value add.
pub trait Chronicle {
    /// What a history is made of.
    type Item;

    /// What the value is about, plain data.
    type Subject;

    /// What was done to the value, the oldest first.
    ghost history: { Self → List Self.Item };

    /// The number of the process that made an item.
    ghost by: { Self.Item → ℕ };

    /// What no call on the value changes.
    ghost subject: { Self → Self.Subject };

    /// How many items the history has. It takes no memory.
    fn count(&self) -> u64
        ensures { result ≡ length (history self.now) };
}
