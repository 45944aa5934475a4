//! Tasks, of which a deque knows the number alone.

ghost use Rattle.std.specs.Prelude.{ℕ};

/// A task, as it may lie in a deque. The rule of a deque sees its number alone, which exists in proofs.
pub trait Numbered {
    ghost number: { Self → ℕ };
}
