//! Naming the day that values belong to.

use std::marker::Brand;

/// Which day values belong to, as plain data for proofs, or none. A name has no code.
pub trait Naming {
    ghost use Rattle.std.specs.Prelude.{Option};
    ghost use Rattle.reg_book.specs.Day.{DayValue};

    ghost day: { Option DayValue };
}

/// The name that a caller picks from its own arguments: the proof of its call says which day it is, and the `None` that
/// stands here does not count.
impl Naming for Brand {
    ghost use Rattle.std.specs.Prelude.{None};

    ghost day = { None };
}

/// No day is named. Then it is tested only whether the values that a caller hands over fit. Values of another context
/// may fit, and no contract says that the settled day that comes of them is right.
pub struct Unnamed;

impl Naming for Unnamed {
    ghost use Rattle.std.specs.Prelude.{None};

    ghost day = { None };
}
