//! A use of `reg_facts`.

ghost use Rattle.std.specs.Prelude.{◌≡◌};
ghost use Rattle.reg_facts.specs.Counting.{times};

/// How often a number stands in a list.
pub fn count(numbers: &[u32], wanted: u32) -> usize
    ensures { result ≡ times wanted numbers.now }
{
    numbers.iter().filter(|number| **number == wanted).count()
}
