//! A law of docks. It is the contract of a function that does nothing; whoever needs it calls the function.

ghost use Rattle.reg_yard.specs.Laws.{ASingleParcelGivesTheTask};

/// A dock whose place needs one parcel alone gives out the task when it takes that. So a body that takes it and gives
/// out nothing does not meet the contract of [`Docks::deliver`](crate::Docks::deliver).
pub fn a_single_parcel_gives_the_task()
    ensures { ASingleParcelGivesTheTask }
{}
