//! What a worker does with the table and its seat.

ghost use Rattle.std.specs.Prelude.{◌≡◌, ◌+◌, ◌/◌, ◌≤◌, true, Contains, IfOk, MatchBool};
ghost use Rattle.reg_claim.specs.Views.{fresh, newcomer, with_finished, with_seen, with_less, joined_views, is_odd};
ghost use Rattle.reg_claim.specs.Answers.{GetsPlace, IsTallyOf};
ghost use Rattle.reg_claim.specs.Steps.{SeesLater};
ghost use Rattle.reg_claim.specs.Seats.{known, seat_table, places, IsSeatOf};

use crate::claim_table::{ClaimTable, Look, Tally};
use crate::fault::NoMemory;
use crate::protocol::{Claiming, Finished, Finishing, Joining, Looking, Parting, Stopping};
use crate::seats::Seat;
use atomic_table::Table;
use std::alloc::Global;
use std::marker::Brand;

impl ClaimTable {
    /// A table of `count` places, none of which is claimed, and its first seat, which has the whole stake.
    ///
    /// # Errors
    ///
    /// `NoMemory` if memory ran out.
    pub fn new(alloc: Global, count: u32) -> Result<(ClaimTable, Seat), NoMemory>
        ensures places { IfOk result (λ made. places made.0 ≡ count) }
        ensures seat { IfOk result (λ made. IsSeatOf made.0 made.1) }
        ensures fresh { IfOk result (λ made. known made.1 ≡ fresh) }
    {
        let words = Vec::from_elem(alloc, 0, count as usize + 1)?;
        let (table, seat) = Table::of_words(alloc, words.as_slice(), &count)?;
        Ok((ClaimTable { table }, Seat { seat }))
    }

    /// Hands one part of a seat's stake to a new seat, which has seen what the first has. The lists stay with the
    /// first. Answers the first seat and the new one. The seat must be of this table, and have two parts or more.
    pub fn split(&self, seat: Seat) -> (Seat, Seat)
        requires own { IsSeatOf self.now seat }
        requires stake { 2 ≤ (known seat).stake }
        ensures same { (seat_table result.0 ≡ seat_table seat) × (seat_table result.1 ≡ seat_table seat) }
        ensures first { known result.0 ≡ with_less (known seat) }
        ensures second { known result.1 ≡ newcomer (known seat).seen }
    {
        let Seat { mut seat } = seat;
        let other = self.table.shared.split_seat::<Parting>(&mut seat);
        (Seat { seat }, Seat { seat: other })
    }

    /// Makes one seat of two of this table: with both stakes, what both did, and the greater count that they saw.
    pub fn join(&self, seat: Seat, other: Seat) -> Seat
        requires own { IsSeatOf self.now seat }
        requires other { IsSeatOf self.now other }
        ensures same { seat_table result ≡ seat_table seat }
        ensures view { known result ≡ joined_views (known seat) (known other) }
    {
        let Seat { mut seat } = seat;
        let Seat { seat: theirs } = other;
        self.table.shared.join_seat::<Joining>(&mut seat, theirs);
        Seat { seat }
    }

    /// Claims a place, 1 to the number of places, by one swap. True for the first claim of the place: then it is this
    /// seat's to finish. Else the seat knows no more than before. The seat must be of this table.
    ///
    /// A seat with the whole stake knows the answer: true if it has not claimed the place before.
    pub fn claim(&self, seat: &mut Seat, place: u32) -> bool
        requires own { IsSeatOf self.now seat.old }
        requires place { 1 ≤ place }
        requires within { place ≤ places self.now }
        ensures same { seat_table seat.new ≡ seat_table seat.old }
        ensures answer { MatchBool result (GetsPlace place (known seat.old) (known seat.new))
            (known seat.new ≡ known seat.old) }
        ensures alone { (known seat.old).stake ≡ 16 → ¬ Contains (known seat.old).claimed place → result ≡ true }
    {
        let shared = &self.table.shared;
        let found = shared.swap::<Claiming>(&mut seat.seat, place as usize, 1);
        found == 0
    }

    /// Counts a place as finished. The seat must be of this table, have claimed the place, and not have finished it.
    pub fn finish(&self, seat: &mut Seat, place: u32)
        requires own { IsSeatOf self.now seat.old }
        requires claimed { Contains (known seat.old).claimed place }
        requires unfinished { ¬ Contains (known seat.old).finished place }
        ensures same { seat_table seat.new ≡ seat_table seat.old }
        ensures view { known seat.new ≡ with_seen (known seat.new).seen (with_finished place (known seat.old)) }
        ensures later { SeesLater (known seat.old) (known seat.new) }
        ensures counted { (known seat.old).seen + 2 ≤ (known seat.new).seen }
    {
        self.finish_named::<Brand>(seat, place);
    }

    fn finish_named<P: Finished>(&self, seat: &mut Seat, place: u32)
        requires named { P.place ≡ place }
        requires own { IsSeatOf self.now seat.old }
        requires claimed { Contains (known seat.old).claimed place }
        requires unfinished { ¬ Contains (known seat.old).finished place }
        ensures same { seat_table seat.new ≡ seat_table seat.old }
        ensures view { known seat.new ≡ with_seen (known seat.new).seen (with_finished P.place (known seat.old)) }
        ensures later { SeesLater (known seat.old) (known seat.new) }
        ensures counted { (known seat.old).seen + 2 ≤ (known seat.new).seen }
    {
        let shared = &self.table.shared;
        shared.fetch_add::<Finishing<P>>(&mut seat.seat, 0, 2);
    }

    /// How many places are finished, at least those that this seat finished, and whether the workers are to leave. No
    /// less than the seat saw before. The seat must be of this table.
    pub fn look(&self, seat: &mut Seat) -> Look
        requires own { IsSeatOf self.now seat.old }
        ensures same { seat_table seat.new ≡ seat_table seat.old }
        ensures view { known seat.new ≡ with_seen (known seat.new).seen (known seat.old) }
        ensures later { SeesLater (known seat.old) (known seat.new) }
        ensures done { result.done ≡ (known seat.new).seen / 2 }
        ensures stopped { result.stopped ≡ is_odd (known seat.new).seen }
    {
        let found = self.table.shared.load::<Looking>(&mut seat.seat, 0);
        Look {
            done: (found / 2) as u32,
            stopped: found % 2 == 1,
        }
    }

    /// Tells all workers to leave. The seat must be of this table.
    pub fn stop(&self, seat: &mut Seat)
        requires own { IsSeatOf self.now seat.old }
        ensures same { seat_table seat.new ≡ seat_table seat.old }
        ensures view { known seat.new ≡ with_seen (known seat.new).seen (known seat.old) }
        ensures later { SeesLater (known seat.old) (known seat.new) }
        ensures stopped { is_odd (known seat.new).seen ≡ true }
    {
        self.table.shared.fetch_or::<Stopping>(&mut seat.seat, 0, 1);
    }

    /// Ends the table with its last seat, which must be of this table and have the whole stake, 16. What is finished is
    /// what this seat finished: no place twice, and if it is as many as there are places, each place once.
    pub fn close(self, seat: Seat) -> Tally
        requires own { IsSeatOf self seat }
        requires last { (known seat).stake ≡ 16 }
        ensures { IsTallyOf (places self) (known seat) result }
    {
        let ClaimTable { table } = self;
        let Seat { seat } = seat;
        let closed = table.close_with(seat);
        let found = closed.word(0);
        closed.free();
        let done = (found / 2) as u32;
        let stopped = found % 2 == 1;
        Tally { done, stopped }
    }
}
