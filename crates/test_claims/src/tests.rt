//! What no clause says: that there is room for a table, that a claim is answered true, and that threads see one table.

ghost use Rattle.std.specs.Prelude.{◌≡◌, true, Contains};
ghost use Rattle.reg_claim.specs.Seats.{known, seat_table, places, IsSeatOf};

use crate::{PLACES, claimed_once};
use reg_claim::{ClaimTable, Look, Seat, Tally};
use std::alloc::Global;
use std::process::Abort;
use std::thread;
use std::thread::Threads;

// What was answered to the first claim of a place and to the second, what each seat saw, and what was there at the end.
type Seen = (bool, bool, Look, Look, Tally);

const WANTED: Seen = (
    true,
    false,
    Look {
        done: 1,
        stopped: false,
    },
    Look {
        done: 1,
        stopped: true,
    },
    Tally {
        done: 1,
        stopped: true,
    },
);

fn in_one_thread(rt: &impl Abort, alloc: Global) -> Seen {
    let (table, seat) = ClaimTable::new(alloc, 3).expect(rt, "a table");
    let (mut a, mut b) = table.split(seat);
    let first = table.claim(&mut a, 2);
    let second = table.claim(&mut b, 2);
    if first {
        table.finish(&mut a, 2);
    }
    let by_b = table.look(&mut b);
    table.stop(&mut b);
    let by_a = table.look(&mut a);
    let seat = table.join(a, b);
    (first, second, by_b, by_a, table.close(seat))
}

fn claim(table: &ClaimTable, mut seat: Seat) -> (Seat, bool)
    requires own { IsSeatOf table.now seat }
    requires within { places table.now ≡ 3 }
    ensures same { (seat_table result.0 ≡ seat_table seat) × ((known result.0).stake ≡ (known seat).stake) }
    ensures claimed { result.1 ≡ true → Contains (known result.0).claimed 2 }
    ensures unfinished { result.1 ≡ true → ¬ Contains (known result.0).finished 2 }
{
    let first = table.claim(&mut seat, 2);
    (seat, first)
}

fn finish(table: &ClaimTable, mut seat: Seat, first: bool) -> Seat
    requires own { IsSeatOf table.now seat }
    requires claimed { first ≡ true → Contains (known seat).claimed 2 }
    requires unfinished { first ≡ true → ¬ Contains (known seat).finished 2 }
    ensures { (seat_table result ≡ seat_table seat) × ((known result).stake ≡ (known seat).stake) }
{
    if first {
        table.finish(&mut seat, 2);
    }
    seat
}

fn look(table: &ClaimTable, mut seat: Seat, stop: bool) -> (Seat, Look)
    requires own { IsSeatOf table.now seat }
    ensures same { (seat_table result.0 ≡ seat_table seat) × ((known result.0).stake ≡ (known seat).stake) }
    ensures lists { ((known result.0).claimed ≡ (known seat).claimed)
        × ((known result.0).finished ≡ (known seat).finished) }
{
    let seen = table.look(&mut seat);
    if stop {
        table.stop(&mut seat);
    }
    (seat, seen)
}

// Both seats step in threads of their own. A join of threads stands between two steps of which one sees the other.
fn in_two_threads(rt: &(impl Abort + Threads), alloc: Global) -> Seen {
    let (table, seat) = ClaimTable::new(alloc, 3).expect(rt, "a table");
    let (a, b) = table.split(seat);
    let shared = &table;
    let ((a, first), (b, _)) = thread::join(
        rt,
        move || claim(shared, a),
        move || look(shared, b, false),
    );
    let ((b, second), a) = thread::join(
        rt,
        move || claim(shared, b),
        move || { finish(shared, a, first) },
    );
    let ((b, by_b), (a, _)) = thread::join(
        rt,
        move || look(shared, b, true),
        move || { look(shared, a, false) },
    );
    let ((a, by_a), b) = thread::join(rt, move || look(shared, a, false), move || b);
    let seat = table.join(a, b);
    (first, second, by_b, by_a, table.close(seat))
}

fn without_places(rt: &impl Abort, alloc: Global) -> (Look, Tally) {
    let (table, mut seat) = ClaimTable::new(alloc, 0).expect(rt, "a table");
    (table.look(&mut seat), table.close(seat))
}

#[test]
fn two_seats_in_one_thread(rt: HostRuntime) {
    assert_eq!(rt; in_one_thread(&rt, rt.alloc()), WANTED);
}

#[test]
fn two_seats_in_two_threads(rt: HostRuntime) {
    assert_eq!(rt; in_two_threads(&rt, rt.alloc()), WANTED);
}

#[test]
fn a_table_of_no_places(rt: HostRuntime) {
    let wanted = (
        Look {
            done: 0,
            stopped: false,
        },
        Tally {
            done: 0,
            stopped: false,
        },
    );
    assert_eq!(rt; without_places(&rt, rt.alloc()), wanted);
}

#[test]
fn each_place_is_claimed_once_by_sixteen_seats(rt: HostRuntime) {
    let wanted = (
        PLACES as usize,
        Tally {
            done: PLACES,
            stopped: false,
        },
    );
    assert_eq!(rt;
        claimed_once(&rt, rt.alloc()).expect(&rt, "a table"),
        wanted
    );
}
