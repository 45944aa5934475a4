//! Claims all places of a table at once from eight threads with two seats each, and tells how many places were claimed
//! exactly once. Each thread tries every place, so that most claims meet those of other threads. `bench/claims.py`
//! measures it.
#![tactic(auto)]

ghost use Rattle.std.specs.Prelude.{◌≡◌, ◌<◌, ◌≤◌, ◌-◌, ◌*◌, ◌^◌, length, vec_len, IfOk};
ghost use Rattle.reg_claim.specs.Seats.{known, seat_table, places, IsSeatOf};
ghost use Rattle.std.specs.Thread.{IsSync};

use reg_claim::{ClaimTable, NoMemory, Seat, Tally};
use std::alloc::{AllocError, Global};
use std::sync::atomic::{AtomicU32, Ordering};
use std::thread::Threads;
use std::{io, thread};

#[cfg(test)]
mod running;
#[cfg(test)]
mod tests;

const PLACES: u32 = 16_384;

const THREADS: u32 = 8;

// Claims the place if it is the first to do so, and then marks and finishes it.
fn claim(table: &ClaimTable, seat: &mut Seat, place: u32, mark: &AtomicU32)
    requires own { IsSeatOf table.now seat.old }
    requires place { (1 ≤ place) × (place ≤ places table.now) }
    ensures same { (seat_table seat.new ≡ seat_table seat.old) × ((known seat.new).stake ≡ (known seat.old).stake) }
{
    if table.claim(seat, place) {
        mark.fetch_add(1, Ordering::SeqCst);
        table.finish(seat, place);
    }
}

// Tries each place with both seats of a thread: the first one tries it first.
fn claim_all(table: &ClaimTable, seat: Seat, marks: &[AtomicU32]) -> Seat
    requires own { IsSeatOf table.now seat }
    requires stake { (known seat).stake ≡ 2 }
    requires marks { (length marks.now ≡ places table.now) × (places table.now < 2 ^ 32) }
    ensures same { (seat_table result ≡ seat_table seat) × ((known result).stake ≡ 2) }
{
    let (mut first, mut second) = table.split(seat);
    let mut place = 0;
    for mark in marks {
        place += 1;
        claim(table, &mut first, place, mark);
        claim(table, &mut second, place, mark);
    }
    table.join(first, second)
}

// Starts a thread with two parts of the stake, and goes on with the others.
fn in_threads<R: Threads + Sync>(
    rt: &R,
    table: &ClaimTable,
    seat: Seat,
    marks: &[AtomicU32],
    threads: u32,
) -> Seat
    requires own { IsSeatOf table.now seat }
    requires stake { (known seat).stake ≡ 2 * threads }
    requires threads { 1 ≤ threads }
    requires marks { (length marks.now ≡ places table.now) × (places table.now < 2 ^ 32) }
    ensures same { (seat_table result ≡ seat_table seat) × ((known result).stake ≡ 2 * threads) }
{
    if threads == 1 {
        return claim_all(table, seat, marks);
    }
    let (seat, first) = table.split(seat);
    let (rest, second) = table.split(seat);
    let pair = table.join(first, second);
    let (pair, rest) = thread::join(
        rt,
        move || claim_all(table, pair, marks),
        move || -> Seat
            requires seat { IsSync R.row × IsSeatOf table.now rest × ((known rest).stake ≡ 2 * (threads - 1))
                × (2 ≤ threads) }
            requires marks { (length marks.now ≡ places table.now) × (places table.now < 2 ^ 32) }
            ensures { (seat_table result ≡ seat_table rest) × ((known result).stake ≡ 2 * (threads - 1)) }
        { in_threads(rt, table, rest, marks, threads - 1) },
    );
    table.join(pair, rest)
}

// A mark for each place, that of no claim yet.
fn no_marks(alloc: Global) -> Result<Vec<AtomicU32>, NoMemory>
    ensures { IfOk result (λ marks. vec_len marks ≡ 16384) }
{
    let mut marks = Vec::with_capacity(alloc, PLACES as usize)?;
    for _ in 0..PLACES {
        if marks.push(AtomicU32::new(0)).is_err() {
            return Err(NoMemory);
        }
    }
    Ok(marks)
}

// How many places were claimed once, and what the table counted.
fn claimed_once<R: Threads + Sync>(rt: &R, alloc: Global) -> Result<(usize, Tally), NoMemory> {
    let marks = no_marks(alloc)?;
    let (table, seat) = ClaimTable::new(alloc, PLACES)?;
    let seat = in_threads(rt, &table, seat, marks.as_slice(), THREADS);
    let once = marks
        .iter()
        .filter(|mark| mark.load(Ordering::SeqCst) == 1)
        .count();
    Ok((once, table.close(seat)))
}

fn main(rt: HostRuntime) -> io::Result<()> {
    match claimed_once(&rt, rt.alloc()) {
        Ok((once, tally)) => println!(rt;
            "{PLACES} places, {once} claimed once, {} finished, stopped: {}",
            tally.done, tally.stopped
        ),
        Err(none) => println!(rt; "{none}"),
    }
}
