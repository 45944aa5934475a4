//! Deques of tasks: what no clause says, that there is room for a yard, that tasks are answered, and that threads see
//! one yard.

ghost use Rattle.std.specs.Prelude.{◌≡◌, All, IfOk, IfSome};
ghost use Rattle.reg_deques.specs.Yards.{IsPassOf};

use crate::fixtures::worked;
use reg_base::NoMemory;
use reg_tasks::{Context, Task, Unnamed};
use reg_text::DayInput;
use reg_yard::{Docks, Owner, Pass, Yard};
use std::alloc::Global;
use std::process::Abort;
use std::thread;
use std::thread::Threads;

// A transfer to an account that is not there: its task needs no parcel.
const UNKNOWN: &str = "do,2025-03-31,101,102,transfer,1,77,general,5\n";

// A yard of two workers, the first owner, the first pass and the second.
type Two = (
    Yard<Task<Unnamed>>,
    Owner<Task<Unnamed>>,
    Pass<Task<Unnamed>>,
    Pass<Task<Unnamed>>,
);

// What the second worker steals, the first takes, and the second steals after that.
type Seen = (Option<u32>, Option<u32>, Option<u32>);

// The last of these passes.
fn last_pass(
    yard: &Yard<Task<Unnamed>>,
    passes: &mut Vec<Pass<Task<Unnamed>>>,
) -> Option<Pass<Task<Unnamed>>>
    requires of { All (IsPassOf yard.now) passes.old.items }
    ensures rest { All (IsPassOf yard.now) passes.new.items }
    ensures last { IfSome result (IsPassOf yard.now) }
{
    passes.pop()
}

fn two(alloc: Global) -> Result<Two, NoMemory>
    ensures { IfOk result (λ made. IsPassOf made.0 made.2 × IsPassOf made.0 made.3) }
{
    let (yard, mut owners, mut passes) = Yard::new(alloc, 2)?;
    let Some(second) = last_pass(&yard, &mut passes) else {
        return Err(NoMemory);
    };
    let Some(first) = last_pass(&yard, &mut passes) else {
        return Err(NoMemory);
    };
    let _other = owners.pop();
    let Some(owner) = owners.pop() else {
        return Err(NoMemory);
    };
    Ok((yard, owner, first, second))
}

// Puts tasks of the places from 1 on, so many.
fn put(rt: &impl Abort, alloc: Global, owner: &mut Owner<Task<Unnamed>>, count: usize) {
    let instructions = UNKNOWN.repeat(alloc, count).expect(rt, "memory");
    let DayInput { rules, book, batch } = worked(rt, alloc, instructions.as_str());
    let context = Context::<Unnamed>::of(alloc, &book, &rules, &batch).expect(rt, "memory");
    let (_docks, tasks) = Docks::new(alloc, &context).expect(rt, "memory");
    for task in tasks {
        assert!(rt; owner.put(task).is_ok());
    }
}

fn place_of(task: Option<Task<Unnamed>>) -> Option<u32> {
    Some(task?.place())
}

// Steals from the first worker, if the pass is another one's.
fn steal(yard: &Yard<Task<Unnamed>>, pass: &mut Pass<Task<Unnamed>>) -> Option<u32>
    requires of { IsPassOf yard.now pass.old }
    ensures of { IsPassOf yard.now pass.new }
{
    if pass.worker() == 0 || yard.workers() == 0 {
        return None;
    }
    place_of(yard.steal(pass, 0))
}

fn in_one_thread(rt: &impl Abort, alloc: Global) -> Seen {
    let (yard, mut owner, _first, mut pass) = two(alloc).expect(rt, "a yard");
    put(rt, alloc, &mut owner, 2);
    let stolen = steal(&yard, &mut pass);
    let taken = place_of(owner.take_own());
    (stolen, taken, steal(&yard, &mut pass))
}

fn steals(
    yard: &Yard<Task<Unnamed>>,
    mut pass: Pass<Task<Unnamed>>,
) -> (Pass<Task<Unnamed>>, Option<u32>)
    requires of { IsPassOf yard.now pass }
    ensures of { IsPassOf yard.now result.0 }
{
    let stolen = steal(yard, &mut pass);
    (pass, stolen)
}

fn takes(mut owner: Owner<Task<Unnamed>>) -> (Owner<Task<Unnamed>>, Option<u32>) {
    let taken = place_of(owner.take_own());
    (owner, taken)
}

// A join of threads stands between two steps of which one sees the other.
fn in_two_threads(rt: &(impl Abort + Threads), alloc: Global) -> Seen {
    let (yard, mut owner, _first, pass) = two(alloc).expect(rt, "a yard");
    put(rt, alloc, &mut owner, 2);
    let shared = &yard;
    let ((pass, stolen), owner) = thread::join(rt, move || steals(shared, pass), move || owner);
    let ((owner, taken), pass) = thread::join(rt, move || takes(owner), move || pass);
    let (_, (_, after)) = thread::join(rt, move || owner, move || steals(shared, pass));
    (stolen, taken, after)
}

// Which worker a joined pass is of, and what it steals before the join and after it.
fn joined(rt: &impl Abort, alloc: Global) -> (u32, Option<u32>, Option<u32>) {
    let (yard, mut owner, first, mut second) = two(alloc).expect(rt, "a yard");
    put(rt, alloc, &mut owner, 2);
    let before = steal(&yard, &mut second);
    let mut pass = yard.join(second, first);
    (pass.worker(), before, steal(&yard, &mut pass))
}

// Puts forty tasks and takes them. Whether they come in their order, and then no more.
fn in_order(rt: &impl Abort, alloc: Global) -> bool {
    let (_yard, mut owner, _first, _second) = two(alloc).expect(rt, "a yard");
    put(rt, alloc, &mut owner, 40);
    for place in 1..41 {
        if place_of(owner.take_own()) != Some(place) {
            return false;
        }
    }
    owner.take_own().is_none()
}

#[test]
fn a_task_is_stolen_or_taken_once(rt: HostRuntime) {
    let seen = (Some(1), Some(2), None);
    assert_eq!(rt; in_one_thread(&rt, rt.alloc()), seen);
    assert_eq!(rt; in_two_threads(&rt, rt.alloc()), seen);
}

#[test]
fn a_joined_pass_is_the_firsts(rt: HostRuntime) {
    assert_eq!(rt; joined(&rt, rt.alloc()), (1, Some(1), Some(2)));
}

#[test]
fn what_was_put_first_comes_first(rt: HostRuntime) {
    assert!(rt; in_order(&rt, rt.alloc()));
}
