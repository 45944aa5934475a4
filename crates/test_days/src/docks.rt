//! Docks: deliveries worked out by hand, and the docks of a day from its start to its end.

use crate::fixtures::worked;
use crate::orders::{TWICE, opening};
use reg_tasks::{Context, Parcel, Task, Unnamed};
use reg_text::DayInput;
use reg_yard::{Dock, Docks};
use std::alloc::Global;
use std::process::Abort;
use std::sync::Wait;

// A transfer to an account that is not there, which touches none.
const ELSEWHERE: &str = "do,2025-03-31,101,102,transfer,1,77,general,5\n";

type Answer = Result<Option<Task<Unnamed>>, Parcel<Unnamed>>;

// What a delivery answered, in a word.
fn word(answer: &Answer) -> &'static str {
    match answer {
        Ok(Some(_)) => "task\n",
        Ok(None) => "waits\n",
        Err(_) => "back\n",
    }
}

// Adds what a delivery answered, and answers its task.
fn note(rt: &impl Abort, told: &mut String, answer: Answer) -> Option<Task<Unnamed>> {
    told.push_str(word(&answer)).expect(rt, "memory");
    answer.unwrap_or(None)
}

// The dock of a place.
fn dock<'c, 'a>(
    rt: &impl Abort,
    alloc: Global,
    context: &'c Context<'a, Unnamed>,
    place: u32,
) -> Dock<'c, 'a, Unnamed> {
    assert!(rt; 1 <= place && place <= context.batch().len());
    let (dock, task) = Dock::new(alloc, context, place).expect(rt, "memory");
    assert!(rt; task.is_none());
    dock
}

// What a task leaves: the parcels of its two accounts.
fn ran(
    rt: &impl Abort,
    alloc: Global,
    context: &Context<Unnamed>,
    task: Option<Task<Unnamed>>,
) -> (Parcel<Unnamed>, Parcel<Unnamed>) {
    let Ok(outcome) = task.expect(rt, "a task").run(alloc, context) else {
        panic!(rt; "memory");
    };
    let (_, _, mut parcels) = outcome.into_parts();
    let second = parcels.pop().expect(rt, "two parcels");
    let first = parcels.pop().expect(rt, "two parcels");
    (first, second)
}

// Delivers both opening values to the first dock of two transfers, and runs its task.
fn left_by_first(
    rt: &impl Abort,
    alloc: Global,
    context: &Context<Unnamed>,
    told: &mut String,
) -> (Parcel<Unnamed>, Parcel<Unnamed>) {
    let mut dock = dock(rt, alloc, context, 1);
    let none = note(rt, told, dock.deliver(opening(rt, alloc, context, 1)));
    assert!(rt; none.is_none());
    let task = note(rt, told, dock.deliver(opening(rt, alloc, context, 2)));
    ran(rt, alloc, context, task)
}

// What the two docks answer, and the place of the task that comes last.
fn two_docks(rt: &impl Abort, alloc: Global) -> String {
    let DayInput { rules, book, batch } = worked(rt, alloc, TWICE);
    let context = Context::<Unnamed>::of(alloc, &book, &rules, &batch).expect(rt, "memory");
    let mut told = String::new(alloc);
    let (first, second) = left_by_first(rt, alloc, &context, &mut told);
    let (again, _) = left_by_first(rt, alloc, &context, &mut told);
    let mut dock = dock(rt, alloc, &context, 2);
    note(rt, &mut told, dock.deliver(opening(rt, alloc, &context, 1)));
    note(rt, &mut told, dock.deliver(first));
    note(rt, &mut told, dock.deliver(again));
    let task = note(rt, &mut told, dock.deliver(second));
    note(rt, &mut told, dock.deliver(opening(rt, alloc, &context, 1)));
    let place = task.expect(rt, "the second task").place();
    format!(in alloc; "{}{}\n", told, place).expect(rt, "memory")
}

// What the docks of two transfers answer, one parcel after another.
fn whole_day<R: Wait + Abort>(rt: &R, alloc: Global) -> String {
    let DayInput { rules, book, batch } = worked(rt, alloc, TWICE);
    let context = Context::<Unnamed>::of(alloc, &book, &rules, &batch).expect(rt, "memory");
    let (docks, tasks) = Docks::new(alloc, &context).expect(rt, "memory");
    assert!(rt; tasks.is_empty());
    let mut told = String::new(alloc);
    let one = opening(rt, alloc, &context, 1);
    let two = opening(rt, alloc, &context, 2);
    deliver_both(rt, alloc, &context, &docks, (one, two), &mut told);
    told
}

// Delivers two parcels, runs the task that comes of them, and so on, until none comes.
fn deliver_both<R: Wait + Abort>(
    rt: &R,
    alloc: Global,
    context: &Context<Unnamed>,
    docks: &Docks<Unnamed>,
    parcels: (Parcel<Unnamed>, Parcel<Unnamed>),
    told: &mut String,
) {
    let mut parcels = parcels;
    for _ in 0..3 {
        let (one, two) = parcels;
        note(rt, told, docks.deliver(rt, one));
        let Some(task) = note(rt, told, docks.deliver(rt, two)) else {
            return;
        };
        parcels = ran(rt, alloc, context, Some(task));
    }
}

// The places of the tasks that await nothing.
fn at_once(rt: &impl Abort, alloc: Global, instructions: &str) -> String {
    let DayInput { rules, book, batch } = worked(rt, alloc, instructions);
    let context = Context::<Unnamed>::of(alloc, &book, &rules, &batch).expect(rt, "memory");
    let (_, tasks) = Docks::new(alloc, &context).expect(rt, "memory");
    let mut told = String::new(alloc);
    for task in &tasks {
        let line = format!(in alloc; "{}\n", task.place()).expect(rt, "memory");
        told.push_str(line.as_str()).expect(rt, "memory");
    }
    told
}

#[test]
fn a_dock_takes_each_parcel_that_it_awaits_once(rt: HostRuntime) {
    let told = two_docks(&rt, rt.alloc());
    assert_eq!(rt;
        told.as_str(),
        "\
waits
task
waits
task
back
waits
back
task
back
2
"
    );
}

#[test]
fn docks_find_the_place_that_awaits_a_parcel(rt: HostRuntime) {
    let told = whole_day(&rt, rt.alloc());
    assert_eq!(rt; told.as_str(), "waits\ntask\nwaits\ntask\nback\nback\n");
}

#[test]
fn a_task_that_awaits_nothing_is_there_at_once(rt: HostRuntime) {
    assert_eq!(rt; at_once(&rt, rt.alloc(), ELSEWHERE).as_str(), "1\n");
    assert_eq!(rt; at_once(&rt, rt.alloc(), TWICE).as_str(), "");
}
