//! Worlds of two workers: worked schedules, event by event.

use crate::fixtures::worked;
use crate::orders::{APART, settled, told};
use reg_graph::Event::{Deliver, Pop, Push, Run, Steal};
use reg_graph::{Context, Event, Unnamed, World};
use std::alloc::Global;
use std::process::Abort;

// A transfer, and another that brings back what the first one moved.
const BACK: &str = "\
do,2025-03-31,101,102,transfer,1,2,general,100
do,2025-03-31,201,202,transfer,2,1,general,100
";

// What an event gives, and where the second instruction is then.
fn line(rt: &impl Abort, alloc: Global, world: &mut World<Unnamed>, event: Event) -> String {
    let answer = world.event(event);
    assert!(rt; 2 <= world.context().batch().len());
    let place = world.whereabouts(2);
    format!(in alloc; "{:?}, {:?}\n", answer, place).expect(rt, "memory")
}

// Tries these events one after another, and adds what each gives.
fn play(
    rt: &impl Abort,
    alloc: Global,
    world: &mut World<Unnamed>,
    events: &[Event],
    played: &mut String,
) {
    for event in events {
        let line = line(rt, alloc, world, *event);
        played.push_str(line.as_str()).expect(rt, "memory");
    }
}

// What the events give on a day of these instructions. After the first ones not all instructions are done, after the
// others all are.
fn played(
    rt: &impl Abort,
    alloc: Global,
    instructions: &str,
    first: &[Event],
    others: &[Event],
) -> String {
    let day = worked(rt, alloc, instructions);
    let context = Context::<Unnamed>::of(alloc, &day.book, &day.rules, &day.batch).expect(
        rt, "memory",
    );
    let mut world = World::new(alloc, &context, 2).expect(rt, "memory");
    let mut played = String::new(alloc);
    play(rt, alloc, &mut world, first, &mut played);
    assert!(rt; !world.is_over());
    let Err(mut world) = world.into_settled() else {
        panic!(rt; "not all are done");
    };
    play(rt, alloc, &mut world, others, &mut played);
    assert!(rt; world.is_over());
    let Ok(ended) = world.into_settled() else {
        panic!(rt; "all are done");
    };
    assert_eq!(rt; told(rt, alloc, &ended), settled(rt, alloc, &day));
    played
}

#[test]
fn an_event_that_is_not_possible_has_its_reason(rt: HostRuntime) {
    let first = [
        Run { worker: 0 },
        Deliver { worker: 0 },
        Push { worker: 0 },
        Pop { worker: 2 },
        Steal { worker: 0, from: 0 },
    ];
    let others = [
        Pop { worker: 0 },
        Pop { worker: 0 },
        Pop { worker: 1 },
        Run { worker: 1 },
        Run { worker: 0 },
        Pop { worker: 0 },
    ];
    let played = played(&rt, rt.alloc(), APART, &first, &others);
    assert_eq!(rt;
        played.as_str(),
        "\
Err(NothingToRun), List { worker: 1 }
Err(NothingToDeliver), List { worker: 1 }
Err(NothingToPush), List { worker: 1 }
Err(NoSuchWorker), List { worker: 1 }
Err(OwnDeque), List { worker: 1 }
Ok(()), List { worker: 1 }
Err(HandsFull), List { worker: 1 }
Ok(()), Hand { worker: 1 }
Ok(()), Done
Ok(()), Done
Err(EmptyDeque), Done
"
    );
}

#[test]
fn a_task_that_is_complete_is_pushed_and_stolen(rt: HostRuntime) {
    let first = [Steal { worker: 1, from: 0 }];
    let others = [
        Run { worker: 1 },
        Deliver { worker: 1 },
        Deliver { worker: 1 },
        Push { worker: 1 },
        Steal { worker: 0, from: 1 },
        Run { worker: 0 },
    ];
    let played = played(&rt, rt.alloc(), BACK, &first, &others);
    assert_eq!(rt;
        played.as_str(),
        "\
Ok(()), Dock
Ok(()), Dock
Ok(()), Dock
Ok(()), Hand { worker: 1 }
Ok(()), List { worker: 1 }
Ok(()), Hand { worker: 0 }
Ok(()), Done
"
    );
}
