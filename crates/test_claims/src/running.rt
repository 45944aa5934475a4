//! Tasks that workers run. What no clause says: that workers end with all tasks run, and that want of memory in one
//! task is told.

ghost use Rattle.std.specs.Prelude.{◌≡◌, ◌≤◌, map, IfOk};
ghost use Rattle.reg_base.specs.Rising.{count_up};

use reg_base::NoMemory;
use reg_deques::Numbered;
use reg_run::{Do, Outcome, run};
use std::alloc::Global;
use std::thread::Threads;

const JOBS: u32 = 40;

// A task: its number is to be doubled.
#[derive(Drop)]
struct Job {
    number: u32,
    ghost within: { (1 ≤ number) × (number ≤ 40) },
}

impl Numbered for Job {
    ghost number = { λ j. j.number };
}

// Doubles each number but one, for which there is no memory. A worker notes the numbers that it doubled.
#[derive(Drop)]
struct Doubling {
    lacking: u32,
}

impl Do<Job, u32, Vec<u32>> for Doubling {
    ghost use Rattle.std.specs.Prelude.{◌≡◌, ◌+◌, map};

    ghost count = { λ _. 40 };

    ghost ready = { λ _. Unit {0} };

    ghost promises = { λ _ number answer. answer ≡ number + number };

    ghost noted = { λ _ answers notes. answers ≡ map (λ n. n + n) notes.items };

    fn count(&self) -> u32 {
        JOBS
    }

    fn number(&self, task: &Job) -> u32 {
        task.number
    }

    fn begin(&self, alloc: Global, _worker: u32) -> Vec<u32> {
        Vec::new(alloc)
    }

    fn run(
        &self,
        _alloc: Global,
        _worker: u32,
        _stolen: bool,
        task: Job,
        notes: &mut Vec<u32>,
    ) -> Result<u32, NoMemory> {
        let number = task.number;
        if number == self.lacking {
            return Err(NoMemory);
        }
        notes.push(number)?;
        Ok(number + number)
    }
}

fn make_jobs(alloc: Global) -> Result<Vec<Job>, NoMemory>
    ensures { IfOk result (λ jobs. map (λ j. j.number) jobs.items ≡ count_up 1 40) }
{
    let mut jobs = Vec::new(alloc);
    for before in 0..JOBS {
        jobs.push(Job { number: before + 1 })?;
    }
    Ok(jobs)
}

// How many answers name a worker that noted their number.
fn count_noted(outcome: &Outcome<u32, Vec<u32>>) -> u32 {
    let mut noted: u32 = 0;
    for ran in &outcome.answers {
        if let Some(notes) = outcome.notes.get(ran.worker as usize)
            && notes.contains(&ran.number)
        {
            noted = noted.saturating_add(1);
        }
    }
    noted
}

// How many workers have notes, how many answers name a worker that noted their number, and the last answer.
fn run_jobs<R: Threads + Sync>(
    rt: &R,
    alloc: Global,
    workers: u32,
    lacking: u32,
) -> Result<(usize, u32, Option<u32>), NoMemory>
    requires { (1 ≤ workers) × (workers ≤ 8) }
{
    let jobs = make_jobs(alloc)?;
    let outcome = run(rt, alloc, &Doubling { lacking }, jobs, workers)?;
    let last = outcome.answers.last().map(|ran| ran.answer);
    Ok((outcome.notes.len(), count_noted(&outcome), last))
}

#[test]
fn one_worker_runs_all_tasks(rt: HostRuntime) {
    assert_eq!(rt;
        run_jobs(&rt, rt.alloc(), 1, 0).ok(),
        Some((1, 40, Some(80)))
    );
}

#[test]
fn eight_workers_run_all_tasks(rt: HostRuntime) {
    assert_eq!(rt;
        run_jobs(&rt, rt.alloc(), 8, 0).ok(),
        Some((8, 40, Some(80)))
    );
}

#[test]
fn a_task_without_memory_is_told(rt: HostRuntime) {
    assert!(rt; run_jobs(&rt, rt.alloc(), 4, 17).is_err());
}
