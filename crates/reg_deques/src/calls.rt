//! What a worker does with the yard and its pass.

ghost use Rattle.std.specs.Prelude.{◌≡◌, ◌≢◌, ◌<◌, ◌≤◌, ◌∷◌, [], All, Some, slice_get, vec_len, map, set, IfOk, IfSome};
ghost use Rattle.std.specs.Prelude.{IfNone};
ghost use Rattle.std.specs.List.{range_with_len};
ghost use Rattle.crossbeam_deque.specs.Steals.{MatchSteal};
ghost use Rattle.reg_deques.specs.Passes.{stealer_id, deque_pass_id, ticket_view_of};
ghost use Rattle.reg_deques.specs.Tickets.{empty_ticket_view};
ghost use Rattle.reg_deques.specs.Yards.{worker_count, worker_of, deques, deques_of_pass, deques_of_owners, each_owned};
ghost use Rattle.reg_deques.specs.Yards.{views, IsNew, IsPassOf, IsBlank, StealsAt, StealsAny, AllJoin};

use crate::numbered::Numbered;
use crate::owner::Owner;
use crate::pass::{DequePass, Pass};
use crate::stealer::Stealer;
use crate::yard::Yard;
use crossbeam_deque::Steal;
use reg_base::NoMemory;
use std::alloc::Global;

// The most deques of a yard.
const MOST_DEQUES: usize = 8;

// A thief's pass at the deque of one owner.
fn deque_pass_at<T: Numbered + Drop>(owners: &mut Vec<Owner<T>>, k: usize) -> DequePass<T>
    requires within { k < vec_len owners.old }
    ensures of { slice_get (deques_of_owners owners.old.items) k ≡ Some (deque_pass_id result) }
    ensures blank { ticket_view_of result ≡ empty_ticket_view }
    ensures same { (deques_of_owners owners.new.items ≡ deques_of_owners owners.old.items)
        × (each_owned owners.new.items ≡ each_owned owners.old.items) }
{
    owners[k].deque_pass()
}

// A pass at the deques of all owners.
fn pass_at<T: Numbered + Drop>(
    alloc: Global,
    owners: &mut Vec<Owner<T>>,
    worker: u32,
) -> Result<Pass<T>, NoMemory>
    ensures worker { IfOk result (λ p. worker_of p ≡ worker) }
    ensures of { IfOk result (λ p. deques_of_pass p ≡ deques_of_owners owners.old.items) }
    ensures blank { IfOk result IsBlank }
    ensures same { (deques_of_owners owners.new.items ≡ deques_of_owners owners.old.items)
        × (each_owned owners.new.items ≡ each_owned owners.old.items) }
{
    let mut deque_passes = Vec::new(alloc);
    for k in 0..owners.len() {
        deque_passes.push(deque_pass_at(owners, k))?;
    }
    Ok(Pass {
        worker,
        deque_passes,
    })
}

// Joins one pass with another, deque by deque.
fn join_deque_passes<T: Numbered + Drop>(
    stealers: &Vec<Stealer<T>>,
    deque_passes: &mut Vec<DequePass<T>>,
    mut others: Vec<DequePass<T>>,
)
    requires of { map deque_pass_id deque_passes.old.items ≡ map stealer_id stealers.now.items }
    requires others { map deque_pass_id others.items ≡ map stealer_id stealers.now.items }
    ensures of { map deque_pass_id deque_passes.new.items ≡ map deque_pass_id deque_passes.old.items }
    ensures joined { AllJoin (map ticket_view_of deque_passes.old.items) (map ticket_view_of others.items)
        (map ticket_view_of deque_passes.new.items) }
{
    while let Some(other) = others.pop() {
        let k = others.len();
        stealers[k].join(&mut deque_passes[k], other);
    }
}

impl<T: Numbered + Drop> Yard<T> {
    /// A deque for each of 1 to 8 workers, in which there is room for 16 tasks at first, its owner, and a pass for each
    /// worker. Owners and passes are in the order of the workers, from worker 0 on.
    ///
    /// # Errors
    ///
    /// `NoMemory` if memory ran out.
    pub fn new(
        alloc: Global,
        workers: u32,
    ) -> Result<(Yard<T>, Vec<Owner<T>>, Vec<Pass<T>>), NoMemory>
        requires some { 1 ≤ workers }
        requires few { workers ≤ 8 }
        ensures counts { IfOk result
            (λ made. (worker_count made.0 ≡ workers) × (vec_len made.1 ≡ workers) × (vec_len made.2 ≡ workers)) }
        ensures owners { IfOk result (λ made. deques_of_owners made.1.items ≡ deques made.0) }
        ensures fresh { IfOk result (λ made. All IsNew (each_owned made.1.items)) }
        ensures passes { IfOk result (λ made. All (λ p. IsPassOf made.0 p × IsBlank p) made.2.items) }
        ensures numbers { IfOk result (λ made. map worker_of made.2.items ≡ range_with_len 0 workers) }
    {
        let mut owners = Vec::new(alloc);
        let mut stealers = Vec::new(alloc);
        for _ in 0..workers {
            let owner = Owner::new(alloc)?;
            stealers.push(Stealer::of(&owner)?)?;
            owners.push(owner)?;
        }
        let mut passes = Vec::new(alloc);
        for worker in 0..workers {
            passes.push(pass_at(alloc, &mut owners, worker)?)?;
        }
        Ok((Yard { stealers }, owners, passes))
    }

    /// How many deques there are.
    pub fn workers(&self) -> usize
        ensures { result ≡ worker_count self.now }
    {
        self.stealers.len()
    }

    // Takes the first task of another worker, or answers whether its deque was empty or somebody was quicker.
    fn try_steal(&self, pass: &mut Pass<T>, from: u32) -> Steal<T>
        requires of { IsPassOf self.now pass.old }
        requires within { from < worker_count self.now }
        requires other { from ≢ worker_of pass.old }
        ensures of { deques_of_pass pass.new ≡ deques_of_pass pass.old }
        ensures worker { worker_of pass.new ≡ worker_of pass.old }
        ensures rule { MatchSteal result (views pass.new ≡ views pass.old) (views pass.new ≡ views pass.old)
            (λ t. StealsAt from (views pass.old) (T.number t) (views pass.new)) }
    {
        let at = from as usize;
        self.stealers[at].steal(&mut pass.deque_passes[at])
    }

    /// Takes the first task of the worker `from`, counted from 0, if there is one and nobody is quicker. The pass must
    /// be of this yard, and `from` a worker of it other than the pass's own.
    pub fn steal(&self, pass: &mut Pass<T>, from: u32) -> Option<T>
        requires of { IsPassOf self.now pass.old }
        requires within { from < worker_count self.now }
        requires other { from ≢ worker_of pass.old }
        ensures of { deques_of_pass pass.new ≡ deques_of_pass pass.old }
        ensures worker { worker_of pass.new ≡ worker_of pass.old }
        ensures some { IfSome result (λ t. StealsAt from (views pass.old) (T.number t) (views pass.new)) }
        ensures none { IfNone result (views pass.new ≡ views pass.old) }
    {
        match self.try_steal(pass, from) {
            Steal::Success(task) => Some(task),
            Steal::Empty | Steal::Retry => None,
        }
    }

    /// Tries to take the first task of each other worker, in rising number, until it gets one. If it gets none, the
    /// answer is `Retry` if somebody was quicker at a deque, and `Empty` if each of them was empty. The pass must be of
    /// this yard.
    pub fn steal_any(&self, pass: &mut Pass<T>) -> Steal<T>
        requires of { IsPassOf self.now pass.old }
        ensures of { deques_of_pass pass.new ≡ deques_of_pass pass.old }
        ensures worker { worker_of pass.new ≡ worker_of pass.old }
        ensures rule { MatchSteal result (views pass.new ≡ views pass.old) (views pass.new ≡ views pass.old)
            (λ t. StealsAny (worker_of pass.old) (views pass.old) (T.number t) (views pass.new)) }
    {
        let own = pass.worker();
        let mut outrun = false;
        for from in 0..self.stealers.len().min(MOST_DEQUES) as u32 {
            if from != own {
                match self.try_steal(pass, from) {
                    Steal::Success(task) => return Steal::Success(task),
                    Steal::Empty => {}
                    Steal::Retry => outrun = true,
                }
            }
        }
        if outrun { Steal::Retry } else { Steal::Empty }
    }

    /// Makes one pass of two of this yard, which knows what both know. It is a pass of the worker that has the first.
    pub fn join(&self, pass: Pass<T>, other: Pass<T>) -> Pass<T>
        requires of { IsPassOf self.now pass }
        requires other { IsPassOf self.now other }
        ensures of { IsPassOf self.now result }
        ensures worker { worker_of result ≡ worker_of pass }
        ensures joined { AllJoin (views pass) (views other) (views result) }
    {
        let Pass {
            worker,
            mut deque_passes,
        } = pass;
        let Pass {
            worker: _,
            deque_passes: others,
        } = other;
        join_deque_passes(&self.stealers, &mut deque_passes, others);
        Pass {
            worker,
            deque_passes,
        }
    }
}
