//! The thread that takes jobs in.

ghost use Rattle.std.specs.Prelude.{◌≡◌, ℕ, ◌+◌, ◌<◌, ◌≤◌, [], ◌∷◌, ◌++◌, true, vec_len, IfErr, IfOk, OnOk};
ghost use Rattle.std.specs.Prelude.{MatchOption};
ghost use Rattle.td_workers.specs.Jobs.{jobs};
ghost use Rattle.td_workers.specs.JobSources.{ClosesSource, SourceMoves, OfEach, AssignsJob, AcceptsJob, RunsJobs};

use crate::slots::{bit, free_slot};
use crate::source::{Job, JobSource, Stop};
use crate::worker::{Worker, finish, start};
use std::alloc::Global;
use std::sync::Wait;
use std::sync::atomic::{AtomicU64, Ordering};
use std::thread;
use std::thread::{Scope, Threads};

/// Takes in the jobs of a job source until no more come, each with the next number from 1, and gives back what was made
/// of each. It waits for all that were begun.
pub fn work_all<
    D: Send + Drop,
    J: Job<D> + Send + Drop,
    H: JobSource<D, J> + Drop,
    R: Threads + Wait,
>(rt: &R, alloc: Global, job_source: H) -> (Result<(), Stop>, H)
    requires { H.ready job_source }
    ensures goes { H.goes job_source result.1 }
    ensures ready { OnOk result.0 (H.ready result.1) }
    ensures worked { OnOk result.0
        (RunsJobs H.admits H.closes J.does J.here H.parts true job_source 0 [] result.1) }
    ensures stops { IfErr result.0 (λ why. H.stops job_source why result.1) }
{
    let ended = AtomicU64::new(0);
    let bits = &ended;
    thread::scope(
        thread::scope_env(),
        rt,
        move |scope| -> (Result<(), Stop>, H)
            requires { H.ready job_source }
            ensures { H.goes job_source result.1 × OnOk result.0 (H.ready result.1)
                × OnOk result.0 (RunsJobs H.admits H.closes J.does J.here H.parts true job_source 0
                []
                result.1)
                × IfErr result.0 (λ why. H.stops job_source why result.1) }
        { work_within(rt, scope, alloc, bits, job_source) },
    )
}

/// The same within a scope for the workers.
fn work_within<
    's,
    'b: 's,
    E,
    D: Send + Drop + 's,
    J: Job<D> + Send + Drop + 's,
    H: JobSource<D, J>,
    R: Threads,
>(
    rt: &R,
    scope: &Scope<'s, E>,
    alloc: Global,
    ended: &'b AtomicU64,
    job_source: H,
) -> (Result<(), Stop>, H)
    requires { H.ready job_source }
    ensures goes { H.goes job_source result.1 }
    ensures ready { OnOk result.0 (H.ready result.1) }
    ensures worked { OnOk result.0
        (RunsJobs H.admits H.closes J.does J.here H.parts true job_source 0 [] result.1) }
    ensures stops { IfErr result.0 (λ why. H.stops job_source why result.1) }
{
    let mut job_source = job_source;
    let mut working = Vec::new(alloc);
    let stop = take_in(rt, scope, ended, &mut working, &mut job_source);
    (stop, job_source)
}

/// Takes in one job after the other, and waits for the last workers once no more come.
fn take_in<
    's,
    'b: 's,
    E,
    D: Send + Drop + 's,
    J: Job<D> + Send + Drop + 's,
    H: JobSource<D, J>,
    R: Threads,
>(
    rt: &R,
    scope: &Scope<'s, E>,
    ended: &'b AtomicU64,
    working: &mut Vec<Worker<D, J>>,
    job_source: &mut H,
) -> Result<(), Stop>
    requires ready { H.ready job_source.old }
    requires none { vec_len working.old ≡ 0 }
    ensures goes { H.goes job_source.old job_source.new }
    ensures ready { OnOk result (H.ready job_source.new) }
    ensures worked { OnOk result
        (RunsJobs H.admits H.closes J.does J.here H.parts true job_source.old 0 [] job_source.new) }
    ensures stops { IfErr result (λ why. H.stops job_source.old why job_source.new) }
{
    'accepting: for count in 0..u64::MAX {
        match accept_job(rt, scope, ended, count + 1, working, job_source) {
            Err(why) => return Err(why),
            Ok(None) => return join_all(rt, working, job_source),
            Ok(Some(())) => {}
        }
    }
    Err(Stop::Memory)
}

/// Waits for the next job, gives back what the workers made that have ended by then, and finds a place for it.
#[tactic(auto, using(crate::proofs::Moving::accepts_job))]
fn accept_job<
    's,
    'b: 's,
    E,
    D: Send + Drop + 's,
    J: Job<D> + Send + Drop + 's,
    H: JobSource<D, J>,
    R: Threads,
>(
    rt: &R,
    scope: &Scope<'s, E>,
    ended: &'b AtomicU64,
    number: u64,
    working: &mut Vec<Worker<D, J>>,
    job_source: &mut H,
) -> Result<Option<()>, Stop>
    requires few { vec_len working.old ≤ 64 }
    requires ready { H.ready job_source.old }
    requires out { OfEach (H.waits job_source.old) (jobs working.old.items) }
    ensures few { vec_len working.new ≤ 64 }
    ensures goes { H.goes job_source.old job_source.new }
    ensures came { IfOk result (λ came. MatchOption came
        (ClosesSource H.ready H.waits H.closes job_source.old job_source.new
        (jobs working.old.items)
        (jobs working.new.items))
        (λ none. AcceptsJob H.ready H.waits H.admits H.closes J.does J.here H.parts job_source.old
        number
        (jobs working.old.items) job_source.new (jobs working.new.items))) }
    ensures stops { IfErr result (λ why. H.stops job_source.old why job_source.new) }
{
    match job_source.next(number) {
        Err(why) => Err(why),
        Ok(None) => Ok(None),
        Ok(Some(job)) => match assign(rt, scope, ended, number, job, working, job_source) {
            Err(why) => Err(why),
            Ok(()) => Ok(Some(())),
        },
    }
}

/// Gives back what the ended workers made, and finds a place for one job more.
fn assign<
    's,
    'b: 's,
    E,
    D: Send + Drop + 's,
    J: Job<D> + Send + Drop + 's,
    H: JobSource<D, J>,
    R: Threads,
>(
    rt: &R,
    scope: &Scope<'s, E>,
    ended: &'b AtomicU64,
    number: u64,
    job: J,
    working: &mut Vec<Worker<D, J>>,
    job_source: &mut H,
) -> Result<(), Stop>
    requires few { vec_len working.old ≤ 64 }
    requires ready { H.ready job_source.old }
    requires came { H.waits job_source.old job }
    requires out { OfEach (H.waits job_source.old) (jobs working.old.items) }
    ensures few { vec_len working.new ≤ 64 }
    ensures goes { H.goes job_source.old job_source.new }
    ensures placed { OnOk result
        (AssignsJob H.ready H.waits H.admits H.closes J.does J.here H.parts job_source.old
        (jobs working.old.items ++ (number, job) ∷ []) job_source.new (jobs working.new.items)) }
    ensures stops { IfErr result (λ why. H.stops job_source.old why job_source.new) }
{
    match reap(rt, ended.swap(0, Ordering::SeqCst), working, job_source) {
        Err(why) => {
            drop(job);
            Err(why)
        }
        Ok(()) => place(scope, ended, number, job, working, job_source),
    }
}

/// Gives back what the workers made whose bits are set.
fn reap<D: Drop, J: Job<D>, H: JobSource<D, J>, R: Threads>(
    rt: &R,
    ended: u64,
    working: &mut Vec<Worker<D, J>>,
    job_source: &mut H,
) -> Result<(), Stop>
    requires few { vec_len working.old ≤ 64 }
    requires ready { H.ready job_source.old }
    requires out { OfEach (H.waits job_source.old) (jobs working.old.items) }
    ensures few { vec_len working.new ≤ 64 }
    ensures goes { H.goes job_source.old job_source.new }
    ensures moves { OnOk result
        (SourceMoves H.ready H.waits H.admits H.closes J.does J.here H.parts job_source.old
        (jobs working.old.items) job_source.new (jobs working.new.items)) }
    ensures stops { IfErr result (λ why. H.stops job_source.old why job_source.new) }
{
    let mut at = 0;
    'reaping: while at < working.len() {
        if ended & bit(working[at].slot) == 0 {
            at += 1;
        } else {
            match take_result_at(rt, at, working, job_source) {
                Err(why) => return Err(why),
                Ok(()) => {}
            }
        }
    }
    Ok(())
}

/// Waits for all workers, and gives back what they made.
fn join_all<D: Drop, J: Job<D>, H: JobSource<D, J>, R: Threads>(
    rt: &R,
    working: &mut Vec<Worker<D, J>>,
    job_source: &mut H,
) -> Result<(), Stop>
    requires few { vec_len working.old ≤ 64 }
    requires ready { H.ready job_source.old }
    requires out { OfEach (H.waits job_source.old) (jobs working.old.items) }
    ensures goes { H.goes job_source.old job_source.new }
    ensures moves { OnOk result
        (SourceMoves H.ready H.waits H.admits H.closes J.does J.here H.parts job_source.old
        (jobs working.old.items) job_source.new []) }
    ensures stops { IfErr result (λ why. H.stops job_source.old why job_source.new) }
{
    'joining: while !working.is_empty() {
        match take_result_at(rt, 0, working, job_source) {
            Err(why) => return Err(why),
            Ok(()) => {}
        }
    }
    Ok(())
}

/// Waits for one of the workers, and gives back what it made.
fn take_result_at<D: Drop, J: Job<D>, H: JobSource<D, J>, R: Threads>(
    rt: &R,
    at: usize,
    working: &mut Vec<Worker<D, J>>,
    job_source: &mut H,
) -> Result<(), Stop>
    requires within { at < vec_len working.old }
    requires few { vec_len working.old ≤ 64 }
    requires ready { H.ready job_source.old }
    requires out { OfEach (H.waits job_source.old) (jobs working.old.items) }
    ensures fewer { vec_len working.new + 1 ≡ vec_len working.old }
    ensures goes { H.goes job_source.old job_source.new }
    ensures moves { OnOk result
        (SourceMoves H.ready H.waits H.admits H.closes J.does J.here H.parts job_source.old
        (jobs working.old.items) job_source.new (jobs working.new.items)) }
    ensures stops { IfErr result (λ why. H.stops job_source.old why job_source.new) }
{
    let worker = working.remove(at);
    finish(rt, worker, job_source)
}

/// Starts a worker for a job where a place is free, and does it here otherwise.
fn place<'s, 'b: 's, E, D: Send + Drop + 's, J: Job<D> + Send + Drop + 's, H: JobSource<D, J>>(
    scope: &Scope<'s, E>,
    ended: &'b AtomicU64,
    number: u64,
    job: J,
    working: &mut Vec<Worker<D, J>>,
    job_source: &mut H,
) -> Result<(), Stop>
    requires few { vec_len working.old ≤ 64 }
    requires ready { H.ready job_source.old }
    requires came { H.waits job_source.old job }
    requires out { OfEach (H.waits job_source.old) (jobs working.old.items) }
    ensures few { vec_len working.new ≤ 64 }
    ensures goes { H.goes job_source.old job_source.new }
    ensures placed { OnOk result
        (AssignsJob H.ready H.waits H.admits H.closes J.does J.here H.parts job_source.old
        (jobs working.old.items ++ (number, job) ∷ []) job_source.new (jobs working.new.items)) }
    ensures stops { IfErr result (λ why. H.stops job_source.old why job_source.new) }
{
    if working.reserve(1).is_err() {
        drop(job);
        return Err(Stop::Memory);
    }
    let Some(slot) = free_slot(working) else {
        return job_source.part(number, job.work_here());
    };
    match start(scope, ended, slot, number, job) {
        Ok(worker) => {
            working.push_reserved(worker);
            Ok(())
        }
        Err(made) => job_source.part(number, made),
    }
}
