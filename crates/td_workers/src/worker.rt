//! A worker: a thread that does one job.

ghost use Rattle.std.specs.Prelude.{◌≡◌, ℕ, ◌<◌, true, false, IfOk, IfErr, OnOk};
ghost use Rattle.std.specs.Prelude.{MatchResult};
ghost use Rattle.td_workers.specs.JobSources.{ReturnsResult};

use crate::slots::bit;
use crate::source::{Job, JobSource, Stop};
use std::snapshot::Snapshot;
use std::sync::atomic::{AtomicU64, Ordering};
use std::thread::{Promise, PromisedHandle, Scope, Threads};

/// What a worker promises: that it does this job, on a thread of its own.
#[derive(Drop)]
pub struct JobPromise<J> {
    job: Snapshot<J>,
}

impl<D, J: Job<D>> Promise<Result<D, J>> for JobPromise<J> {
    ghost kept_by = { λ p result. MatchResult result (λ made. J.does p.job.value made
        × J.here made ≡ false) (λ job. job ≡ p.job.value) };
}

/// A worker that was started.
#[derive(Drop)]
pub struct Worker<D, J: Job<D>> {
    /// Its place among those that work at once.
    pub(crate) slot: u32,
    /// The number of its job.
    pub(crate) number: u64,
    handle: PromisedHandle<Result<D, J>, JobPromise<J>>,
}

/// Does a job, and as its last act tells that the worker of this place has ended. Where one that has ended is told of
/// the place before, no thread was started for it, and the job is given back.
fn labour<D, J: Job<D>>(job: J, ended: &AtomicU64, slot: u32) -> Result<D, J>
    ensures ok { IfOk result (λ made. J.does job made × J.here made ≡ false) }
    ensures err { IfErr result (λ back. back ≡ job) }
{
    if ended.load(Ordering::SeqCst) & bit(slot) != 0 {
        return Err(job);
    }
    let made = job.work();
    let _ = ended.fetch_or(bit(slot), Ordering::SeqCst);
    Ok(made)
}

/// Starts a worker at a free place. Where no thread can be started the job is done here.
pub(crate) fn start<'s, 'b: 's, E, D: Send + Drop + 's, J: Job<D> + Send + Drop + 's>(
    scope: &Scope<'s, E>,
    ended: &'b AtomicU64,
    slot: u32,
    number: u64,
    job: J,
) -> Result<Worker<D, J>, D>
    ensures ok { IfOk result (λ w. (w.number ≡ number) × (w.handle.promise.job.value ≡ job)) }
    ensures err { IfErr result (λ made. J.does job made) }
{
    let asked = JobPromise {
        job: Snapshot::of(&job),
    };
    match scope.spawn_with(asked, move || labour(job, ended, slot)) {
        Ok(handle) => Ok(Worker {
            slot,
            number,
            handle,
        }),
        Err(refused) => {
            let _ = ended.fetch_or(bit(slot), Ordering::SeqCst);
            match (refused.value)() {
                Ok(made) => Err(made),
                Err(job) => Err(job.work_here()),
            }
        }
    }
}

/// Waits for a worker, and gives the job source what it made. (No worker gives its job back, since its place was free.)
pub(crate) fn finish<D: Drop, J: Job<D>, H: JobSource<D, J>, R: Threads>(
    rt: &R,
    worker: Worker<D, J>,
    job_source: &mut H,
) -> Result<(), Stop>
    requires ready { H.ready job_source.old }
    requires came { H.waits job_source.old worker.handle.promise.job.value }
    ensures goes { H.goes job_source.old job_source.new }
    ensures parted { OnOk result
        (ReturnsResult H.ready H.waits J.does J.here H.parts job_source.old worker.number
        worker.handle.promise.job.value job_source.new) }
    ensures stops { IfErr result (λ why. H.stops job_source.old why job_source.new) }
{
    let Worker {
        slot: _,
        number,
        handle,
    } = worker;
    let made = match handle.join(rt) {
        Ok(made) => made,
        Err(job) => job.work(),
    };
    job_source.part(number, made)
}
