//! Jobs whose returns are counted.

use std::alloc::Global;
use std::sync::Wait;
use std::test::Fail;
use std::thread::Threads;
use td_workers::{Job, JobSource, Stop, work_all};

/// A job: doubles its number.
#[derive(Drop)]
struct Doubling {
    number: u64,
}

/// What was made of it, and whether the thread that takes the jobs in did it.
#[derive(Drop)]
struct Doubled {
    value: u64,
    here: bool,
}

impl Job<Doubled> for Doubling {
    ghost does = { λ _ _. Unit {0} };

    ghost here = { λ made. made.here };

    fn work(self) -> Doubled {
        Doubled {
            value: self.number.wrapping_mul(2),
            here: false,
        }
    }

    fn work_here(self) -> Doubled {
        Doubled {
            value: self.number.wrapping_mul(2),
            here: true,
        }
    }
}

/// A job source of so many jobs, which counts for each how often its double came back under its number, and how many
/// were done by the thread that takes them in.
#[derive(Drop)]
struct Counting {
    jobs: u64,
    returns: Vec<u64>,
    here: u64,
}

impl JobSource<Doubled, Doubling> for Counting {
    ghost goes = { λ _ _. Unit {0} };

    ghost ready = { λ _. Unit {0} };

    ghost waits = { λ _ _. Unit {0} };

    ghost admits = { λ _ _ _ _. Unit {0} };

    ghost closes = { λ _ _. Unit {0} };

    ghost parts = { λ _ _ _ _. Unit {0} };

    ghost stops = { λ _ _ _. Unit {0} };

    ghost goes_itself = { λ _. tt };

    ghost goes_on = { λ _ _ _ _ _. tt };

    ghost stops_on = { λ _ _ _ _ _ _. tt };

    ghost stops_memory = { λ _ _ _. tt };

    fn next(&mut self, number: u64) -> Result<Option<Doubling>, Stop> {
        if number > self.jobs {
            return Ok(None);
        }
        match self.returns.push(0) {
            Ok(()) => Ok(Some(Doubling { number })),
            Err(_) => Err(Stop::Memory),
        }
    }

    fn part(&mut self, number: u64, made: Doubled) -> Result<(), Stop> {
        let Doubled { value, here } = made;
        self.here = self.here.saturating_add(u64::from(here));
        if value != number.wrapping_mul(2) {
            return Err(Stop::Failed);
        }
        match self.returns.get_mut(number.wrapping_sub(1) as usize) {
            None => Err(Stop::Failed),
            Some(count) => {
                *count = count.saturating_add(1);
                Ok(())
            }
        }
    }
}

/// Whether each of so many jobs comes back once. Up to 64 of them each have a thread of their own.
fn all_come_back<R: Threads + Wait>(rt: &R, alloc: Global, jobs: u64) -> bool {
    let job_source = Counting {
        jobs,
        returns: Vec::new(alloc),
        here: 0,
    };
    let (stop, job_source) = work_all(rt, alloc, job_source);
    let complete = stop.is_ok() && job_source.returns.len() as u64 == jobs;
    let once = job_source.returns.iter().all(|count| *count == 1);
    let elsewhere = jobs > 64 || job_source.here == 0;
    drop(job_source);
    complete && once && elsewhere
}

#[test]
fn each_job_comes_back_once(rt: HostRuntime) -> Result<(), Fail> {
    for jobs in [0, 1, 64, 65, 200] {
        assert!(rt; all_come_back(&rt, rt.alloc(), jobs));
    }
    Ok(())
}
