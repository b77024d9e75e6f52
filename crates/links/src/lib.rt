// The files of each task, as chains made once for a job: those that it makes, and those that it reads.
#![tactic(auto)]

ghost use Rattle.rules.specs.Scheduling.{reads, makes};
ghost use Rattle.model.specs.Jobs.{instance_in};
ghost use Rattle.links.specs.Chains.{Chained};

use chains::{Chains, chain};
use model::job::Job;

pub mod chains;
pub mod files;

pub use chains::End;

// A job, and the chains of its files by their makers and by their readers.
#[derive(Drop)]
pub struct Links<'a> {
    pub job: Job<'a>,
    made: Chains,
    read: Chains,
    ghost made_chained: { Chained (instance_in job) (makes (instance_in job)) made },
    ghost read_chained: { Chained (instance_in job) (reads (instance_in job)) read },
}

impl Links<'_> {
    ghost use Rattle.std.specs.Prelude.{◌≡◌, ℕ, ◌<◌, suc, true, length};
    ghost use Rattle.model.specs.Jobs.{instance_in};
    ghost use Rattle.links.specs.Chains.{Next, has_at};

    // The chains of a job.
    pub fn new(job: Job<'_>) -> Links<'_>
        ensures { result.job ≡ job.entry }
    {
        Links {
            job,
            made: chain(&job, End::Maker),
            read: chain(&job, End::Reader),
        }
    }

    // The first of the files that have the task at that end. The arms here and in `next` name a field each: a closure would be longer.
    fn first(&self, end: End, task: usize) -> Option<usize>
        requires { task < length self.now.job.tasks.now }
        ensures { Next (length self.now.job.files.now) (has_at end (instance_in self.now.job) task) 0 result }
    {
        match end {
            End::Maker => self.made.first(task),
            End::Reader => self.read.first(task),
        }
    }

    // The next of them behind file k.
    fn next(&self, end: End, k: usize) -> Option<usize>
        requires { k < length self.now.job.files.now }
        ensures { (i : ℕ) → has_at end (instance_in self.now.job) i k ≡ true →
            Next (length self.now.job.files.now) (has_at end (instance_in self.now.job) i) (suc k) result }
    {
        match end {
            End::Maker => self.made.next(k),
            End::Reader => self.read.next(k),
        }
    }
}
