// The chains of the files at one end.
ghost use Rattle.std.specs.Prelude.{◌≡◌, ℕ, ◌<◌, eqb, length};
ghost use Rattle.rules.specs.Limits.{max_tasks, max_files};
ghost use Rattle.model.specs.Jobs.{instance_in};
ghost use Rattle.links.specs.Chains.{has_at, first_of, next_of, Chained};

use model::job::Job;
use rules::Board;

// An end of a file: the task that makes it, or the one that reads it.
#[derive(Clone, Copy)]
pub enum End {
    Maker,
    Reader,
}

// Where each task's chain begins, and how it goes on behind each file. A file's number fits 16 bits, which keeps a planner's stack small.
#[derive(Clone, Copy)]
pub struct Chains {
    first: [Option<u16>; Board::MAX_TASKS],
    next: [Option<u16>; Board::MAX_FILES],
}

impl Chains {
    // The first file of the task's chain.
    pub fn first(&self, task: usize) -> Option<usize>
        requires { task < max_tasks }
        ensures { result ≡ first_of self.now task }
    {
        self.first[task].map(|k| k as usize)
    }

    // The file behind file k.
    pub fn next(&self, k: usize) -> Option<usize>
        requires { k < max_files }
        ensures { result ≡ next_of self.now k }
    {
        self.next[k].map(|j| j as usize)
    }
}

// The task at that end of file k.
fn task_at(job: &Job, end: End, k: usize) -> usize
    requires { k < length job.now.files.now }
    ensures by_index { (i : ℕ) → eqb result i ≡ has_at end (instance_in job.now) i k }
    ensures upper_bound { result < length job.now.tasks.now }
{
    match end {
        End::Maker => job.maker(k),
        End::Reader => job.reader(k),
    }
}

// Chains the files by their task at that end, from the last file down: each goes before those of its task that are behind it.
pub fn chain(job: &Job, end: End) -> Chains
    ensures { Chained (instance_in job.now) (has_at end (instance_in job.now)) result }
{
    let mut chains = Chains {
        first: [None; Board::MAX_TASKS],
        next: [None; Board::MAX_FILES],
    };
    for k in (0..job.files.len()).rev() {
        let i = task_at(job, end, k);
        chains.next[k] = chains.first[i];
        chains.first[i] = Some(k as u16);
    }
    chains
}
