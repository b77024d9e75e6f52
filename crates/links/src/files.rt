// The files of a task at one end, one after the other, lowest first.
ghost use Rattle.std.specs.Prelude.{length};
ghost use Rattle.model.specs.Jobs.{instance_in};
ghost use Rattle.links.specs.Chains.{has_at, At};

use super::Links;
use super::chains::End;

// Those from `at` on.
#[derive(Drop)]
pub struct Files<'a> {
    links: &'a Links<'a>,
    end: End,
    task: usize,
    at: Option<usize>,
    ghost reached: { At (length links.now.job.files.now) (has_at end (instance_in links.now.job) task) at },
}

impl Links<'_> {
    ghost use Rattle.std.specs.Prelude.{length, ◌<◌};
    ghost use Rattle.links.specs.Files.{From};

    // The files that have the task at that end.
    pub fn files(&self, end: End, task: usize) -> Files<'_>
        requires { task < length self.now.job.tasks.now }
        ensures { From self.now.job end task result }
    {
        Files {
            links: self,
            end,
            task,
            at: self.first(end, task),
        }
    }
}

impl Iterator for Files<'_> {
    ghost use Rattle.std.specs.Prelude.{length, ◌-◌};
    ghost use Rattle.std.specs.Iterator.{at_most};
    ghost use Rattle.links.specs.Files.{GivesFile, place};

    type Item = usize;

    ghost next_gives = { GivesFile };

    ghost remaining = { λ s. at_most (length s.links.now.job.files.now - place s) };

    fn next(&mut self) -> Option<usize> {
        let k = self.at?;
        self.at = self.links.next(self.end, k);
        Some(k)
    }
}
