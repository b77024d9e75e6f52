// The makespan of a schedule.
use super::timetable::Timetable;

impl Timetable<'_> {
    ghost use Rattle.std.specs.Prelude.{◌≡◌, ◌≤◌};
    ghost use Rattle.rules.specs.Validity.{makespan as rules-makespan};
    ghost use Rattle.model.specs.Layout.{last_tick};
    ghost use Rattle.model.specs.Jobs.{instance_in, schedule_in};

    // The greatest finish: document 01's span.
    pub fn makespan(&self) -> u64
        ensures value { result ≡ rules-makespan (instance_in self.now.job) (schedule_in self.now) }
        ensures upper_bound { result ≤ last_tick }
    {
        let mut most = 0;
        for i in 0..self.job.tasks.len() {
            most = self.finish(i).max(most);
        }
        most
    }
}
