// What the trials of one round go by, and the trials of one task.
ghost use Rattle.std.specs.Prelude.{◌≡◌, ◌<◌, ◌≤◌, ℕ, IfSome, length};
ghost use Rattle.rules.specs.Scheduling.{tried as rules-tried};
ghost use Rattle.model.specs.Colours.{as_colour};
ghost use Rattle.model.specs.Layout.{last_start};
ghost use Rattle.staircase.specs.Steps.{as_option};
ghost use Rattle.starts.specs.Kept.{StairsBounds};
ghost use Rattle.selection.specs.Choices.{as_choice, stairs_in, ChoiceBounds, IdleBounds};

use super::trial::earlier;
use model::colour::{ByColour, Colour};
use model::finishes::AnyFinishes;
use model::job::Job;
use model::trial::Trial;
use needs::table::Needs;
use staircase::{Staircase, Step};
use starts::memory::Memory;
use starts::start::{earliest_start, processor_start};

// Whether the planner looks at memory; the job; what is kept beside the partial schedule, of the two staircases their steps; start 1 of both colours.
#[derive(Clone, Copy)]
pub struct Trials<'a> {
    pub memory: Memory,
    pub job: Job<'a>,
    pub needs: &'a Needs,
    pub stairs: ByColour<&'a [Step]>,
    pub idle: ByColour<u64>,
    ghost stairs_bounds: { StairsBounds (stairs_in stairs) },
    ghost idle_bounds: { IdleBounds idle },
}

// A task on a colour, if the colour fits.
fn tried(task: usize, colour: Colour, free: Option<u64>) -> Option<Trial>
    requires { IfSome free (λ t. t ≤ last_start) }
    ensures result_value { as_choice result ≡ rules-tried task (as_colour colour) (as_option free) }
    ensures choice_bounds { (n : ℕ) → task < n → ChoiceBounds n result }
{
    let start = free?;
    Some(Trial {
        task,
        colour,
        start,
    })
}

impl Trials<'_> {
    ghost use Rattle.std.specs.Prelude.{true, ◌≡◌, ◌<◌};
    ghost use Rattle.rules.specs.Scheduling.{Partial, ready, both_colours};
    ghost use Rattle.model.specs.Jobs.{instance_in};
    ghost use Rattle.model.specs.Layout.{Entries, LastBoundsOn};
    ghost use Rattle.model.specs.Jobs.{partial_by};
    ghost use Rattle.starts.specs.Kept.{Kept, StairsBounds};
    ghost use Rattle.starts.specs.Memories.{as_memory};
    ghost use Rattle.selection.specs.Choices.{as_choice, ChoiceBounds};
    ghost use Rattle.selection.specs.Trials.{TrialsOf};

    // Of a round, with start 1 worked out.
    pub fn new<'a>(
        memory: Memory,
        job: Job<'a>,
        finishes: &AnyFinishes,
        needs: &'a Needs,
        stairs: &'a ByColour<Staircase>,
    ) -> Trials<'a>
        requires stairs_bounds { StairsBounds stairs.now }
        requires last_bounds { LastBoundsOn job.board finishes.now }
        ensures same { (result.memory ≡ memory) × (result.job ≡ job.entry) }
        ensures trials_of { (L : Entries) →
            Kept (instance_in job.entry) (partial_by job.entry L finishes.now) needs.now stairs.now →
            TrialsOf (partial_by job.entry L finishes.now) result }
    {
        Trials {
            memory,
            job,
            needs,
            stairs: ByColour {
                blue: stairs.blue.steps(),
                red: stairs.red.steps(),
            },
            idle: ByColour {
                blue: processor_start(job.board, finishes, Colour::Blue),
                red: processor_start(job.board, finishes, Colour::Red),
            },
        }
    }

    // A ready task on both colours: the earlier finish, ties to blue.
    pub fn both_colours(&self, task: usize) -> Option<Trial>
        requires { task < length self.now.job.tasks.now }
        ensures result_value { (Q : Partial) → TrialsOf Q self.now →
            ready (instance_in self.now.job) Q.schedule task ≡ true →
            as_choice result ≡ both_colours (as_memory self.now.memory) (instance_in self.now.job) Q task }
        ensures choice_bounds { ChoiceBounds (length self.now.job.tasks.now) result }
    {
        let need = self.needs.of(task);
        let on_blue = earliest_start(
            self.memory,
            need,
            self.stairs.blue,
            self.idle.blue,
            Colour::Blue,
        );
        let on_red = earliest_start(
            self.memory,
            need,
            self.stairs.red,
            self.idle.red,
            Colour::Red,
        );
        let first = tried(task, Colour::Blue, on_blue);
        let second = tried(task, Colour::Red, on_red);
        earlier(&self.job, first, second)
    }
}
