// The simulator: a timetable stepped through on a board sheet.
ghost use Rattle.std.specs.Prelude.{◌≡◌};
ghost use Rattle.rules.specs.Simulation.{simulate as rules-simulate};
ghost use Rattle.simulator.specs.Answers.{as_answer};
ghost use Rattle.frames.specs.Demands.{SimulatorDemands};

use model::layout::Numbers;
use rules::Refusal;
use simulate_text::simulate_paper;
use simulator::answer::Simulation;

// Makes so many steps on a timetable, from the steps already made: how that ends, the steps made in all, and the state that it
// leaves; or the refusal of a text.
pub fn simulate(sheet: &[u8], paper: &[u8], made: u64, steps: u64) -> Result<Simulation, Refusal>
    ensures answer { as_answer result ≡ rules-simulate sheet.now paper.now made steps }
    ensures simulator_demands { SimulatorDemands sheet.now paper.now made steps (as_answer result) }
{
    let mut numbers = Numbers::new();
    let job = instance::job_of(sheet, &mut numbers)?;
    simulate_paper(&job, paper, made, steps)
}
