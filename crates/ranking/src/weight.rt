// The weights of document 01: twice a task's upward rank.
ghost use Rattle.std.specs.Prelude.{◌≡◌, ℕ, ◌+◌, ◌<◌, get_or, length};
ghost use Rattle.rules.specs.Limits.{max_tasks};
ghost use Rattle.rules.specs.Scheduling.{weight as weight_of};
ghost use Rattle.rules.specs.Promises.{WellFormed};
ghost use Rattle.model.specs.Jobs.{instance_in};
ghost use Rattle.ranking.specs.Weights.{heaviest_reader, WeightsFrom};

use links::{End, Links};
use model::colour::Colour;
use rules::Board;

// The greatest, over the files that task i makes, of move time plus reader's weight; 0 if it makes none.
fn heaviest_reader(links: &Links, weights: &[u64; Board::MAX_TASKS], i: usize) -> u64
    requires well_formed { WellFormed (instance_in links.now.job) }
    requires weights_from { WeightsFrom (instance_in links.now.job) weights.now (i + 1) }
    requires i_lt_tasks { i < length links.now.job.tasks.now }
    ensures { result ≡ heaviest_reader (instance_in links.now.job) i }
{
    let mut most: u64 = 0;
    for k in links.files(End::Maker, i) {
        let reader = links.job.reader(k);
        most = most.max(links.job.move_time(k) + weights[reader]);
    }
    most
}

// The weight of each task, from the last task down: a file's reader comes behind its maker.
pub fn weights(links: &Links) -> [u64; Board::MAX_TASKS]
    requires { WellFormed (instance_in links.now.job) }
    ensures value { (i : ℕ) → i < length links.now.job.tasks.now → get_or result i 0 ≡ weight_of (instance_in links.now.job) i }
    ensures len { length result ≡ max_tasks }
{
    let mut all = [0; Board::MAX_TASKS];
    for i in (0..links.job.tasks.len()).rev() {
        let time = links.job.run_time(i, Colour::Blue) + links.job.run_time(i, Colour::Red);
        let behind = heaviest_reader(links, &all, i);
        all[i] = time + behind;
    }
    all
}
