// A planner, with a buffer as long as a text may be.
ghost use Rattle.std.specs.Prelude.{◌≡◌, ◌≤◌, length};
ghost use Rattle.rules.specs.Limits.{max_text};
ghost use Rattle.rules.specs.Calls.{plan as rules-plan};
ghost use Rattle.plan_text.specs.Answers.{as_answer};
ghost use Rattle.frames.specs.Planners.{as_planner};
ghost use Rattle.console.specs.LongEnough.{LongEnough};

use frames::{Answer, Planner};

// The planner on a sheet. Such a buffer is never too short (rules' promise `PlansShort`), so 31 is not its answer.
pub fn plan(planner: Planner, sheet: &[u8], out: &mut [u8]) -> Answer
    requires { max_text ≤ length out.old }
    ensures out_after { as_answer result out.new ≡ rules-plan (as_planner planner) sheet.now out.old }
    ensures long_enough { LongEnough result.written out.new }
{
    frames::plan(planner, sheet, out)
}
