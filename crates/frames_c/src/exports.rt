// The public calls for C and Rust: a text as a pointer and a length, an answer as numbers in a lent array.
ghost use Rattle.std.specs.Prelude.{◌≡◌, if◌then◌else◌, nat_le, length};
ghost use Rattle.rules.specs.Calls.{mark as rules-mark, fault_line, overwritten, plan as rules-plan};
ghost use Rattle.rules.specs.Scheduling.{plain, heft, min_min, mem_heft, mem_min_min};
ghost use Rattle.rules.specs.Simulation.{simulate as rules-simulate};
ghost use Rattle.rules.specs.Conversion.{convert as rules-convert};
ghost use Rattle.rules.specs.Stripping.{strip as rules-strip};
ghost use Rattle.frames.specs.Planners.{as_planner};
ghost use Rattle.frames_c.specs.Exports.{verdict_numbers, answer_numbers, simulation_numbers, output_numbers};

use frames::{Planner, numbers_of};
use rules::Board;

// Number, place, span, blue peak and red peak of `mark`.
#[unsafe(no_mangle)]
pub extern "C" fn frames_mark(sheet: &[u8], paper: &[u8], numbers: &mut [u64; 5])
    ensures { numbers.new ≡ verdict_numbers (rules-mark sheet.now paper.now) }
{
    *numbers = match frames::mark(sheet, paper) {
        Ok(claim) => [0, 0, claim.span, claim.blue_peak, claim.red_peak],
        Err(refusal) => [refusal.number(), refusal.place(), 0, 0, 0],
    };
}

// The line of `fault_line`, copied to the front of `line` if it fits there; answers its length.
#[unsafe(no_mangle)]
pub extern "C" fn frames_fault_line(sheet: &[u8], paper: &[u8], line: &mut [u8]) -> usize
    ensures length { result ≡ length (fault_line sheet.now paper.now) }
    ensures line { line.new ≡
        (if nat_le (length (fault_line sheet.now paper.now)) (length line.old)
        then overwritten (fault_line sheet.now paper.now) line.old else line.old) }
{
    let found = frames::fault_line(sheet, paper);
    if line.len() < found.len() {
        return found.len();
    }
    line[..found.len()].copy_from_slice(found);
    found.len()
}

// Number, place and trials of a planner.
fn plan(planner: Planner, sheet: &[u8], out: &mut [u8], numbers: &mut [u64; 3])
    ensures numbers { numbers.new ≡ answer_numbers (rules-plan (as_planner planner) sheet.now out.old) }
    ensures buffer { out.new ≡ (rules-plan (as_planner planner) sheet.now out.old).buffer }
{
    let answer = frames::plan(planner, sheet, out);
    let [number, place] = numbers_of(answer.written);
    *numbers = [number, place, answer.trials];
}

// Number, place and trials of MemHEFT; the timetable is in `out`.
#[unsafe(no_mangle)]
pub extern "C" fn frames_mem_heft(sheet: &[u8], out: &mut [u8], numbers: &mut [u64; 3])
    ensures numbers { numbers.new ≡ answer_numbers (rules-plan mem_heft sheet.now out.old) }
    ensures buffer { out.new ≡ (rules-plan mem_heft sheet.now out.old).buffer }
{
    plan(Planner::MemHeft, sheet, out, numbers);
}

// The same of MemMinMin.
#[unsafe(no_mangle)]
pub extern "C" fn frames_mem_min_min(sheet: &[u8], out: &mut [u8], numbers: &mut [u64; 3])
    ensures numbers { numbers.new ≡ answer_numbers (rules-plan mem_min_min sheet.now out.old) }
    ensures buffer { out.new ≡ (rules-plan mem_min_min sheet.now out.old).buffer }
{
    plan(Planner::MemMinMin, sheet, out, numbers);
}

// The same of HEFT.
#[unsafe(no_mangle)]
pub extern "C" fn frames_heft(sheet: &[u8], out: &mut [u8], numbers: &mut [u64; 3])
    ensures numbers { numbers.new ≡ answer_numbers (rules-plan (heft plain) sheet.now out.old) }
    ensures buffer { out.new ≡ (rules-plan (heft plain) sheet.now out.old).buffer }
{
    plan(Planner::Heft, sheet, out, numbers);
}

// The same of MINMIN.
#[unsafe(no_mangle)]
pub extern "C" fn frames_min_min(sheet: &[u8], out: &mut [u8], numbers: &mut [u64; 3])
    ensures numbers { numbers.new ≡ answer_numbers (rules-plan (min_min plain) sheet.now out.old) }
    ensures buffer { out.new ≡ (rules-plan (min_min plain) sheet.now out.old).buffer }
{
    plan(Planner::MinMin, sheet, out, numbers);
}

// Number, place, 1 if steps are left, span, steps made and time of `simulate`; the task that each processor runs, or 0; where each file
// is held: 0 nowhere, 1 in blue, 2 in red, 3 in both.
#[unsafe(no_mangle)]
pub extern "C" fn frames_simulate(
    sheet: &[u8],
    paper: &[u8],
    made: u64,
    steps: u64,
    numbers: &mut [u64; 6],
    running: &mut [u64; Board::ALL_PROCESSORS],
    contents: &mut [u64; Board::MAX_FILES],
)
    ensures numbers { numbers.new ≡ simulation_numbers (rules-simulate sheet.now paper.now made steps) }
    ensures running { running.new ≡ (rules-simulate sheet.now paper.now made steps).state.running }
    ensures contents { contents.new ≡ (rules-simulate sheet.now paper.now made steps).state.contents }
{
    match frames::simulate(sheet, paper, made, steps) {
        Ok(a) => {
            let p = a.progress;
            *numbers = [p.number(), p.place(), p.left(), p.span(), a.made, a.time];
            // each array gets a name first: no proof is made of a field copied behind a reference
            let tasks = a.running;
            *running = tasks;
            let files = a.contents;
            *contents = files;
        }
        Err(refusal) => {
            *numbers = [refusal.number(), refusal.place(), 0, 0, 0, 0];
            *running = [0; Board::ALL_PROCESSORS];
            *contents = [0; Board::MAX_FILES];
        }
    }
}

// Number and place of `convert`; the sheet is in `out`.
#[unsafe(no_mangle)]
pub extern "C" fn frames_convert(sheet: &[u8], out: &mut [u8], numbers: &mut [u64; 2])
    ensures numbers { numbers.new ≡ output_numbers (rules-convert sheet.now out.old) }
    ensures buffer { out.new ≡ (rules-convert sheet.now out.old).buffer }
{
    *numbers = numbers_of(frames::convert(sheet, out));
}

// Number and place of `strip`; the timetable is in `out`.
#[unsafe(no_mangle)]
pub extern "C" fn frames_strip(sheet: &[u8], paper: &[u8], out: &mut [u8], numbers: &mut [u64; 2])
    ensures numbers { numbers.new ≡ output_numbers (rules-strip sheet.now paper.now out.old) }
    ensures buffer { out.new ≡ (rules-strip sheet.now paper.now out.old).buffer }
{
    *numbers = numbers_of(frames::strip(sheet, paper, out));
}
