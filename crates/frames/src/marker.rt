// The marker: a timetable marked on a board sheet, and the line at fault.
ghost use Rattle.std.specs.Prelude.{◌≡◌};
ghost use Rattle.rules.specs.Calls.{mark as rules-mark, fault_line};
ghost use Rattle.validator.specs.Answer.{as_verdict};
ghost use Rattle.frames.specs.Demands.{MarkerDemands};

use mark_text::mark_paper;
use model::claim::Claim;
use model::layout::Numbers;
use rules::Refusal;

// Marks a timetable on a board sheet: its claim, if it is accepted.
pub fn mark(sheet: &[u8], paper: &[u8]) -> Result<Claim, Refusal>
    ensures answer { as_verdict result ≡ rules-mark sheet.now paper.now }
    ensures marker_demands { MarkerDemands sheet.now paper.now (as_verdict result) }
{
    let mut numbers = Numbers::new();
    let job = instance::job_of(sheet, &mut numbers)?;
    mark_paper(&job, paper)
}

// The line at fault: of the board sheet for 1 to 4, of the timetable for 11 to 14, without its LF; empty if
// that line does not exist, and for every other number.
pub fn fault_line<'a>(sheet: &'a [u8], paper: &'a [u8]) -> &'a [u8]
    ensures { result.now ≡ fault_line sheet.now paper.now }
{
    let Err(refusal) = mark(sheet, paper) else {
        return &sheet[..0];
    };
    match refusal {
        Refusal::Sheet(_, line) => text::line_at(sheet, line),
        Refusal::Timetable(_, line) => text::line_at(paper, line),
        _ => &sheet[..0],
    }
}
