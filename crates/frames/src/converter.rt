// The converter: a board sheet for readers that lack working memory. And the stripper: what is left of a timetable of that sheet.
ghost use Rattle.std.specs.Prelude.{◌≡◌};
ghost use Rattle.rules.specs.Conversion.{convert as rules-convert};
ghost use Rattle.rules.specs.Stripping.{strip as rules-strip};
ghost use Rattle.convert_text.specs.Answers.{as_output};
ghost use Rattle.frames.specs.ConversionDemands.{ConverterDemands, StripperDemands};

use convert_text::{convert_instance, strip_paper};
use model::layout::Numbers;
use rules::Refusal;

// The converted sheet of a board sheet, written at the front of the buffer: how many bytes that takes.
pub fn convert(sheet: &[u8], out: &mut [u8]) -> Result<usize, Refusal>
    ensures answer { as_output result out.new ≡ rules-convert sheet.now out.old }
    ensures converter_demands { ConverterDemands sheet.now out.old (as_output result out.new) }
{
    let mut numbers = Numbers::new();
    let job = instance::job_of(sheet, &mut numbers)?;
    convert_instance(&job, out)
}

// What is left of a timetable of the converted sheet, for the board sheet itself, written at the front of the buffer: how many bytes that takes.
pub fn strip(sheet: &[u8], paper: &[u8], out: &mut [u8]) -> Result<usize, Refusal>
    ensures answer { as_output result out.new ≡ rules-strip sheet.now paper.now out.old }
    ensures stripper_demands { StripperDemands sheet.now paper.now out.old (as_output result out.new) }
{
    let mut numbers = Numbers::new();
    let job = instance::job_of(sheet, &mut numbers)?;
    strip_paper(&job, paper, out)
}
