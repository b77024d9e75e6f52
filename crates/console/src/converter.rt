// The converter and the stripper, with a buffer as long as a text may be: it is never too short (the demands `roomy`), so 31 is not their answer.
ghost use Rattle.std.specs.Prelude.{◌≡◌, ◌≤◌, length};
ghost use Rattle.rules.specs.Limits.{max_text};
ghost use Rattle.rules.specs.Conversion.{convert as rules-convert};
ghost use Rattle.rules.specs.Stripping.{strip as rules-strip};
ghost use Rattle.convert_text.specs.Answers.{as_output};
ghost use Rattle.console.specs.LongEnough.{LongEnough};

use frames::Refusal;

// The converted sheet of a board sheet.
pub fn convert(sheet: &[u8], out: &mut [u8]) -> Result<usize, Refusal>
    requires { max_text ≤ length out.old }
    ensures out_after { as_output result out.new ≡ rules-convert sheet.now out.old }
    ensures long_enough { LongEnough result out.new }
{
    frames::convert(sheet, out)
}

// What is left of a timetable of the converted sheet, for the board sheet itself.
pub fn strip(sheet: &[u8], paper: &[u8], out: &mut [u8]) -> Result<usize, Refusal>
    requires { max_text ≤ length out.old }
    ensures out_after { as_output result out.new ≡ rules-strip sheet.now paper.now out.old }
    ensures long_enough { LongEnough result out.new }
{
    frames::strip(sheet, paper, out)
}
