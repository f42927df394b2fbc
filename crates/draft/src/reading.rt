// A plan from its text, line by line, to the end or to the first line that is wrong. Assumes
// nothing.
ghost use Rattle.std.specs.Prelude.{◌≡◌};
ghost use Rattle.draft.specs.Reading.{draft_read};

use crate::drafts::Draft;
use crate::faults::Wrong;

/// The plan that a text says, with the names of its gates. Refuses a text with a line that is none
/// of a plan's or says what isn't allowed, and names the first such line. It changes nothing.
#[tactic(auto, using(crate::proofs::Lines::line_end, crate::proofs::Lines::line_wrong, crate::proofs::Lines::line_right))]
pub fn read(text: &[u8]) -> Result<Draft, Wrong>
    ensures { result ≡ draft_read text.now }
{
    let mut draft = Draft::empty();
    for (before, line) in text.split(|byte| *byte == b'\n').enumerate() {
        draft = draft.take_line(line).map_err(|fault| Wrong {
            line: before + 1,
            fault,
        })?;
    }
    Ok(draft)
}
