// What is answered to an input.
ghost use Rattle.std.specs.Prelude.{◌≡◌, Some};
ghost use Rattle.agreement.specs.Meaning.{meaning};
ghost use Rattle.agreement.specs.Reading.{begun};
ghost use Rattle.judge.specs.Answer.{answer_of, judged, told, printed};

use agreement::{Agreement, Refusal, Step, read};
use std::fmt;

// What the judge finds of an agreement.
#[derive(Clone, Copy, PartialEq, Eq, Debug)]
pub enum Finding {
    Clear,
    NotJudged,
}

// What is found of the agreement that the bytes are, or why they are turned away.
pub fn answer_to(bytes: &[u8]) -> Result<Finding, Refusal>
    ensures { result ≡ answer_of bytes.now }
{
    let agreement = read(bytes)?;
    Ok(judge(agreement))
}

// So far only an agreement that is over at once is judged.
fn judge(agreement: Agreement<'_>) -> Finding
    ensures { result ≡ judged (meaning (begun agreement.entry)) }
{
    match agreement.start().peek() {
        Step::Over { .. } => Finding::Clear,
        _ => Finding::NotJudged,
    }
}

impl fmt::Display for Finding {
    ghost output = { λ f. Some (told f) };

    fn fmt<W: fmt::Write>(&self, f: &mut fmt::Formatter<W>) -> fmt::Result {
        f.write_str(match self {
            Finding::Clear => "clear",
            Finding::NotJudged => "not judged yet",
        })
    }
}

// An answer as it is printed.
#[derive(Clone, Copy)]
pub struct Answer(pub Result<Finding, Refusal>);

impl fmt::Display for Answer {
    ghost output = { λ a. Some (printed a.0) };

    fn fmt<W: fmt::Write>(&self, f: &mut fmt::Formatter<W>) -> fmt::Result {
        match self.0 {
            Ok(finding) => write!(f, "{finding}"),
            Err(refusal) => write!(f, "{refusal}"),
        }
    }
}

#[cfg(test)]
mod tests {
    use super::*;
    use std::alloc::Global;
    use std::process::Abort;
    use std::test::Fail;

    fn says(rt: &impl Abort, heap: Global, bytes: &[u8], text: &str) -> Result<(), Fail> {
        assert_eq!(rt; Answer(answer_to(bytes)).to_string(heap)?.as_str(), text);
        Ok(())
    }

    #[test]
    fn what_is_turned_away(rt: HostRuntime) -> Result<(), Fail> {
        says(&rt, rt.alloc(), &[], "refused 3 at 0")?;
        says(&rt, rt.alloc(), &[9, 9, 9], "refused 1 at 0")?;
        says(&rt, rt.alloc(), &[1, 9], "refused 2 at 1")?;
        says(&rt, rt.alloc(), &[1, 0, 0, 0], "refused 13 at 3")
    }

    #[test]
    fn what_is_over_at_once(rt: HostRuntime) -> Result<(), Fail> {
        says(&rt, rt.alloc(), &[1, 0, 0], "clear")?;
        says(&rt, rt.alloc(), &[8, 8, 0], "clear")
    }

    #[test]
    fn what_is_not_judged_yet(rt: HostRuntime) -> Result<(), Fail> {
        says(
            &rt,
            rt.alloc(),
            &[1, 0, 1, 0, 0, 0, 0, 0, 0, 0],
            "not judged yet",
        )
    }
}
