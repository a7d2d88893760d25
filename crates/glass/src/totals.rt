// The counts of a stream's calls together, and the first refusal among them.
ghost use Rattle.std.specs.Prelude.{◌≡◌};
ghost use Rattle.glass.specs.Totals.{added_up, sum_of};
ghost use Rattle.model.specs.Items.{blank_answer};

use model::Answer;

// Of no call.
pub(crate) fn none() -> Answer
    ensures { result ≡ blank_answer 0 0 }
{
    Answer::default()
}

// Of one call more.
pub(crate) fn added(total: Answer, answer: Answer) -> Answer
    ensures { result ≡ added_up total answer }
{
    let counted = Answer {
        taken: capped(total.taken, answer.taken),
        accepted: capped(total.accepted, answer.accepted),
        refused: capped(total.refused, answer.refused),
        ..answer
    };
    if total.refused == 0 {
        return counted;
    }
    Answer {
        first: total.first,
        parameter: total.parameter,
        offset: total.offset,
        ..counted
    }
}

// A sum, or the greatest number where it passes that: a stream has fewer bytes, so that no count does.
fn capped(x: u32, y: u32) -> u32
    ensures { result ≡ sum_of x y }
{
    x.saturating_add(y)
}
