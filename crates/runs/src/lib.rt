// A list run on a valid record, with a list that is of the right form.

#![tactic(auto)]

ghost use Rattle.std.specs.Prelude.{◌≡◌};
ghost use Rattle.matrix.specs.Refusals.{answer_of, outcome_of};
ghost use Rattle.states.specs.Needs.{Guessed};
ghost use Rattle.runs.specs.Reached.{RunOn, counted};

use lists::List;
use matrix::{MOST_SUBJECTS, Refused, Shape};

// The answer of a run that ends with this answer to a command: its refusal, with the commands accepted before in place of the links.
fn counted(answer: Result<usize, Refused>, accepted: usize) -> Result<usize, Refused>
    ensures { outcome_of result ≡ counted (answer_of answer) accepted }
{
    match answer {
        Ok(_) => Ok(accepted),
        Err(e) => Err(Refused {
            value: accepted,
            ..e
        }),
    }
}

// The commands of the list in turn, up to the first that is refused: how many were accepted, with a refusal too. The guesses of who owns each
// subject follow the commands; where one is wrong all the same, that owner is searched.
pub fn run_on(
    b: &mut [u8],
    f: Shape,
    owners: &mut [u8; MOST_SUBJECTS],
    list: List,
) -> Result<usize, Refused>
    requires { Guessed b.old f owners.old }
    ensures { RunOn b.old b.new list.entry.bytes.now (outcome_of result) }
{
    let mut accepted = 0;
    let reader = list.commands();
    for c in reader {
        let answer = commands::command_in_list(b, f, owners, c);
        let Ok(_) = answer else {
            return counted(answer, accepted);
        };
        accepted += 1;
    }
    Ok(accepted)
}
