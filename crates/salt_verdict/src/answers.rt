//! Whether a unit's answers are those of a replay.

ghost use Rattle.salt_audit.specs.Laws.{is_same_answer, same_all};
ghost use Rattle.std.specs.Prelude.{◌≡◌};

use salt_audit::is_same_answer;
use salt_model::Answer;

/// Whether these are the same answers.
pub fn are_same_answers(left: &[Answer], right: &[Answer]) -> bool
    ensures { result ≡ same_all is_same_answer left.now right.now }
{
    let mut mine = left;
    let mut theirs = right;
    while !mine.is_empty() {
        let [first, more @ ..] = mine else {
            break;
        };
        let [other, others @ ..] = theirs else {
            return false;
        };
        if !is_same_answer(first, other) {
            return false;
        }
        mine = more;
        theirs = others;
    }
    theirs.is_empty()
}
