// What an event of the program answers. The policy is judged once, before the first event; a call leaves a sound state, so no state is
// judged at all.

#![tactic(auto)]

ghost use Rattle.std.specs.Prelude.{◌≤◌, T};
ghost use Rattle.model.specs.Answered.{tables_of};
ghost use Rattle.model.specs.Layout.{policy_of};
ghost use Rattle.model.specs.Sound.{sound};
ghost use Rattle.model.specs.Words.{Sound};
ghost use Rattle.program.specs.Vocabulary.{policy_words};
ghost use Rattle.program.specs.Said.{number_of, line_of_read};
ghost use Rattle.program.specs.Program.{line_call};
ghost use Rattle.inner.specs.Promise.{Answers};
ghost use Rattle.event.specs.SoundIf.{SoundIf};

use model::{Answer, Certificate, Lent, Reason};
use program::{Line, Word};

// The call that the line makes, on sound tables.
#[tactic(auto, unfolding(program::specs::Program::line_call))]
fn call(policy: Lent, state: &mut [u16], line: Line) -> Answer
    requires { Sound (tables_of policy) state.old × (policy_words ≤ number_of line.word) }
    ensures { Answers (tables_of policy.entry) state.old (line_call (line_of_read line)) result state.new }
{
    let n = line.numbers;
    match line.word {
        Word::Rule | Word::Kind | Word::Right => unreachable!(),
        Word::Activate => inner::activate(policy, state, n[0], n[1]),
        Word::Appoint => {
            let certificate = Certificate {
                appointer: n[0],
                appointee: n[1],
                kind: n[2],
            };
            inner::appoint(policy, state, certificate)
        }
        Word::Revoke => {
            let certificate = Certificate {
                appointee: n[1],
                kind: n[2],
                appointer: n[3],
            };
            taking::revoke(policy, state, n[0], certificate)
        }
        Word::Withdraw => {
            let certificate = Certificate {
                appointee: n[0],
                kind: n[1],
                appointer: n[2],
            };
            taking::withdraw(policy, state, certificate)
        }
        Word::Env => taking::environment(policy, state, n[0], n[1]),
        Word::Logout => taking::logout(policy, state, n[0]),
        Word::Invoke => query::invoke(policy, state, n[0], n[1]),
        Word::Effective => query::effective(policy, state, n[0], n[1], n[2]),
    }
}

// With a malformed policy every event answers 1. Whether the policy is sound goes beside its tables, and not in an `Option` around them:
// what a malformed policy answers is said of its tables too.
pub fn answer_event(policy: Lent, sound_policy: bool, state: &mut [u16], line: Line) -> Answer
    requires { SoundIf (tables_of policy) state.old sound_policy × (policy_words ≤ number_of line.word) }
    ensures answer { Answers (tables_of policy.entry) state.old (line_call (line_of_read line)) result state.new }
    ensures kept { T (sound (policy_of (tables_of policy.entry)) state.new) }
{
    if !sound_policy {
        return Err(Reason::MalformedPolicy);
    }
    call(policy, state, line)
}
