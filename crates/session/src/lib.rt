// The program as one function: the bytes of the input in, the bytes of the output out.

#![tactic(auto)]

ghost use Rattle.std.specs.Prelude.{[], ◌+◌, ◌*◌, ◌≤◌, T, length};
ghost use Rattle.model.specs.Answered.{tables_of};
ghost use Rattle.model.specs.Layout.{policy_of};
ghost use Rattle.model.specs.Sound.{sound};
ghost use Rattle.program.specs.Program.{most_bytes, steps, program};
ghost use Rattle.load.specs.Loading.{lines_from, running};
ghost use Rattle.session.specs.Output.{Holds};

use model::{
    KIND_WIDTH, Lent, MOST_KINDS, MOST_RIGHTS, MOST_RULES, RIGHT_WIDTH, RULE_WIDTH, STATE_SIZE,
};
use reader::Reader;
use writer::Writer;

// "at most 65,536 bytes".
pub const MOST_BYTES: usize = 65536;

// Answers the events from the reader's place on, until the text ends or a record is bad. The policy is complete when the first event
// comes, so it is judged here, once; and a record of the policy is bad from now on.
fn run(policy: Lent, mut reader: Reader, taken: usize, state: &mut [u16], out: &mut [u8]) -> usize
    requires { T (sound (policy_of (tables_of policy)) state.old) × (reader.at ≤ length reader.text.now) × (taken ≤ reader.at) × (length reader.text.now ≤ most_bytes) × (2 * length reader.text.now + 16 ≤ length out.old) }
    ensures { Holds out.new result (steps (running (tables_of policy.entry) state.old taken []) (lines_from reader.entry.text.now reader.entry.at)).written }
{
    let sound_policy = policy::policy_sound(policy);
    let mut number = taken;
    let mut writer = Writer::new(out);
    while reader.at < reader.text.len() {
        number += 1;
        let Some(line) = reader.line().filter(|line| !line.word.is_policy()) else {
            writer.write_bad(number);
            return writer.at;
        };
        let answer = event::answer_event(policy, sound_policy, state, line);
        writer.write_answer(answer.into());
        reader = reader.moved();
    }
    writer.at
}

// The whole output for the whole input. Twice the input and 16 bytes more is always room enough: an answer is at most 13 bytes and an
// event's record at least 7.
pub fn session(text: &[u8], out: &mut [u8]) -> usize
    requires { 2 * length text.now + 16 ≤ length out.old }
    ensures { Holds out.new result (program text.now) }
{
    if MOST_BYTES < text.len() {
        let mut writer = Writer::new(out);
        writer.write_bad(0);
        return writer.at;
    }
    let mut rules = [0u16; MOST_RULES * RULE_WIDTH];
    let mut kinds = [0u16; MOST_KINDS * KIND_WIDTH];
    let mut rights = [0u16; MOST_RIGHTS * RIGHT_WIDTH];
    let loaded = load::load(text, &mut rules, &mut kinds, &mut rights);
    let policy = Lent {
        rules: &rules[..loaded.counts.rules * RULE_WIDTH],
        kinds: &kinds[..loaded.counts.kinds * KIND_WIDTH],
        rights: &rights[..loaded.counts.rights * RIGHT_WIDTH],
    };
    let mut state = [0u16; STATE_SIZE];
    let events = Reader::new(text, loaded.at);
    run(policy, events, loaded.taken, &mut state, out)
}
