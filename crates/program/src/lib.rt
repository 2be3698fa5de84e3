// The words that open a record, a record that is read, and the numbers that code goes by. What they mean stands in specs/.

#![tactic(auto)]

ghost use Rattle.std.specs.Prelude.{◌≡◌, ltb};
ghost use Rattle.program.specs.Vocabulary.{policy_words};
ghost use Rattle.program.specs.Said.{number_of};

// "Eleven words open a record": each is named as it is spelled.
#[derive(Clone, Copy, Debug, PartialEq, Eq)]
pub enum Word {
    Rule,
    Kind,
    Right,
    Activate,
    Appoint,
    Revoke,
    Withdraw,
    Env,
    Logout,
    Invoke,
    Effective,
}

impl Word {
    // The word states the policy; each other is an event's.
    pub fn is_policy(self) -> bool
        ensures { result ≡ ltb (number_of self) policy_words }
    {
        matches!(self, Word::Rule | Word::Kind | Word::Right)
    }
}

// How many numbers a record may have behind its word.
pub const MOST_NUMBERS: usize = 10;

// The byte of the digit 0; those of the other digits follow it.
pub const DIGIT_ZERO: u8 = b'0';

// A record of the program, read: its word, how many numbers follow, and these, those past the count being 0. A record that is none of
// the vocabulary's is no line.
#[derive(Clone, Copy, Debug, PartialEq, Eq)]
pub struct Line {
    pub word: Word,
    pub count: u16,
    pub numbers: [u16; MOST_NUMBERS],
}
