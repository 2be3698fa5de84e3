// The values that contracts name, and the numbers that code goes by. Everything that they mean stands in specs/.

#![tactic(auto)]

ghost use Rattle.std.specs.Prelude.{◌≡◌};
ghost use Rattle.model.specs.Conditions.{meant, activating, membership, prerequisite_roles};
ghost use Rattle.model.specs.Answered.{code_of, code, second};
ghost use Rattle.model.specs.Meant.{condition_of};

// "Users 0 to 4,095; roles 0 to 255; privileges 0 to 1,023; environment facts 0 to 63."
pub const USERS: u16 = 4096;

pub const ROLES: u16 = 256;

pub const PRIVILEGES: u16 = 1024;

pub const FACTS: u16 = 64;

// Where the numbers of conditions begin to be kinds, facts and malformed.
pub const FIRST_KIND: u16 = 256;

pub const FIRST_FACT: u16 = 384;

pub const FIRST_MALFORMED: u16 = 448;

// How many rows each table may have.
pub const MOST_RULES: usize = 512;

pub const MOST_KINDS: usize = 128;

pub const MOST_RIGHTS: usize = 2048;

pub const MOST_ROWS: usize = 256;

pub const MOST_CERTIFICATES: usize = 256;

// How many conditions a rule may have, and how many prerequisite roles a kind.
pub const MOST_CONDITIONS: usize = 8;

pub const MOST_PREREQUISITES: usize = 4;

// How many numbers a row of each table has.
pub const RULE_WIDTH: usize = 11;

pub const KIND_WIDTH: usize = 7;

pub const RIGHT_WIDTH: usize = 2;

pub const ROW_WIDTH: usize = 3;

pub const CERTIFICATE_WIDTH: usize = 3;

// Where the tables of a state stand, and how many numbers it has. The facts come first.
pub const STATE_SIZE: usize = 1602;

pub const LIST_SIZE: usize = 256;

pub const FACTS_END: usize = 64;

pub const ROW_COUNT_AT: usize = 64;

pub const ROWS_AT: usize = 65;

pub const CERTIFICATE_COUNT_AT: usize = 833;

pub const CERTIFICATES_AT: usize = 834;

// A row of the rules: "target role, n, m, then eight conditions".
#[derive(Clone, Copy, Default)]
pub struct Rule {
    pub target: u16,
    pub n: u16,
    pub m: u16,
    pub conditions: [u16; 8],
}

impl Rule {
    // The activating conditions are the first n.
    pub fn activating(&self) -> &[u16]
        ensures { result.now ≡ activating self.now }
    {
        &self.conditions[..usize::from(self.n).min(MOST_CONDITIONS)]
    }

    // "The first m conditions are the membership rule."
    pub fn membership(&self) -> &[u16]
        ensures { result.now ≡ membership self.now }
    {
        &self.conditions[..usize::from(self.m).min(MOST_CONDITIONS)]
    }
}

// A row of the kinds: "appointer role, mode, s, then four prerequisite roles".
#[derive(Clone, Copy, Default)]
pub struct Kind {
    pub appointer: u16,
    pub mode: u16,
    pub s: u16,
    pub prerequisites: [u16; 4],
}

impl Kind {
    // The prerequisite roles are the first s.
    pub fn prerequisite_roles(&self) -> &[u16]
        ensures { result.now ≡ prerequisite_roles self.now }
    {
        &self.prerequisites[..usize::from(self.s).min(MOST_PREREQUISITES)]
    }
}

// A row of the rights: "role, privilege".
#[derive(Clone, Copy)]
pub struct Right {
    pub role: u16,
    pub privilege: u16,
}

// An active row: "user, role, rule".
#[derive(Clone, Copy)]
pub struct Row {
    pub user: u16,
    pub role: u16,
    pub rule: u16,
}

// A certificate row: "appointee, kind, appointer".
#[derive(Clone, Copy, PartialEq, Eq)]
pub struct Certificate {
    pub appointee: u16,
    pub kind: u16,
    pub appointer: u16,
}

// What the number of a condition means: a role, a certificate of a kind, or an environment fact, each by its own number.
#[derive(Clone, Copy)]
pub enum Condition {
    Role(u16),
    Kind(u16),
    Fact(u16),
    Malformed,
}

impl From<u16> for Condition {
    ghost from_gives = { λ number condition. condition_of condition ≡ meant number };

    #[tactic(auto, unfolding(crate::specs::Conditions::meant))]
    fn from(number: u16) -> Condition {
        match number {
            0..FIRST_KIND => Condition::Role(number),
            FIRST_KIND..FIRST_FACT => Condition::Kind(number - FIRST_KIND),
            FIRST_FACT..FIRST_MALFORMED => Condition::Fact(number - FIRST_FACT),
            FIRST_MALFORMED.. => Condition::Malformed,
        }
    }
}

// The policy's tables, as a caller lends them: "All tables are lent 16-bit numbers."
#[derive(Clone, Copy)]
pub struct Lent<'a> {
    pub rules: &'a [u16],
    pub kinds: &'a [u16],
    pub rights: &'a [u16],
}

// Why a call is refused. None has the code 11: on sound tables no role would be written twice.
#[derive(Clone, Copy, Debug, PartialEq, Eq)]
pub enum Reason {
    MalformedPolicy,
    UnsoundState,
    OutOfRange,
    AlreadyActive,
    NoRuleSatisfied,
    TableFull,
    NotInAppointerRole,
    StandsAlready,
    NoSuchCertificate,
    MayNotRevoke,
    NotActive,
}

impl From<Reason> for u16 {
    ghost from_gives = { λ reason code. code ≡ code_of reason };

    fn from(reason: Reason) -> u16 {
        match reason {
            Reason::MalformedPolicy => 1,
            Reason::UnsoundState => 2,
            Reason::OutOfRange => 3,
            Reason::AlreadyActive => 4,
            Reason::NoRuleSatisfied => 5,
            Reason::TableFull => 6,
            Reason::NotInAppointerRole => 7,
            Reason::StandsAlready => 8,
            Reason::NoSuchCertificate => 9,
            Reason::MayNotRevoke => 10,
            Reason::NotActive => 12,
        }
    }
}

// What a call answers: accepted, its second number; refused, why.
pub type Answer = Result<u16, Reason>;

// `struct adobethrum_answer` of the header: an answer as C has it.
#[repr(C)]
#[derive(Clone, Copy)]
pub struct Reply {
    pub code: u16,
    pub second: u16,
}

impl From<Answer> for Reply {
    ghost from_gives = { λ answer reply. (reply.code ≡ code answer) × (reply.second ≡ second answer) };

    fn from(answer: Answer) -> Reply {
        match answer {
            Ok(second) => Reply { code: 0, second },
            Err(reason) => Reply {
                code: reason.into(),
                second: 0,
            },
        }
    }
}
