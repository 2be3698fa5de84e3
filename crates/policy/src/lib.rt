// Whether a lent policy is sound. Lent tables hold any numbers: a table is read as far as it has whole rows.

#![tactic(auto)]

ghost use Rattle.std.specs.Prelude.{◌≡◌, ℕ, Bool, ◌+◌, ◌/◌, ◌<◌, ◌≤◌, ◌&&◌, cond, eqb, length, take, drop};
ghost use Rattle.model.specs.Answered.{tables_of};
ghost use Rattle.model.specs.Lists.{all, is_zero};
ghost use Rattle.model.specs.Limits.{kind_width, most_kinds};
ghost use Rattle.model.specs.Conditions.{meant};
ghost use Rattle.model.specs.Sound.{condition_fits, rule_fits, kind_fits, right_fits, sound_policy};
ghost use Rattle.table.specs.Entries.{rules_only, kinds_only};
ghost use Rattle.policy.specs.Counting.{Counting, RightLimits};
ghost use Rattle.policy.specs.Fitting.{has_form, tables_formed, rights_only, first_rights_fit, alone_fits, rows_fit};

use model::{
    FACTS, FIRST_FACT, FIRST_KIND, KIND_WIDTH, Kind, Lent, MOST_CONDITIONS, MOST_KINDS,
    MOST_PREREQUISITES, MOST_RIGHTS, MOST_RULES, PRIVILEGES, RIGHT_WIDTH, ROLES, RULE_WIDTH, Rule,
};

const MODES: u16 = 3;

// The facts are 64 conditions, which begin at six times 64: one division knows them.
const FACTS_PART: u16 = FIRST_FACT / FACTS;

// Where the conditions that are kinds of the policy end.
fn end_of_kinds(kinds: &[u16]) -> u16
    requires { length kinds.now / kind_width ≤ most_kinds }
    ensures { result ≡ 256 + length kinds.now / kind_width }
{
    FIRST_KIND + (kinds.len() / KIND_WIDTH) as u16
}

// "0 to 255 a role; 256 to 383 certificate kind .., which must be a row of the kinds table; 384 to 447 environment fact ..; 448 and above
// malformed."
fn condition_fits(kinds: &[u16], c: u16) -> bool
    requires { length kinds.now / kind_width ≤ most_kinds }
    ensures { result ≡ condition_fits (kinds_only kinds.now) (meant c) }
{
    c < end_of_kinds(kinds) || c / FACTS == FACTS_PART
}

// Eight places that count, and eight that do not: of eight places from entry 8 - n on, the first n count. What stands in a table needs no
// branch, so that the machine may judge eight places in one step.
const COUNTING: [bool; 16] = [
    true, true, true, true, true, true, true, true, false, false, false, false, false, false,
    false, false,
];

fn counting() -> &'static [bool; 16]
    ensures { Counting result.now }
{
    &COUNTING
}

// 0 if nothing is wrong with the number: one that counts fits, and one past those is 0.
fn wrong(x: u16, fits: bool, counts: bool) -> u16
    ensures { eqb result 0 ≡ cond counts fits (is_zero x) }
{
    if counts { u16::from(!fits) } else { x }
}

// The first n of the numbers fit, and those past n are 0. What is wrong is joined: all are looked at, in one way through the loop. Places
// are counted, as over a zip the machine would judge one at a time.
fn first_fit<const N: usize, F: Fn(u16) -> bool>(numbers: [u16; N], n: usize, fits: F) -> bool
    requires callable { F.IsAlwaysCallable fits }
    requires few { (n ≤ N) × (N ≤ 8) }
    ensures { (test : ℕ → Bool) → ((x : ℕ) (b : Bool) → F.post fits x b → b ≡ test x) → result ≡ (all test (take n numbers.entry) && all is_zero (drop n numbers.entry)) }
{
    let counting = counting();
    let mut joined = 0;
    for j in 0..N {
        let x = numbers[j];
        joined |= wrong(x, fits(x), counting[MOST_CONDITIONS - n + j]);
    }
    joined == 0
}

// "target role, n, m, then eight conditions, those past n being 0. m ≤ n ≤ 8."
#[tactic(auto, unfolding(model::specs::Sound::rule_clauses))]
fn rule_fits(kinds: &[u16], rule: Rule) -> bool
    requires { length kinds.now / kind_width ≤ most_kinds }
    ensures { result ≡ rule_fits (kinds_only kinds.now) rule }
{
    let n = usize::from(rule.n);
    rule.target < ROLES
        && rule.m <= rule.n
        && n <= MOST_CONDITIONS
        && first_fit(rule.conditions, n, |c| condition_fits(kinds, c))
}

fn rules_fit(policy: Lent) -> bool
    requires { length policy.kinds.now / kind_width ≤ most_kinds }
    ensures { result ≡ all (rule_fits (kinds_only policy.entry.kinds.now)) (rules_only policy.entry.rules.now).rules }
{
    (0..policy.rules.len() / RULE_WIDTH).all(|i| rule_fits(
        policy.kinds,
        table::rule_at(policy.rules, i),
    ))
}

// "appointer role, mode, s, then four prerequisite roles, those past s being 0. s ≤ 4."
#[tactic(auto, unfolding(model::specs::Sound::kind_clauses))]
fn kind_fits(kind: Kind) -> bool
    ensures { result ≡ kind_fits kind }
{
    let s = usize::from(kind.s);
    kind.appointer < ROLES
        && kind.mode < MODES
        && s <= MOST_PREREQUISITES
        && first_fit(kind.prerequisites, s, |q| q < ROLES)
}

fn kinds_fit(kinds: &[u16]) -> bool
    ensures { result ≡ all kind_fits (kinds_only kinds.now).kinds }
{
    (0..kinds.len() / KIND_WIDTH).all(|k| kind_fits(table::kind_at(kinds, k)))
}

// The limits of sixteen rights, one after the other.
const LIMITS: [u16; 32] = [
    ROLES, PRIVILEGES, ROLES, PRIVILEGES, ROLES, PRIVILEGES, ROLES, PRIVILEGES, ROLES, PRIVILEGES,
    ROLES, PRIVILEGES, ROLES, PRIVILEGES, ROLES, PRIVILEGES, ROLES, PRIVILEGES, ROLES, PRIVILEGES,
    ROLES, PRIVILEGES, ROLES, PRIVILEGES, ROLES, PRIVILEGES, ROLES, PRIVILEGES, ROLES, PRIVILEGES,
    ROLES, PRIVILEGES,
];

fn limits() -> &'static [u16; 32]
    ensures { RightLimits result.now }
{
    &LIMITS
}

// Sixteen rights keep their limits. All numbers are looked at, so that the machine may take several in one step.
fn sixteen_fit(numbers: &[u16; 32]) -> bool
    ensures { result ≡ first_rights_fit 16 numbers.now }
{
    !numbers
        .iter()
        .zip(limits())
        .fold(false, |over, (number, limit)| over | (*number >= *limit))
}

// "role, privilege", each in its range. What the numbers leave over their limits is joined, and is zero exactly if nothing is.
fn each_fits(rights: &[[u16; 2]]) -> bool
    ensures { result ≡ all alone_fits rights.now }
{
    rights.iter().fold(0, |over, right| {
        over | right[0] / ROLES | right[1] / PRIVILEGES
    }) == 0
}

// Sixteen rights at a time, and then what is left of them.
fn rights_fit(rights: &[u16]) -> bool
    ensures { result ≡ all right_fits (rights_only rights.now).rights }
{
    let (sixteens, rest) = rights.as_chunks::<32>();
    let (rest, _) = rest.as_chunks::<RIGHT_WIDTH>();
    sixteens.iter().all(sixteen_fit) && each_fits(rest)
}

// The table has whole rows, and not too many.
fn has_form(table: &[u16], width: usize, most: usize) -> bool
    requires { 0 < width }
    ensures { result ≡ has_form width most table.now }
{
    table.len() % width == 0 && table.len() / width <= most
}

fn tables_formed(policy: Lent) -> bool
    ensures { result ≡ tables_formed (tables_of policy.entry) }
{
    has_form(policy.rules, RULE_WIDTH, MOST_RULES)
        && has_form(policy.kinds, KIND_WIDTH, MOST_KINDS)
        && has_form(policy.rights, RIGHT_WIDTH, MOST_RIGHTS)
}

fn rows_fit(policy: Lent) -> bool
    requires { length policy.kinds.now / kind_width ≤ most_kinds }
    ensures { result ≡ rows_fit (tables_of policy.entry) }
{
    rules_fit(policy) && kinds_fit(policy.kinds) && rights_fit(policy.rights)
}

// "A length that isn't a whole number of rows, too many rows, or a row not as above makes the policy malformed; any other is sound."
pub fn policy_sound(policy: Lent) -> bool
    ensures { result ≡ sound_policy (tables_of policy.entry) }
{
    tables_formed(policy) && rows_fit(policy)
}
