// Whether a lent state is sound. A lent state holds any numbers, so a count is bounded before rows are read.

#![tactic(auto)]

ghost use Rattle.std.specs.Prelude.{◌≡◌, ◌+◌, ◌*◌, ◌/◌, ◌<◌, ◌≤◌, true, false, [], length};
ghost use Rattle.model.specs.Lists.{all, any, all_over_earlier, is_bit};
ghost use Rattle.model.specs.Limits.{state_size, most_certificates, most_kinds, kind_width};
ghost use Rattle.model.specs.Layout.{decode, policy_of, fact_numbers};
ghost use Rattle.model.specs.Sound.{well_formed, same_certificate, certificate_sound, row_sound, sound_values, sound};
ghost use Rattle.table.specs.Entries.{certificate_at, first_certificates, without_rights, world_at, Sized, kinds_only, rules_only};
ghost use Rattle.marks.specs.Owned.{CertificatesInRange};
ghost use Rattle.sound.specs.Seen.{beginning, bits, Finds};
ghost use Rattle.sound.specs.Fitting.{counted, parts_formed, row_fits, said_to_stay};

use model::{
    CERTIFICATE_COUNT_AT, CERTIFICATE_WIDTH, Certificate, FACTS_END, KIND_WIDTH, Lent,
    MOST_CERTIFICATES, MOST_ROWS, ROLES, ROW_COUNT_AT, ROW_WIDTH, RULE_WIDTH, Row, STATE_SIZE,
    USERS,
};
use support::Verdict;

// "64 facts, each 0 or 1". The half of each is joined, and the halves are looked at once, so that the machine may take several facts in one
// step.
fn facts_are_bits(state: &[u16]) -> bool
    requires { length state.now ≡ state_size }
    ensures { result ≡ all is_bit (fact_numbers state.now) }
{
    state[..FACTS_END]
        .iter()
        .fold(0, |joined, fact| joined | *fact / 2)
        == 0
}

// "a count up to 256", and the rows behind it that are past the count zero
fn counted(state: &[u16], at: usize, most: usize, width: usize) -> bool
    requires { at + 1 + most * width ≤ length state.now }
    ensures { result ≡ counted state.now at most width }
{
    let count = usize::from(state[at]);
    count <= most && table::all_zero(state, at + 1 + count * width, most * width - count * width)
}

// The facts and both tables are formed.
fn parts_formed(state: &[u16]) -> bool
    requires { length state.now ≡ state_size }
    ensures { result ≡ parts_formed state.now }
{
    facts_are_bits(state)
        && counted(state, ROW_COUNT_AT, MOST_ROWS, ROW_WIDTH)
        && counted(
            state,
            CERTIFICATE_COUNT_AT,
            MOST_CERTIFICATES,
            CERTIFICATE_WIDTH,
        )
}

// "The state is exactly 1,602 numbers: ..", each count up to 256, and the rows past the count zero.
fn well_formed(state: &[u16]) -> bool
    ensures { result ≡ well_formed state.now }
{
    state.len() == STATE_SIZE && parts_formed(state)
}

// Of the links between certificates the first are the beginnings of searches; behind them are two for each certificate.
const BEGINNINGS: usize = 1024;

const LINKS: usize = 1536;

fn beginning_of(certificate: Certificate) -> usize
    ensures few { result < 1024 }
    ensures own { result ≡ beginning certificate }
{
    let kind = usize::from(certificate.kind);
    let appointer = usize::from(certificate.appointer);
    (usize::from(certificate.appointee) * 129 + (kind + appointer * 61)) % BEGINNINGS
}

fn bits_of(certificate: Certificate) -> usize
    ensures { result ≡ bits certificate }
{
    let kind = usize::from(certificate.kind);
    let appointer = usize::from(certificate.appointer);
    usize::from(certificate.appointee) + (appointer + kind * 4096) * 4096
}

// Certificates of the state that were seen are found again by search trees, one for each of 1,024 beginnings. `links` has the first
// certificate of each tree, and then for each certificate the two that may come next, of which a bit of the one that is looked for picks
// one: another bit at each step. Certificates in range are told apart by 31 bits, so a search has at most 32 steps, whatever the table.
#[derive(Drop)]
struct SearchTrees<'a> {
    state: &'a [u16],
    links: [Option<u8>; LINKS],
}

impl<'a> SearchTrees<'a> {
    fn empty(state: &'a [u16]) -> SearchTrees<'a>
        requires { length state.now ≡ state_size }
        ensures finds { Finds result 0 }
        ensures same { result.state.now ≡ state.now }
    {
        SearchTrees {
            state,
            links: [None; LINKS],
        }
    }

    // Certificate i is one of those before it; if not, its search finds it from now on.
    fn stands_already(&mut self, i: usize) -> bool
        requires finds { Finds self.old i }
        requires more { i < most_certificates }
        ensures answer { result ≡ any (same_certificate (certificate_at self.old.state.now i)) (first_certificates self.old.state.now i) }
        ensures entered { result ≡ false → Finds self.new (i + 1) }
        ensures same { self.new.state.now ≡ self.old.state.now }
    {
        let certificate = table::certificate_at(self.state, i);
        let mut bits = bits_of(certificate);
        let mut at = beginning_of(certificate);
        while let Some(link) = self.links[at] {
            let k = usize::from(link);
            if table::same_certificate(certificate, table::certificate_at(self.state, k)) {
                return true;
            }
            at = BEGINNINGS + (k * 2 + bits % 2);
            bits /= 2;
        }
        self.links[at] = Some(i as u8);
        false
    }
}

// "ranges are kept, .. no certificate stands twice, each certificate's kind has a row"
#[tactic(auto, unfolding(model::specs::Sound::certificate_clauses), using(crate::proofs::Ranges::kind_count))]
fn certificate_sound(kinds: &[u16], seen: &mut SearchTrees, i: usize) -> bool
    requires finds { Finds seen.old i }
    requires more { i < most_certificates }
    ensures answer { result ≡ certificate_sound (kinds_only kinds.now) (first_certificates seen.old.state.now i) (certificate_at seen.old.state.now i) }
    ensures entered { result ≡ true → Finds seen.new (i + 1) }
    ensures same { seen.new.state.now ≡ seen.old.state.now }
{
    let certificate = table::certificate_at(seen.state, i);
    certificate.appointee < USERS
        && usize::from(certificate.kind) < kinds.len() / KIND_WIDTH
        && certificate.appointer < USERS
        && !seen.stands_already(i)
}

fn each_certificate_sound(kinds: &[u16], seen: &mut SearchTrees) -> bool
    requires sized { Sized seen.old.state.now }
    requires finds { Finds seen.old 0 }
    ensures { result ≡ all_over_earlier (certificate_sound (kinds_only kinds.now)) [] (decode seen.old.state.now).certificates }
{
    for i in 0..usize::from(seen.state[CERTIFICATE_COUNT_AT]) {
        if !certificate_sound(kinds, seen, i) {
            return false;
        }
    }
    true
}

// Where there are no certificates, no trees are made.
fn certificates_sound(kinds: &[u16], state: &[u16]) -> bool
    requires { Sized state.now }
    ensures { result ≡ all_over_earlier (certificate_sound (kinds_only kinds.now)) [] (decode state.now).certificates }
{
    state[CERTIFICATE_COUNT_AT] == 0
        || each_certificate_sound(kinds, &mut SearchTrees::empty(state))
}

// "ranges are kept, .. each active row's rule exists and has that role as target"
#[tactic(auto, unfolding(crate::specs::Fitting::fit_clauses), using(crate::proofs::Ranges::rule_count))]
fn row_fits(rules: &[u16], row: Row) -> bool
    ensures { result ≡ row_fits (rules_only rules.now) row }
{
    let number = usize::from(row.rule);
    row.user < USERS
        && row.role < ROLES
        && number < rules.len() / RULE_WIDTH
        && table::rule_numbered(rules, number).target == row.role
}

fn rows_fit(rules: &[u16], state: &[u16]) -> bool
    requires { Sized state.now }
    ensures { result ≡ all (row_fits (rules_only rules.now)) (decode state.now).rows }
{
    (0..usize::from(state[ROW_COUNT_AT])).all(|i| row_fits(rules, table::row_at(state, i)))
}

// Each row stays, and none stands twice.
fn each_stays(verdicts: &[Option<Verdict>]) -> bool
    ensures { result ≡ all said_to_stay verdicts.now }
{
    verdicts
        .iter()
        .all(|verdict| *verdict == Some(Verdict::Stays))
}

// "no (user, role) .. stands twice, .. each of its membership conditions holds, where "active" means active in an earlier row of the same
// user"
fn rows_sound(policy: Lent, state: &[u16]) -> bool
    requires { Sized state.now × CertificatesInRange state.now }
    ensures { result ≡ all_over_earlier (row_sound (world_at policy.entry.rules.now policy.entry.kinds.now state.now)) [] (decode state.now).rows }
{
    if !rows_fit(policy.rules, state) {
        return false;
    }
    let mut verdicts = [None; MOST_ROWS];
    support::judge_rows(policy, state, &mut verdicts);
    each_stays(&verdicts[..usize::from(state[ROW_COUNT_AT])])
}

// The certificates and the active rows are sound, each over those before it.
fn values_sound(policy: Lent, state: &[u16]) -> bool
    requires { Sized state.now × (length policy.kinds.now / kind_width ≤ most_kinds) }
    ensures { result ≡ sound_values (policy_of (without_rights policy.entry.rules.now policy.entry.kinds.now)) (decode state.now) }
{
    certificates_sound(policy.kinds, state) && rows_sound(policy, state)
}

// "A state is sound if these hold, .."
#[tactic(auto, unfolding(model::specs::Sound::sound), using(table::proofs::Entries::sized))]
pub fn state_sound(policy: Lent, state: &[u16]) -> bool
    requires { length policy.kinds.now / kind_width ≤ most_kinds }
    ensures { result ≡ sound (policy_of (without_rights policy.entry.rules.now policy.entry.kinds.now)) state.now }
{
    well_formed(state) && values_sound(policy, state)
}
