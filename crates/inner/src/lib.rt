// The calls that begin a state and add to it, on sound tables, for code that can show that they are sound. Each equals the model's
// call.

#![tactic(auto)]

ghost use Rattle.std.specs.Prelude.{◌≡◌, [], ◌/◌, ◌<◌, length, position};
ghost use Rattle.model.specs.Limits.{state_size, rule_width};
ghost use Rattle.model.specs.Layout.{decode, policy_of};
ghost use Rattle.model.specs.Conditions.{active, kind_numbered};
ghost use Rattle.model.specs.Sound.{same_certificate};
ghost use Rattle.model.specs.Answered.{tables_of};
ghost use Rattle.model.specs.Calls.{fresh as fresh_call, activate as activate_call, appoint as appoint_call};
ghost use Rattle.model.specs.Words.{Sound};
ghost use Rattle.table.specs.Entries.{rule_at, world_at, without_rights, Sized};
ghost use Rattle.marks.specs.Marked.{has, satisfied_by};
ghost use Rattle.inner.specs.Promise.{lent, Answers};

use marks::OwnMarks;
use model::{
    Answer, CERTIFICATE_COUNT_AT, Certificate, KIND_WIDTH, Lent, MOST_CERTIFICATES, MOST_ROWS,
    ROLES, ROW_COUNT_AT, RULE_WIDTH, Reason, Row, STATE_SIZE, USERS,
};

// The rule is one for the role, and its conditions all hold by the marks. Most rules are for other roles, so a rule's target is asked
// before anything else is made ready.
fn is_satisfied(policy: Lent, state: &[u16], own: &OwnMarks, role: u16, i: usize) -> bool
    requires { Sized state.now × (i < length policy.rules.now / rule_width) }
    ensures { result ≡ satisfied_by (has own.now) (world_at policy.entry.rules.now policy.entry.kinds.now state.now) role (rule_at policy.entry.rules.now i) }
{
    let rule = table::rule_at(policy.rules, i);
    rule.target == role && marks::rule_holds(policy.kinds, state, own, rule)
}

// The lowest rule that is satisfied, of those for the role.
fn lowest_satisfied(policy: Lent, state: &[u16], own: &OwnMarks, role: u16) -> Option<usize>
    requires { Sized state.now }
    ensures { result ≡ position (satisfied_by (has own.now) (world_at policy.entry.rules.now policy.entry.kinds.now state.now) role) (policy_of (without_rights policy.entry.rules.now policy.entry.kinds.now)).rules }
{
    (0..policy.rules.len() / RULE_WIDTH).position(|i| is_satisfied(policy, state, own, role, i))
}

// Where the certificate stands.
pub fn find_certificate(state: &[u16], certificate: Certificate) -> Option<usize>
    requires { Sized state.now }
    ensures { result ≡ position (same_certificate certificate) (decode state.now).certificates }
{
    let n = usize::from(state[CERTIFICATE_COUNT_AT]);
    (0..n).position(|i| table::same_certificate(certificate, table::certificate_at(state, i)))
}

// All zeros, in a state of the right length.
pub fn fresh(state: &mut [u16]) -> Answer
    requires { length state.old ≡ state_size }
    ensures { Answers (lent [] [] []) state.old fresh_call result state.new }
{
    table::zero(state, 0, STATE_SIZE);
    Ok(0)
}

// The marks of the user alone are made, once: they say whether he is active in the role, and which conditions hold for him.
pub fn activate(policy: Lent, state: &mut [u16], user: u16, role: u16) -> Answer
    requires { Sound (tables_of policy) state.old }
    ensures { Answers (tables_of policy.entry) state.old (activate_call user role) result state.new }
{
    if user >= USERS || role >= ROLES {
        return Err(Reason::OutOfRange);
    }
    let mut own = [false; marks::OWN_MARKS];
    marks::mark_roles(state, user, &mut own);
    if marks::role_marked(&own, role) {
        return Err(Reason::AlreadyActive);
    }
    marks::mark_kinds(state, user, &mut own);
    let Some(i) = lowest_satisfied(policy, state, &own, role) else {
        return Err(Reason::NoRuleSatisfied);
    };
    if usize::from(state[ROW_COUNT_AT]) >= MOST_ROWS {
        return Err(Reason::TableFull);
    }
    let rule = i as u16;
    change::append_row(state, Row { user, role, rule });
    Ok(rule)
}

// The user is active in the kind's appointer role.
fn is_appointer(kinds: &[u16], state: &[u16], user: u16, kind: u16) -> bool
    requires { Sized state.now }
    ensures { result ≡ active (decode state.now).rows user (kind_numbered (policy_of (without_rights [] kinds.now)) kind).appointer }
{
    let row = table::kind_numbered(kinds, usize::from(kind));
    let k = usize::from(state[ROW_COUNT_AT]);
    table::is_active(state, k, user, row.appointer)
}

pub fn appoint(policy: Lent, state: &mut [u16], certificate: Certificate) -> Answer
    requires { Sound (tables_of policy) state.old }
    ensures { Answers (tables_of policy.entry) state.old (appoint_call certificate.appointer certificate.appointee certificate.kind) result state.new }
{
    let Certificate {
        appointee,
        kind,
        appointer,
    } = certificate;
    if appointer >= USERS
        || appointee >= USERS
        || usize::from(kind) >= policy.kinds.len() / KIND_WIDTH
    {
        return Err(Reason::OutOfRange);
    }
    if !is_appointer(policy.kinds, state, appointer, kind) {
        return Err(Reason::NotInAppointerRole);
    }
    if find_certificate(state, certificate).is_some() {
        return Err(Reason::StandsAlready);
    }
    if usize::from(state[CERTIFICATE_COUNT_AT]) >= MOST_CERTIFICATES {
        return Err(Reason::TableFull);
    }
    change::append_certificate(state, certificate);
    Ok(0)
}
