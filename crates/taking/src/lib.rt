// The calls that may take something away (a certificate, a fact, a user's rows) and what falls with it, on sound tables, for code that
// can show that they are sound. Each equals the model's call.

#![tactic(auto)]

ghost use Rattle.std.specs.Prelude.{◌≡◌, true, [], ◌++◌, suc, ◌<◌, ◌≤◌, take, drop};
ghost use Rattle.model.specs.Limits.{facts};
ghost use Rattle.model.specs.Values.{with_certificates, with_fact};
ghost use Rattle.model.specs.Layout.{decode, policy_of, certificate_count};
ghost use Rattle.model.specs.Conditions.{kind_numbered};
ghost use Rattle.model.specs.Sound.{well_formed};
ghost use Rattle.model.specs.Answered.{tables_of};
ghost use Rattle.model.specs.Calls.{revoke as revoke_call, withdraw as withdraw_call, environment as environment_call, logout as logout_call, may_revoke};
ghost use Rattle.model.specs.Outcome.{given};
ghost use Rattle.model.specs.Words.{Sound};
ghost use Rattle.table.specs.Entries.{without_rights, Sized};
ghost use Rattle.marks.specs.Owned.{InRange};
ghost use Rattle.inner.specs.Promise.{Answers};
ghost use Rattle.taking.specs.Fallen.{all_supported, Fallen};
ghost use Rattle.taking.specs.Taken.{taken_on, Comes};

use model::{Answer, Certificate, FACTS, KIND_WIDTH, Lent, ROW_COUNT_AT, Reason, USERS};

// Certificate j goes, and the rows that lose their support fall. Returns how many rows were lost.
fn take_certificate(policy: Lent, state: &mut [u16], j: usize) -> u16
    requires { (well_formed state.old ≡ true) × InRange state.old × (j < certificate_count state.old) }
    ensures { Fallen policy.entry.rules.now policy.entry.kinds.now (with_certificates (decode state.old) (take j (decode state.old).certificates ++ drop (suc j) (decode state.old).certificates)) state.new result }
{
    change::remove_certificate(state, j);
    fall::fall(policy, state)
}

// Mode and caller allow the certificate's revocation: "mode 0 wants caller = appointer, active or not; mode 1 wants the caller active in
// the appointer role; mode 2 always refuses."
fn may_revoke(kinds: &[u16], state: &[u16], caller: u16, certificate: Certificate) -> bool
    requires { Sized state.now }
    ensures { result ≡ may_revoke (decode state.now).rows (kind_numbered (policy_of (without_rights [] kinds.now)) certificate.kind) caller certificate.appointer }
{
    let row = table::kind_numbered(kinds, usize::from(certificate.kind));
    // A mode stays a number: lent tables hold any, and a policy is sound or not by them.
    match row.mode {
        0 => caller == certificate.appointer,
        1 => {
            let k = usize::from(state[ROW_COUNT_AT]);
            table::is_active(state, k, caller, row.appointer)
        }
        _ => false,
    }
}

// What revoke and withdraw share: the certificate goes, and what rested on it falls, unless it is named out of range, does not stand or
// may not be taken.
fn take_away(policy: Lent, state: &mut [u16], certificate: Certificate, allowed: bool) -> Answer
    requires { Sound (tables_of policy) state.old }
    ensures { Comes (taken_on (given (tables_of policy.entry) state.old []) certificate allowed) state.old result state.new }
{
    if certificate.appointee >= USERS
        || usize::from(certificate.kind) >= policy.kinds.len() / KIND_WIDTH
        || certificate.appointer >= USERS
    {
        return Err(Reason::OutOfRange);
    }
    let Some(j) = inner::find_certificate(state, certificate) else {
        return Err(Reason::NoSuchCertificate);
    };
    if !allowed {
        return Err(Reason::MayNotRevoke);
    }
    Ok(take_certificate(policy, state, j))
}

pub fn revoke(policy: Lent, state: &mut [u16], caller: u16, certificate: Certificate) -> Answer
    requires { Sound (tables_of policy) state.old }
    ensures { Answers (tables_of policy.entry) state.old (revoke_call caller certificate.appointee certificate.kind certificate.appointer) result state.new }
{
    if caller >= USERS {
        return Err(Reason::OutOfRange);
    }
    let allowed = may_revoke(policy.kinds, state, caller, certificate);
    take_away(policy, state, certificate, allowed)
}

pub fn withdraw(policy: Lent, state: &mut [u16], certificate: Certificate) -> Answer
    requires { Sound (tables_of policy) state.old }
    ensures { Answers (tables_of policy.entry) state.old (withdraw_call certificate.appointee certificate.kind certificate.appointer) result state.new }
{
    take_away(policy, state, certificate, true)
}

// The fact takes the value, and the rows that lose their support fall. In a state in which each row has its support, none loses it where
// no fact goes: then none is judged. Returns how many rows were lost.
fn settle_fact(policy: Lent, state: &mut [u16], fact: usize, value: u16) -> u16
    requires { (well_formed state.old ≡ true) × InRange state.old × (all_supported policy.rules.now policy.kinds.now (decode state.old) ≡ true) × (fact < facts) × (value ≤ 1) }
    ensures { Fallen policy.entry.rules.now policy.entry.kinds.now (with_fact (decode state.old) fact value) state.new result }
{
    let before = state[fact];
    change::set_fact(state, fact, value);
    if value < before {
        return fall::fall(policy, state);
    }
    0
}

pub fn environment(policy: Lent, state: &mut [u16], fact: u16, value: u16) -> Answer
    requires { Sound (tables_of policy) state.old }
    ensures { Answers (tables_of policy.entry) state.old (environment_call fact value) result state.new }
{
    if fact >= FACTS || value > 1 {
        return Err(Reason::OutOfRange);
    }
    Ok(settle_fact(policy, state, usize::from(fact), value))
}

pub fn logout(policy: Lent, state: &mut [u16], user: u16) -> Answer
    requires { Sound (tables_of policy) state.old }
    ensures { Answers (tables_of policy.entry) state.old (logout_call user) result state.new }
{
    if user >= USERS {
        return Err(Reason::OutOfRange);
    }
    Ok(fall::drop_user(state, user))
}
