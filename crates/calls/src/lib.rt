// The public calls: any tables, any numbers. Each judges policy and state and then is the call on sound tables.

#![tactic(auto)]

ghost use Rattle.std.specs.Prelude.{◌≡◌, []};
ghost use Rattle.model.specs.Answered.{code, tables_of};
ghost use Rattle.model.specs.Calls.{fresh as fresh_call, activate as activate_call, appoint as appoint_call, revoke as revoke_call, withdraw as withdraw_call, environment as environment_call, logout as logout_call, invoke as invoke_call, effective as effective_call, chain as chain_call};
ghost use Rattle.inner.specs.Promise.{lent, Answers, AnswersWith};
ghost use Rattle.calls.specs.Judgement.{judgement};

use model::{Answer, Certificate, Lent, Reason, STATE_SIZE};

// The refusal that comes before every other, if policy or state are not sound.
fn judge(policy: Lent, state: &[u16]) -> Result<(), Reason>
    ensures { code result ≡ judgement (tables_of policy.entry) state.now }
{
    if !policy::policy_sound(policy) {
        return Err(Reason::MalformedPolicy);
    }
    if !sound::state_sound(policy, state) {
        return Err(Reason::UnsoundState);
    }
    Ok(())
}

// All zeros. Only the length is judged, so that a spoilt state can be cleared.
pub fn fresh(state: &mut [u16]) -> Answer
    ensures { Answers (lent [] [] []) state.old fresh_call result state.new }
{
    if state.len() != STATE_SIZE {
        return Err(Reason::UnsoundState);
    }
    inner::fresh(state)
}

pub fn activate(policy: Lent, state: &mut [u16], user: u16, role: u16) -> Answer
    ensures { Answers (tables_of policy.entry) state.old (activate_call user role) result state.new }
{
    judge(policy, state)?;
    inner::activate(policy, state, user, role)
}

pub fn appoint(policy: Lent, state: &mut [u16], certificate: Certificate) -> Answer
    ensures { Answers (tables_of policy.entry) state.old (appoint_call certificate.appointer certificate.appointee certificate.kind) result state.new }
{
    judge(policy, state)?;
    inner::appoint(policy, state, certificate)
}

pub fn revoke(policy: Lent, state: &mut [u16], caller: u16, certificate: Certificate) -> Answer
    ensures { Answers (tables_of policy.entry) state.old (revoke_call caller certificate.appointee certificate.kind certificate.appointer) result state.new }
{
    judge(policy, state)?;
    taking::revoke(policy, state, caller, certificate)
}

pub fn withdraw(policy: Lent, state: &mut [u16], certificate: Certificate) -> Answer
    ensures { Answers (tables_of policy.entry) state.old (withdraw_call certificate.appointee certificate.kind certificate.appointer) result state.new }
{
    judge(policy, state)?;
    taking::withdraw(policy, state, certificate)
}

pub fn environment(policy: Lent, state: &mut [u16], fact: u16, value: u16) -> Answer
    ensures { Answers (tables_of policy.entry) state.old (environment_call fact value) result state.new }
{
    judge(policy, state)?;
    taking::environment(policy, state, fact, value)
}

pub fn logout(policy: Lent, state: &mut [u16], user: u16) -> Answer
    ensures { Answers (tables_of policy.entry) state.old (logout_call user) result state.new }
{
    judge(policy, state)?;
    taking::logout(policy, state, user)
}

pub fn invoke(policy: Lent, state: &[u16], user: u16, privilege: u16) -> Answer
    ensures { Answers (tables_of policy.entry) state.now (invoke_call user privilege) result state.now }
{
    judge(policy, state)?;
    query::invoke(policy, state, user, privilege)
}

pub fn effective(policy: Lent, state: &[u16], user: u16, role: u16, privilege: u16) -> Answer
    ensures { Answers (tables_of policy.entry) state.now (effective_call user role privilege) result state.now }
{
    judge(policy, state)?;
    query::effective(policy, state, user, role, privilege)
}

pub fn chain(policy: Lent, state: &[u16], user: u16, role: u16, list: &mut [u16]) -> Answer
    ensures { AnswersWith (tables_of policy.entry) state.now list.old (chain_call user role) result state.now list.new }
{
    judge(policy, state)?;
    query::chain(policy, state, user, role, list)
}
