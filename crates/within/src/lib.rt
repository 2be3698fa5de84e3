// The ten calls without judging, each under a name that C links, so that they can be measured by themselves. Terminals do not link them:
// who calls one without sound tables is promised nothing.

#![tactic(auto)]

ghost use Rattle.std.specs.Prelude.{◌≡◌, [], length};
ghost use Rattle.model.specs.Limits.{state_size};
ghost use Rattle.model.specs.Outcome.{Keeps};
ghost use Rattle.model.specs.Calls.{answer, fresh as fresh_call, activate as activate_call, appoint as appoint_call, revoke as revoke_call, withdraw as withdraw_call, environment as environment_call, logout as logout_call, invoke as invoke_call, effective as effective_call, chain as chain_call};
ghost use Rattle.model.specs.Words.{Sound};
ghost use Rattle.inner.specs.Promise.{lent};

use model::{Certificate, Lent, Reply};

#[unsafe(no_mangle)]
pub extern "C" fn within_fresh(state: &mut [u16]) -> Reply
    requires { length state.old ≡ state_size }
    ensures { Keeps (answer (lent [] [] []) state.old [] fresh_call) result.code result.second state.new [] }
{
    inner::fresh(state).into()
}

#[unsafe(no_mangle)]
pub extern "C" fn within_activate(
    rules: &[u16],
    kinds: &[u16],
    rights: &[u16],
    state: &mut [u16],
    user: u16,
    role: u16,
) -> Reply
    requires { Sound (lent rules.now kinds.now rights.now) state.old }
    ensures { Keeps (answer (lent rules.now kinds.now rights.now) state.old [] (activate_call user role)) result.code result.second state.new [] }
{
    let policy = Lent {
        rules,
        kinds,
        rights,
    };
    inner::activate(policy, state, user, role).into()
}

#[unsafe(no_mangle)]
pub extern "C" fn within_appoint(
    rules: &[u16],
    kinds: &[u16],
    rights: &[u16],
    state: &mut [u16],
    appointer: u16,
    appointee: u16,
    kind: u16,
) -> Reply
    requires { Sound (lent rules.now kinds.now rights.now) state.old }
    ensures { Keeps (answer (lent rules.now kinds.now rights.now) state.old [] (appoint_call appointer appointee kind)) result.code result.second state.new [] }
{
    let policy = Lent {
        rules,
        kinds,
        rights,
    };
    let certificate = Certificate {
        appointee,
        kind,
        appointer,
    };
    inner::appoint(policy, state, certificate).into()
}

#[unsafe(no_mangle)]
pub extern "C" fn within_revoke(
    rules: &[u16],
    kinds: &[u16],
    rights: &[u16],
    state: &mut [u16],
    caller: u16,
    appointee: u16,
    kind: u16,
    appointer: u16,
) -> Reply
    requires { Sound (lent rules.now kinds.now rights.now) state.old }
    ensures { Keeps (answer (lent rules.now kinds.now rights.now) state.old [] (revoke_call caller appointee kind appointer)) result.code result.second state.new [] }
{
    let policy = Lent {
        rules,
        kinds,
        rights,
    };
    let certificate = Certificate {
        appointee,
        kind,
        appointer,
    };
    taking::revoke(policy, state, caller, certificate).into()
}

#[unsafe(no_mangle)]
pub extern "C" fn within_withdraw(
    rules: &[u16],
    kinds: &[u16],
    rights: &[u16],
    state: &mut [u16],
    appointee: u16,
    kind: u16,
    appointer: u16,
) -> Reply
    requires { Sound (lent rules.now kinds.now rights.now) state.old }
    ensures { Keeps (answer (lent rules.now kinds.now rights.now) state.old [] (withdraw_call appointee kind appointer)) result.code result.second state.new [] }
{
    let policy = Lent {
        rules,
        kinds,
        rights,
    };
    let certificate = Certificate {
        appointee,
        kind,
        appointer,
    };
    taking::withdraw(policy, state, certificate).into()
}

#[unsafe(no_mangle)]
pub extern "C" fn within_environment(
    rules: &[u16],
    kinds: &[u16],
    rights: &[u16],
    state: &mut [u16],
    fact: u16,
    value: u16,
) -> Reply
    requires { Sound (lent rules.now kinds.now rights.now) state.old }
    ensures { Keeps (answer (lent rules.now kinds.now rights.now) state.old [] (environment_call fact value)) result.code result.second state.new [] }
{
    let policy = Lent {
        rules,
        kinds,
        rights,
    };
    taking::environment(policy, state, fact, value).into()
}

#[unsafe(no_mangle)]
pub extern "C" fn within_logout(
    rules: &[u16],
    kinds: &[u16],
    rights: &[u16],
    state: &mut [u16],
    user: u16,
) -> Reply
    requires { Sound (lent rules.now kinds.now rights.now) state.old }
    ensures { Keeps (answer (lent rules.now kinds.now rights.now) state.old [] (logout_call user)) result.code result.second state.new [] }
{
    let policy = Lent {
        rules,
        kinds,
        rights,
    };
    taking::logout(policy, state, user).into()
}

#[unsafe(no_mangle)]
pub extern "C" fn within_invoke(
    rules: &[u16],
    kinds: &[u16],
    rights: &[u16],
    state: &[u16],
    user: u16,
    privilege: u16,
) -> Reply
    requires { Sound (lent rules.now kinds.now rights.now) state.now }
    ensures { Keeps (answer (lent rules.now kinds.now rights.now) state.now [] (invoke_call user privilege)) result.code result.second state.now [] }
{
    let policy = Lent {
        rules,
        kinds,
        rights,
    };
    query::invoke(policy, state, user, privilege).into()
}

#[unsafe(no_mangle)]
pub extern "C" fn within_effective(
    rules: &[u16],
    kinds: &[u16],
    rights: &[u16],
    state: &[u16],
    user: u16,
    role: u16,
    privilege: u16,
) -> Reply
    requires { Sound (lent rules.now kinds.now rights.now) state.now }
    ensures { Keeps (answer (lent rules.now kinds.now rights.now) state.now [] (effective_call user role privilege)) result.code result.second state.now [] }
{
    let policy = Lent {
        rules,
        kinds,
        rights,
    };
    query::effective(policy, state, user, role, privilege).into()
}

#[unsafe(no_mangle)]
pub extern "C" fn within_chain(
    rules: &[u16],
    kinds: &[u16],
    rights: &[u16],
    state: &[u16],
    user: u16,
    role: u16,
    list: &mut [u16],
) -> Reply
    requires { Sound (lent rules.now kinds.now rights.now) state.now }
    ensures { Keeps (answer (lent rules.now kinds.now rights.now) state.now list.old (chain_call user role)) result.code result.second state.now list.new }
{
    let policy = Lent {
        rules,
        kinds,
        rights,
    };
    query::chain(policy, state, user, role, list).into()
}
