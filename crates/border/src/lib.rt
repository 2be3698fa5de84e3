// What terminals link: the ten public calls for C, each under a name that C links. A slice is a pointer and a count, so the tables of a
// policy come one by one; an answer is a struct by value.

#![tactic(auto)]

ghost use Rattle.std.specs.Prelude.{◌≡◌, []};
ghost use Rattle.model.specs.Outcome.{Keeps};
ghost use Rattle.model.specs.Calls.{answer, fresh as fresh_call, activate as activate_call, appoint as appoint_call, revoke as revoke_call, withdraw as withdraw_call, environment as environment_call, logout as logout_call, invoke as invoke_call, effective as effective_call, chain as chain_call};
ghost use Rattle.inner.specs.Promise.{lent};

use model::{Certificate, Lent, Reply};

#[unsafe(no_mangle)]
pub extern "C" fn adobethrum_fresh(state: &mut [u16]) -> Reply
    ensures { Keeps (answer (lent [] [] []) state.old [] fresh_call) result.code result.second state.new [] }
{
    calls::fresh(state).into()
}

#[unsafe(no_mangle)]
pub extern "C" fn adobethrum_activate(
    rules: &[u16],
    kinds: &[u16],
    rights: &[u16],
    state: &mut [u16],
    user: u16,
    role: u16,
) -> Reply
    ensures { Keeps (answer (lent rules.now kinds.now rights.now) state.old [] (activate_call user role)) result.code result.second state.new [] }
{
    let policy = Lent {
        rules,
        kinds,
        rights,
    };
    calls::activate(policy, state, user, role).into()
}

#[unsafe(no_mangle)]
pub extern "C" fn adobethrum_appoint(
    rules: &[u16],
    kinds: &[u16],
    rights: &[u16],
    state: &mut [u16],
    appointer: u16,
    appointee: u16,
    kind: u16,
) -> Reply
    ensures { Keeps (answer (lent rules.now kinds.now rights.now) state.old [] (appoint_call appointer appointee kind)) result.code result.second state.new [] }
{
    let policy = Lent {
        rules,
        kinds,
        rights,
    };
    let certificate = Certificate {
        appointee,
        kind,
        appointer,
    };
    calls::appoint(policy, state, certificate).into()
}

#[unsafe(no_mangle)]
pub extern "C" fn adobethrum_revoke(
    rules: &[u16],
    kinds: &[u16],
    rights: &[u16],
    state: &mut [u16],
    caller: u16,
    appointee: u16,
    kind: u16,
    appointer: u16,
) -> Reply
    ensures { Keeps (answer (lent rules.now kinds.now rights.now) state.old [] (revoke_call caller appointee kind appointer)) result.code result.second state.new [] }
{
    let policy = Lent {
        rules,
        kinds,
        rights,
    };
    let certificate = Certificate {
        appointee,
        kind,
        appointer,
    };
    calls::revoke(policy, state, caller, certificate).into()
}

#[unsafe(no_mangle)]
pub extern "C" fn adobethrum_withdraw(
    rules: &[u16],
    kinds: &[u16],
    rights: &[u16],
    state: &mut [u16],
    appointee: u16,
    kind: u16,
    appointer: u16,
) -> Reply
    ensures { Keeps (answer (lent rules.now kinds.now rights.now) state.old [] (withdraw_call appointee kind appointer)) result.code result.second state.new [] }
{
    let policy = Lent {
        rules,
        kinds,
        rights,
    };
    let certificate = Certificate {
        appointee,
        kind,
        appointer,
    };
    calls::withdraw(policy, state, certificate).into()
}

#[unsafe(no_mangle)]
pub extern "C" fn adobethrum_environment(
    rules: &[u16],
    kinds: &[u16],
    rights: &[u16],
    state: &mut [u16],
    fact: u16,
    value: u16,
) -> Reply
    ensures { Keeps (answer (lent rules.now kinds.now rights.now) state.old [] (environment_call fact value)) result.code result.second state.new [] }
{
    let policy = Lent {
        rules,
        kinds,
        rights,
    };
    calls::environment(policy, state, fact, value).into()
}

#[unsafe(no_mangle)]
pub extern "C" fn adobethrum_logout(
    rules: &[u16],
    kinds: &[u16],
    rights: &[u16],
    state: &mut [u16],
    user: u16,
) -> Reply
    ensures { Keeps (answer (lent rules.now kinds.now rights.now) state.old [] (logout_call user)) result.code result.second state.new [] }
{
    let policy = Lent {
        rules,
        kinds,
        rights,
    };
    calls::logout(policy, state, user).into()
}

#[unsafe(no_mangle)]
pub extern "C" fn adobethrum_invoke(
    rules: &[u16],
    kinds: &[u16],
    rights: &[u16],
    state: &[u16],
    user: u16,
    privilege: u16,
) -> Reply
    ensures { Keeps (answer (lent rules.now kinds.now rights.now) state.now [] (invoke_call user privilege)) result.code result.second state.now [] }
{
    let policy = Lent {
        rules,
        kinds,
        rights,
    };
    calls::invoke(policy, state, user, privilege).into()
}

#[unsafe(no_mangle)]
pub extern "C" fn adobethrum_effective(
    rules: &[u16],
    kinds: &[u16],
    rights: &[u16],
    state: &[u16],
    user: u16,
    role: u16,
    privilege: u16,
) -> Reply
    ensures { Keeps (answer (lent rules.now kinds.now rights.now) state.now [] (effective_call user role privilege)) result.code result.second state.now [] }
{
    let policy = Lent {
        rules,
        kinds,
        rights,
    };
    calls::effective(policy, state, user, role, privilege).into()
}

#[unsafe(no_mangle)]
pub extern "C" fn adobethrum_chain(
    rules: &[u16],
    kinds: &[u16],
    rights: &[u16],
    state: &[u16],
    user: u16,
    role: u16,
    list: &mut [u16],
) -> Reply
    ensures { Keeps (answer (lent rules.now kinds.now rights.now) state.now list.old (chain_call user role)) result.code result.second state.now list.new }
{
    let policy = Lent {
        rules,
        kinds,
        rights,
    };
    calls::chain(policy, state, user, role, list).into()
}
