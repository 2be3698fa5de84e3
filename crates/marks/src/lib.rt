// Judging conditions by marks. A user's own marks are one for each condition that is a role or a kind: the roles that the user is active
// in, then the kinds that stand for the user. So a condition is judged in as many steps as it asks for roles, however many rows there are.

#![tactic(auto)]

ghost use Rattle.std.specs.Prelude.{◌≡◌, false, ◌&&◌, [], ◌+◌, ◌<◌, replicate};
ghost use Rattle.model.specs.Lists.{all};
ghost use Rattle.model.specs.Limits.{most_kinds};
ghost use Rattle.model.specs.Layout.{decode, policy_of};
ghost use Rattle.model.specs.Conditions.{meant, activating, prerequisite_roles, kind_numbered};
ghost use Rattle.table.specs.Entries.{world_at, without_rights, Sized};
ghost use Rattle.marks.specs.Marked.{own_marks, has, role_marked, holds_by, all_hold_by, supported_by};
ghost use Rattle.marks.specs.Owned.{InRange, Own};

use model::{CERTIFICATE_COUNT_AT, Condition, Lent, ROLES, ROW_COUNT_AT, Row, Rule};

// How many marks a user has, and from which on they are kinds.
pub const OWN_MARKS: usize = 384;

pub const KINDS_AT: usize = 256;

// A user's own marks.
pub type OwnMarks = [bool; OWN_MARKS];

// The role is marked. A role out of range never is.
pub fn role_marked(own: &OwnMarks, role: u16) -> bool
    ensures { result ≡ role_marked (has own.now) role }
{
    role < ROLES && own[usize::from(role)]
}

// The roles are all marked.
fn all_marked(own: &OwnMarks, roles: &[u16]) -> bool
    ensures { result ≡ all (role_marked (has own.now)) roles.now }
{
    roles.iter().all(|role| role_marked(own, *role))
}

// A certificate of the kind stands, and the kind's prerequisite roles are marked.
fn kind_holds(kinds: &[u16], own: &OwnMarks, kind: u16) -> bool
    requires { kind < most_kinds }
    ensures { result ≡ (has own.now (256 + kind) && all (role_marked (has own.now)) (prerequisite_roles (kind_numbered (policy_of (without_rights [] kinds.now)) kind))) }
{
    let kind = usize::from(kind);
    own[KINDS_AT + kind] && all_marked(own, table::kind_numbered(kinds, kind).prerequisite_roles())
}

// The condition holds by the marks.
fn condition_holds(kinds: &[u16], state: &[u16], own: &OwnMarks, number: u16) -> bool
    requires { Sized state.now }
    ensures { result ≡ holds_by (has own.now) (world_at [] kinds.now state.now) (meant number) }
{
    match Condition::from(number) {
        Condition::Role(role) => role_marked(own, role),
        Condition::Kind(kind) => kind_holds(kinds, own, kind),
        Condition::Fact(fact) => state[usize::from(fact)] == 1,
        Condition::Malformed => false,
    }
}

// The conditions all hold by the marks.
fn all_conditions_hold(kinds: &[u16], state: &[u16], own: &OwnMarks, conditions: &[u16]) -> bool
    requires { Sized state.now }
    ensures { result ≡ all_hold_by (has own.now) (world_at [] kinds.now state.now) conditions.now }
{
    conditions
        .iter()
        .all(|number| condition_holds(kinds, state, own, *number))
}

// The membership conditions of the row's own rule hold by its user's own marks.
pub fn row_supported(policy: Lent, state: &[u16], own: &OwnMarks, row: Row) -> bool
    requires { Sized state.now }
    ensures { result ≡ supported_by (has own.now) (world_at policy.entry.rules.now policy.entry.kinds.now state.now) row }
{
    let rule = table::rule_numbered(policy.rules, usize::from(row.rule));
    all_conditions_hold(policy.kinds, state, own, rule.membership())
}

// The rule's conditions all hold by the marks.
pub fn rule_holds(kinds: &[u16], state: &[u16], own: &OwnMarks, rule: Rule) -> bool
    requires { Sized state.now }
    ensures { result ≡ all_hold_by (has own.now) (world_at [] kinds.now state.now) (activating rule) }
{
    all_conditions_hold(kinds, state, own, rule.activating())
}

// The roles that the user is active in are marked.
pub fn mark_roles(state: &[u16], user: u16, own: &mut OwnMarks)
    requires { InRange state.now × (own.old ≡ replicate own_marks false) }
    ensures { Own user own.new (decode state.now).rows [] }
{
    for i in 0..usize::from(state[ROW_COUNT_AT]) {
        let row = table::row_at(state, i);
        if row.user == user {
            own[usize::from(row.role)] = true;
        }
    }
}

// The kinds that stand for the user are marked. A row and a certificate lie in different tables, and differ in whom they are for and in
// what they mark: a function for both would be passed all of it, and its body is four lines.
pub fn mark_kinds(state: &[u16], user: u16, own: &mut OwnMarks)
    requires { InRange state.now × Own user own.old (decode state.now).rows [] }
    ensures { Own user own.new (decode state.now).rows (decode state.now).certificates }
{
    for i in 0..usize::from(state[CERTIFICATE_COUNT_AT]) {
        let certificate = table::certificate_at(state, i);
        if certificate.appointee == user {
            own[KINDS_AT + usize::from(certificate.kind)] = true;
        }
    }
}
