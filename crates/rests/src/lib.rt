// What an active row rests on: the conditions of its own rule, the roles that they ask for, and where such a role stands. What is asked
// is marked, at the number by which a rule names it, so that nothing is asked twice.

#![tactic(auto)]

ghost use Rattle.std.specs.Prelude.{◌≡◌, [], ◌≤◌, ◌<◌, ◌+◌, length};
ghost use Rattle.std.specs.List.{slice_get};
ghost use Rattle.model.specs.Limits.{roles, most_kinds, state_size, most_rows};
ghost use Rattle.model.specs.Layout.{policy_of};
ghost use Rattle.model.specs.Conditions.{meant, membership, rule_numbered, roles_asked, rests_on};
ghost use Rattle.table.specs.Entries.{without_rights};
ghost use Rattle.rests.specs.Newest.{newest, before};
ghost use Rattle.rests.specs.Asked.{AskedThrough, Known, ConditionAsked, RowAsked};

use model::{Condition, FIRST_FACT, FIRST_KIND, Lent, ROLES, Row, Rule};

// A rule names roles and kinds by the numbers below the first fact's.
pub const ASKED_MARKS: usize = FIRST_FACT as usize;

// Of each number that names a role or a kind, whether it is asked.
pub type Asked = [bool; ASKED_MARKS];

// The rule under which the row was granted. What the row rests on are its membership conditions.
pub fn own_rule(rules: &[u16], row: Row) -> Rule
    ensures { result ≡ rule_numbered (policy_of (without_rights rules.now [])) row.rule }
{
    table::rule_numbered(rules, usize::from(row.rule))
}

// The first role that a condition asks for: a role asks for itself, a kind for its prerequisite roles, a fact for none.
fn first_role(kinds: &[u16], number: u16) -> Option<u16>
    ensures { result ≡ slice_get (roles_asked (policy_of (without_rights [] kinds.now)) (meant number)) 0 }
{
    match Condition::from(number) {
        Condition::Role(role) => Some(role),
        Condition::Kind(kind) => table::kind_numbered(kinds, usize::from(kind))
            .prerequisite_roles()
            .first()
            .copied(),
        Condition::Fact(_) | Condition::Malformed => None,
    }
}

// The first role that the row rests on.
pub fn next_role(policy: Lent, row: Row) -> Option<u16>
    ensures { result ≡ slice_get (rests_on (policy_of (without_rights policy.entry.rules.now policy.entry.kinds.now)) row) 0 }
{
    let rule = own_rule(policy.rules, row);
    for number in rule.membership() {
        if let Some(role) = first_role(policy.kinds, *number) {
            return Some(role);
        }
    }
    None
}

// The place of the newest of the first k rows in which the user is active in the role.
pub fn newest_row(state: &[u16], k: usize, user: u16, role: u16) -> Option<usize>
    requires { (length state.now ≡ state_size) × (k ≤ most_rows) }
    ensures { result ≡ before (newest state.now user role k) }
{
    (0..k)
        .rev()
        .find(|i| table::row_is(table::row_at(state, *i), user, role))
}

// The condition is asked, if that takes no more than its own mark: a role is marked, a kind that is marked has asked already, a fact asks
// for nothing. Says whether it is.
fn ask_known(number: u16, asked: &mut Asked) -> bool
    ensures { Known asked.old asked.new number result }
{
    match Condition::from(number) {
        Condition::Role(role) => {
            asked[usize::from(role)] = true;
            true
        }
        Condition::Kind(_) => asked[usize::from(number)],
        Condition::Fact(_) | Condition::Malformed => true,
    }
}

// A kind asks for its prerequisite roles, and is marked. A role out of range never stands.
fn ask_kind(kinds: &[u16], kind: u16, asked: &mut Asked)
    requires { (kind < most_kinds) × AskedThrough kinds.now asked.old }
    ensures { ConditionAsked kinds.now asked.old asked.new (roles + kind) }
{
    let row = table::kind_numbered(kinds, usize::from(kind));
    for role in row.prerequisite_roles() {
        if *role < ROLES {
            asked[usize::from(*role)] = true;
        }
    }
    asked[usize::from(FIRST_KIND + kind)] = true;
}

// What the condition asks for is marked.
pub fn ask_condition(kinds: &[u16], number: u16, asked: &mut Asked)
    requires { AskedThrough kinds.now asked.old }
    ensures { ConditionAsked kinds.now asked.old asked.new number }
{
    if !ask_known(number, asked) {
        ask_kind(kinds, number - FIRST_KIND, asked);
    }
}

// What the row rests on is asked, up to the first kind that has not asked yet. Says whether there is none.
pub fn ask_row(rules: &[u16], row: Row, asked: &mut Asked) -> bool
    ensures { RowAsked (membership (rule_numbered (policy_of (without_rights rules.now [])) row.rule)) asked.old asked.new result }
{
    let rule = own_rule(rules, row);
    for number in rule.membership() {
        if !ask_known(*number, asked) {
            return false;
        }
    }
    true
}
