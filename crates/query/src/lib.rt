// The calls that only ask, on sound tables, for code that can show that they are sound. Each equals the model's call.

#![tactic(auto)]

ghost use Rattle.std.specs.Prelude.{Ok, ◌≡◌, false, ◌&&◌, cond, ◌<◌, ◌≤◌, eqb, length, get_or};
ghost use Rattle.model.specs.Limits.{roles, state_size, most_rows};
ghost use Rattle.model.specs.Layout.{row_count};
ghost use Rattle.model.specs.Calls.{invoke as invoke_call, effective as effective_call, chain as chain_call};
ghost use Rattle.model.specs.Words.{Sound};
ghost use Rattle.table.specs.Entries.{without_rights};
ghost use Rattle.model.specs.Answered.{tables_of};
ghost use Rattle.inner.specs.Promise.{Answers, AnswersWith};
ghost use Rattle.rests.specs.Asked.{AskedThrough};
ghost use Rattle.query.specs.Below.{row_below};
ghost use Rattle.query.specs.Reached.{rest_reaches, Ready, Tells};

use direct::Holders;
use model::{Answer, LIST_SIZE, Lent, PRIVILEGES, ROLES, ROW_COUNT_AT, Reason, Row, USERS};
use rests::{ASKED_MARKS, Asked};

// Accepted, with 1 or 0.
fn told(so: bool) -> Answer
    ensures { result ≡ Ok (cond so 1 0) }
{
    Ok(u16::from(so))
}

pub fn invoke(policy: Lent, state: &[u16], user: u16, privilege: u16) -> Answer
    requires { Sound (tables_of policy) state.now }
    ensures { Answers (tables_of policy.entry) state.now (invoke_call user privilege) result state.now }
{
    if user >= USERS || privilege >= PRIVILEGES {
        return Err(Reason::OutOfRange);
    }
    told(direct::may_invoke(policy.rights, state, user, privilege))
}

// The row is the user's, and its role is asked.
fn is_asked(row: Row, user: u16, asked: &Asked) -> bool
    requires { row.role < roles }
    ensures { result ≡ (eqb row.user user && get_or asked.now row.role false) }
{
    row.user == user && asked[usize::from(row.role)]
}

// What asking goes by: the tables that are lent, the roles that have the privilege themselves, the state and the user.
#[derive(Drop)]
struct Asking<'a> {
    policy: Lent<'a>,
    having: &'a Holders,
    state: &'a [u16],
    user: u16,
    ghost ready: { Ready (without_rights policy.rules.now policy.kinds.now) having.now state.now user },
}

impl Asking<'_> {
    // Some role that is asked carries the privilege, in the first k rows. A row rests on earlier rows only, so one pass down the rows
    // meets each role after all that ask for it, and no row is asked twice: a rule may name one role eight times.
    #[cycle(certificates_reach_roles_reach)]
    fn roles_reach(&self, asked: &mut Asked, k: usize) -> bool
        requires { (k ≤ row_count self.now.state.now) × AskedThrough self.now.policy.kinds.now asked.old }
        ensures { Tells (without_rights self.now.policy.rules.now self.now.policy.kinds.now) self.now.having.now self.now.state.now self.now.user asked.old k false result }
    {
        for i in (0..k).rev() {
            let row = table::row_at(self.state, i);
            if !is_asked(row, self.user, asked) {
                continue;
            }
            if direct::has_right(self.having, row.role) {
                return true;
            }
            if !rests::ask_row(self.policy.rules, row, asked) {
                return self.certificates_reach(asked, i);
            }
        }
        false
    }

    // Some role that is asked, or on which row k rests, carries the privilege, in the first k rows. The kinds that the row names ask for
    // their prerequisite roles.
    #[cycle(certificates_reach_roles_reach)]
    fn certificates_reach(&self, asked: &mut Asked, k: usize) -> bool
        requires { (k < row_count self.now.state.now) × AskedThrough self.now.policy.kinds.now asked.old }
        ensures { Tells (without_rights self.now.policy.rules.now self.now.policy.kinds.now) self.now.having.now self.now.state.now self.now.user asked.old k (rest_reaches (without_rights self.now.policy.rules.now self.now.policy.kinds.now) self.now.having.now self.now.state.now self.now.user k) result }
    {
        let rule = rests::own_rule(self.policy.rules, table::row_at(self.state, k));
        for number in rule.membership() {
            rests::ask_condition(self.policy.kinds, *number, asked);
        }
        self.roles_reach(asked, k)
    }
}

pub fn effective(policy: Lent, state: &[u16], user: u16, role: u16, privilege: u16) -> Answer
    requires { Sound (tables_of policy) state.now }
    ensures { Answers (tables_of policy.entry) state.now (effective_call user role privilege) result state.now }
{
    if user >= USERS || role >= ROLES || privilege >= PRIVILEGES {
        return Err(Reason::OutOfRange);
    }
    let n = usize::from(state[ROW_COUNT_AT]);
    if !table::is_active(state, n, user, role) {
        return Err(Reason::NotActive);
    }
    let having = direct::roles_having(policy.rights, privilege);
    let asking = Asking {
        policy,
        having: &having,
        state,
        user,
    };
    let mut asked = [false; ASKED_MARKS];
    asked[usize::from(role)] = true;
    told(asking.roles_reach(&mut asked, n))
}

// The place of the row that row k rests on first: the user's newest before it for the role that it asks for first.
fn row_below(policy: Lent, state: &[u16], k: usize, user: u16) -> Option<usize>
    requires { (length state.now ≡ state_size) × (k < most_rows) }
    ensures { result ≡ row_below (without_rights policy.entry.rules.now policy.entry.kinds.now) state.now user k }
{
    let role = rests::next_role(policy, table::row_at(state, k))?;
    rests::newest_row(state, k, user, role)
}

// A row rests on earlier rows, so no role is written twice and the list has room for all.
pub fn chain(policy: Lent, state: &[u16], user: u16, role: u16, list: &mut [u16]) -> Answer
    requires { Sound (tables_of policy) state.now }
    ensures { AnswersWith (tables_of policy.entry) state.now list.old (chain_call user role) result state.now list.new }
{
    let fits = list.len() == LIST_SIZE;
    if user >= USERS || role >= ROLES || !fits {
        return Err(Reason::OutOfRange);
    }
    let mut next = rests::newest_row(state, usize::from(state[ROW_COUNT_AT]), user, role);
    if next.is_none() {
        return Err(Reason::NotActive);
    }
    let mut n: usize = 0;
    while let Some(k) = next {
        list[n] = table::row_at(state, k).role;
        n += 1;
        next = row_below(policy, state, k, user);
    }
    table::zero(list, n, LIST_SIZE);
    Ok(n as u16)
}
