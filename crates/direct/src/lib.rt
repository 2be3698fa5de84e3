// Direct privileges: the roles that have a privilege themselves, and whether a user is active in one.

#![tactic(auto)]

ghost use Rattle.std.specs.Prelude.{◌≡◌, ◌&&◌, [], ◌+◌, ◌/◌, ◌≤◌, eqb, length};
ghost use Rattle.model.specs.Limits.{roles, right_width};
ghost use Rattle.model.specs.Layout.{decode, policy_of};
ghost use Rattle.model.specs.Calls.{allowed};
ghost use Rattle.table.specs.Entries.{lent, Sized};
ghost use Rattle.direct.specs.Having.{RightsFit, met, Said, holds_right, Having};

use model::{RIGHT_WIDTH, ROLES, ROW_COUNT_AT, Row};

// Of each role, whether it has a privilege itself.
pub type Holders = [bool; ROLES as usize];

// The privilege is among the numbers. All are looked at, so that the machine may take several in one step; a role of that number is met too,
// and then the rights are read in vain.
fn is_met(numbers: &[u16], privilege: u16) -> bool
    ensures { result ≡ met numbers.now privilege }
{
    numbers
        .iter()
        .fold(false, |met, number| met | (*number == privilege))
}

// The roles that have the privilege by the rights of some places are noted beside those that have it by the rights before.
fn note(rights: &[u16], privilege: u16, from: usize, to: usize, having: &mut Holders)
    requires { RightsFit rights.now × (from ≤ to) × (to ≤ length rights.now / right_width) × Said rights.now privilege from having.old }
    ensures { Said rights.now privilege to having.new }
{
    for i in from..to {
        let right = table::right_at(rights, i);
        if right.privilege == privilege {
            having[usize::from(right.role)] = true;
        }
    }
}

// The same for sixteen rights: they are read one by one only where the privilege is met among their numbers.
fn note_sixteen(rights: &[u16], privilege: u16, from: usize, having: &mut Holders)
    requires { RightsFit rights.now × (from + 16 ≤ length rights.now / right_width) × Said rights.now privilege from having.old }
    ensures { Said rights.now privilege (from + 16) having.new }
{
    let to = from + 16;
    if is_met(&rights[from * RIGHT_WIDTH..to * RIGHT_WIDTH], privilege) {
        note(rights, privilege, from, to, having);
    }
}

// Which roles have the privilege themselves: one pass over the rights serves all the rows that are asked afterwards.
pub fn roles_having(rights: &[u16], privilege: u16) -> Holders
    requires { RightsFit rights.now }
    ensures { Having rights.now privilege result }
{
    let mut having = [false; ROLES as usize];
    let n = rights.len() / RIGHT_WIDTH;
    for i in 0..n / 16 {
        note_sixteen(rights, privilege, i * 16, &mut having);
    }
    note(rights, privilege, n / 16 * 16, n, &mut having);
    having
}

// The role has the privilege itself.
pub fn has_right(having: &Holders, role: u16) -> bool
    ensures { result ≡ holds_right having.now role }
{
    role < ROLES && having[usize::from(role)]
}

// The row is the user's, and its role has the privilege.
fn row_carries(having: &Holders, row: Row, user: u16) -> bool
    ensures { result ≡ (eqb row.user user && holds_right having.now row.role) }
{
    row.user == user && has_right(having, row.role)
}

// Some active role of the user has the privilege.
pub fn may_invoke(rights: &[u16], state: &[u16], user: u16, privilege: u16) -> bool
    requires { Sized state.now × RightsFit rights.now }
    ensures { result ≡ allowed (policy_of (lent [] [] rights.now)) (decode state.now).rows user privilege }
{
    let n = usize::from(state[ROW_COUNT_AT]);
    if n == 0 {
        return false;
    }
    let having = roles_having(rights, privilege);
    (0..n).any(|i| row_carries(&having, table::row_at(state, i), user))
}
