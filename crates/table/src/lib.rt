// Reading the lent tables, and writing their numbers. Every index is bounded before it is used: lent tables hold any numbers.

#![tactic(auto)]

ghost use Rattle.std.specs.Prelude.{ℕ, List, [], ◌≡◌, ◌+◌, ◌/◌, ◌<◌, ◌≤◌, min, length, take, drop};
ghost use Rattle.std.proofs.Common.{lit<};
ghost use Rattle.model.specs.Lists.{all, is_zero};
ghost use Rattle.model.specs.Limits.{rule_width, kind_width, right_width, row_width, certificate_width, state_size, most_rows, most_certificates};
ghost use Rattle.model.specs.Layout.{policy_of, rule_from, kind_from, right_from, row_from, certificate_from};
ghost use Rattle.model.specs.Conditions.{is_row, active, kind_numbered, rule_numbered};
ghost use Rattle.model.specs.Sound.{same_certificate};
ghost use Rattle.table.specs.Entries.{entry, rule_at, kind_at, right_at, row_at, first_rows, certificate_at, without_rights};
ghost use Rattle.table.specs.Writes.{Moved, Zeroed};

use model::{
    CERTIFICATE_COUNT_AT, CERTIFICATE_WIDTH, CERTIFICATES_AT, Certificate, KIND_WIDTH, Kind,
    MOST_CONDITIONS, RIGHT_WIDTH, ROW_WIDTH, ROWS_AT, RULE_WIDTH, Right, Row, Rule,
};

// A row of a table: how many numbers it has, and what they say.
trait Entry {
    ghost WIDTH: { ℕ };

    ghost from: { List ℕ → Self };

    const WIDTH: usize;

    // What exactly one row's numbers say.
    fn read(numbers: &[u16]) -> Self
        requires { length numbers.now ≡ WIDTH }
        ensures { result ≡ from numbers.now };

    ghost some_numbers: { 0 < WIDTH };
}

impl Entry for Rule {
    ghost WIDTH = { rule_width };

    ghost from = { rule_from };

    const WIDTH: usize = RULE_WIDTH;

    ghost some_numbers = { lit< tt };

    fn read(numbers: &[u16]) -> Rule {
        let mut conditions = [0; MOST_CONDITIONS];
        conditions.copy_from_slice(&numbers[3..]);
        Rule {
            target: numbers[0],
            n: numbers[1],
            m: numbers[2],
            conditions,
        }
    }
}

impl Entry for Kind {
    ghost WIDTH = { kind_width };

    ghost from = { kind_from };

    const WIDTH: usize = KIND_WIDTH;

    ghost some_numbers = { lit< tt };

    // The prerequisite roles are read one by one: a copy of four numbers is not judged in one step.
    fn read(numbers: &[u16]) -> Kind {
        Kind {
            appointer: numbers[0],
            mode: numbers[1],
            s: numbers[2],
            prerequisites: [numbers[3], numbers[4], numbers[5], numbers[6]],
        }
    }
}

impl Entry for Right {
    ghost WIDTH = { right_width };

    ghost from = { right_from };

    const WIDTH: usize = RIGHT_WIDTH;

    ghost some_numbers = { lit< tt };

    fn read(numbers: &[u16]) -> Right {
        Right {
            role: numbers[0],
            privilege: numbers[1],
        }
    }
}

impl Entry for Row {
    ghost WIDTH = { row_width };

    ghost from = { row_from };

    const WIDTH: usize = ROW_WIDTH;

    ghost some_numbers = { lit< tt };

    fn read(numbers: &[u16]) -> Row {
        Row {
            user: numbers[0],
            role: numbers[1],
            rule: numbers[2],
        }
    }
}

impl Entry for Certificate {
    ghost WIDTH = { certificate_width };

    ghost from = { certificate_from };

    const WIDTH: usize = CERTIFICATE_WIDTH;

    ghost some_numbers = { lit< tt };

    fn read(numbers: &[u16]) -> Certificate {
        Certificate {
            appointee: numbers[0],
            kind: numbers[1],
            appointer: numbers[2],
        }
    }
}

// Row i of a table that has one.
fn entry_at<E: Entry>(table: &[u16], i: usize) -> E
    requires { i < length table.now / E.WIDTH }
    ensures { result ≡ entry E.from E.WIDTH table.now i }
{
    E::read(&table[i * E::WIDTH..][..E::WIDTH])
}

// Row i of a table, or one of zeros where the table has none.
fn entry_numbered<E: Entry + Default>(table: &[u16], i: usize) -> E
    ensures there { i < length table.now / E.WIDTH → result ≡ entry E.from E.WIDTH table.now i }
    ensures beyond { length table.now / E.WIDTH ≤ i → E.is_default result }
{
    if i < table.len() / E::WIDTH {
        entry_at(table, i)
    } else {
        E::default()
    }
}

// The rule of a number that has a row.
#[tactic(auto, unfolding(crate::specs::Entries::rule_at))]
pub fn rule_at(rules: &[u16], i: usize) -> Rule
    requires { i < length rules.now / rule_width }
    ensures { result ≡ rule_at rules.now i }
{
    entry_at(rules, i)
}

// The kind of a number that has a row.
#[tactic(auto, unfolding(crate::specs::Entries::kind_at))]
pub fn kind_at(kinds: &[u16], k: usize) -> Kind
    requires { k < length kinds.now / kind_width }
    ensures { result ≡ kind_at kinds.now k }
{
    entry_at(kinds, k)
}

// The right in a row that there is.
#[tactic(auto, unfolding(crate::specs::Entries::right_at))]
pub fn right_at(rights: &[u16], i: usize) -> Right
    requires { i < length rights.now / right_width }
    ensures { result ≡ right_at rights.now i }
{
    entry_at(rights, i)
}

// Active row i, within the count or past it.
#[tactic(auto, unfolding(crate::specs::Entries::row_at))]
pub fn row_at(state: &[u16], i: usize) -> Row
    requires { (length state.now ≡ state_size) × (i < most_rows) }
    ensures { result ≡ row_at state.now i }
{
    entry_at(&state[ROWS_AT..CERTIFICATE_COUNT_AT], i)
}

// Certificate i, within the count or past it.
#[tactic(auto, unfolding(crate::specs::Entries::certificate_at))]
pub fn certificate_at(state: &[u16], i: usize) -> Certificate
    requires { (length state.now ≡ state_size) × (i < most_certificates) }
    ensures { result ≡ certificate_at state.now i }
{
    entry_at(&state[CERTIFICATES_AT..], i)
}

// The rule of any number: where there is no row, one of zeros.
pub fn rule_numbered(rules: &[u16], i: usize) -> Rule
    ensures { result ≡ rule_numbered (policy_of (without_rights rules.now [])) i }
{
    entry_numbered(rules, i)
}

// The kind of any number: where there is no row, one of zeros.
pub fn kind_numbered(kinds: &[u16], k: usize) -> Kind
    ensures { result ≡ kind_numbered (policy_of (without_rights [] kinds.now)) k }
{
    entry_numbered(kinds, k)
}

// The row says that the user is active in the role.
pub fn row_is(row: Row, user: u16, role: u16) -> bool
    ensures { result ≡ is_row user role row }
{
    row.user == user && row.role == role
}

// A certificate is its appointee, kind and appointer.
pub fn same_certificate(a: Certificate, b: Certificate) -> bool
    ensures { result ≡ same_certificate a b }
{
    a == b
}

// The user is active in the role, in one of the first k rows.
pub fn is_active(state: &[u16], k: usize, user: u16, role: u16) -> bool
    requires { (length state.now ≡ state_size) × (k ≤ most_rows) }
    ensures { result ≡ active (first_rows state.now k) user role }
{
    (0..k).any(|j| row_is(row_at(state, j), user, role))
}

// The numbers from a place on, as many as are asked for, are zero. They are joined and looked at once, so that the loop has no way out
// but its end and the machine may take several numbers in one step.
pub fn all_zero(numbers: &[u16], from: usize, count: usize) -> bool
    requires { from + count ≤ length numbers.now }
    ensures { result ≡ all is_zero (take count (drop from numbers.now)) }
{
    numbers[from..from + count]
        .iter()
        .fold(0, |joined, number| joined | number)
        == 0
}

// The numbers from a place up to another become zero.
pub fn zero(numbers: &mut [u16], from: usize, end: usize)
    requires { (from ≤ end) × (end ≤ length numbers.old) }
    ensures { Zeroed numbers.old numbers.new from end }
{
    numbers[from..end].fill(0);
}

// The numbers from `from` on, as many as are asked for, are moved down to `to`.
pub fn move_down(numbers: &mut [u16], from: usize, to: usize, count: usize)
    requires { (to ≤ from) × (from + count ≤ length numbers.old) }
    ensures { Moved numbers.old numbers.new from to count }
{
    numbers.copy_within(from..from + count, to);
}
