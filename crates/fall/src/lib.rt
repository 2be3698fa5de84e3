// Rows go from a state, in place: those that have lost their support, or a user's. The rows left close up, and the count is set.

#![tactic(auto)]

ghost use Rattle.std.specs.Prelude.{◌≡◌, true, ℕ, ◌<◌, ◌≤◌, length};
ghost use Rattle.model.specs.Lists.{without};
ghost use Rattle.model.specs.Limits.{most_rows, state_size};
ghost use Rattle.model.specs.Layout.{decode, row_count};
ghost use Rattle.model.specs.Conditions.{supported};
ghost use Rattle.model.specs.Left.{left};
ghost use Rattle.model.specs.Sound.{well_formed};
ghost use Rattle.model.specs.Calls.{of_user};
ghost use Rattle.model.specs.declared.Row.{Row};
ghost use Rattle.table.specs.Entries.{world_at, Sized};
ghost use Rattle.marks.specs.Owned.{InRange};
ghost use Rattle.table.specs.Writes.{Moved};
ghost use Rattle.fall.specs.Pass.{row_place, is_kept, Closed, RowsLeft, RowsKept};

use model::{Lent, MOST_ROWS, ROW_COUNT_AT, ROW_WIDTH, ROWS_AT, Row};
use support::Verdict;

// Row i stands behind the first w rows. A row that need not move is not written.
fn keep_row(state: &mut [u16], w: usize, i: usize)
    requires { Sized state.old × (w ≤ i) × (i < most_rows) }
    ensures { Moved state.old state.new (row_place i) (row_place w) 3 }
{
    if w < i {
        table::move_down(
            state,
            i * ROW_WIDTH + ROWS_AT,
            w * ROW_WIDTH + ROWS_AT,
            ROW_WIDTH,
        );
    }
}

// Of n rows the first w are kept: the others become zero, and the count is w. Returns how many were lost.
fn close(state: &mut [u16], w: usize, n: usize) -> u16
    requires { (length state.old ≡ state_size) × (w ≤ n) × (n ≤ most_rows) }
    ensures { Closed state.old state.new w n result }
{
    table::zero(state, w * ROW_WIDTH + ROWS_AT, n * ROW_WIDTH + ROWS_AT);
    state[ROW_COUNT_AT] = w as u16;
    (n - w) as u16
}

// The pass from the first row to the last: those of which the test says so stay. Returns how many were lost.
fn sweep<F: Fn(usize, Row) -> bool>(state: &mut [u16], stays: F) -> u16
    requires formed { well_formed state.old ≡ true }
    requires callable { (i : ℕ) (row : Row) → i < most_rows → F.pre stays i row }
    ensures { RowsKept (F.post stays) state.old state.new result }
{
    let n = usize::from(state[ROW_COUNT_AT]);
    let mut w = 0;
    for i in 0..n {
        if stays(i, table::row_at(state, i)) {
            keep_row(state, w, i);
            w += 1;
        }
    }
    close(state, w, n)
}

// Row i was not said to fall.
fn is_kept(verdicts: &[Option<Verdict>], i: usize) -> bool
    requires { i < length verdicts.now }
    ensures { result ≡ is_kept verdicts.now i }
{
    verdicts[i] != Some(Verdict::Falls)
}

// Rows that have lost their support fall. Where there are none, nothing is made ready.
pub fn fall(policy: Lent, state: &mut [u16]) -> u16
    requires { (well_formed state.old ≡ true) × InRange state.old }
    ensures { RowsLeft state.old state.new (left (supported (world_at policy.entry.rules.now policy.entry.kinds.now state.old)) (decode state.old).rows) result }
{
    if state[ROW_COUNT_AT] == 0 {
        return 0;
    }
    let mut verdicts = [None; MOST_ROWS];
    support::judge_rows(policy, state, &mut verdicts);
    sweep(state, |i, _| is_kept(&verdicts, i))
}

// The user's rows go.
pub fn drop_user(state: &mut [u16], user: u16) -> u16
    requires { well_formed state.old ≡ true }
    ensures { RowsLeft state.old state.new (without (of_user user) (decode state.old).rows) result }
{
    sweep(state, |_, row| row.user != user)
}
