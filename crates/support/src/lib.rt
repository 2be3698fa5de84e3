// Which rows keep their support, in one pass from the first row to the last. A row rests on earlier rows of its own user only, so users are
// judged one after the other, each along the queue of the user's rows: one user's marks are all that is kept at a time.

#![tactic(auto)]

ghost use Rattle.std.specs.Prelude.{◌≡◌, ◌≢◌, false, [], ℕ, ◌+◌, ◌<◌, None, replicate};
ghost use Rattle.std.proofs.Props.{props};
ghost use Rattle.model.specs.Limits.{most_rows};
ghost use Rattle.model.specs.Layout.{decode, row_count, certificate_count, rows_at, certificates_at};
ghost use Rattle.table.specs.Entries.{row_at, world_at};
ghost use Rattle.marks.specs.Marked.{own_marks};
ghost use Rattle.marks.specs.Owned.{InRange, Own};
ghost use Rattle.queues.specs.Queued.{Queued};
ghost use Rattle.queues.proofs.Linking.{Link-prop};
ghost use Rattle.support.specs.Verdicts.{world_under, kept, verdict_at, Correct, UserJudged, Judged};

use marks::OwnMarks;
use model::{CERTIFICATE_COUNT_AT, CERTIFICATES_AT, Lent, MOST_ROWS, ROW_COUNT_AT, ROWS_AT};
use queues::Queues;

// What is said of a row.
#[derive(Clone, Copy, Debug, PartialEq, Eq)]
pub enum Verdict {
    Stays,
    Falls,
    // It stays, and its user is in its role by an earlier row.
    Twice,
}

// What the pass goes by: the tables that are lent, and the rows and the certificates of the state, queued.
#[derive(Drop)]
struct Pass<'a> {
    policy: Lent<'a>,
    state: &'a [u16],
    rows: &'a Queues,
    certificates: &'a Queues,
    ghost in_range: { InRange state.now },
    ghost rows_queued: { Queued state.now rows_at (row_count state.now) rows.now } by { Prim.hlevel (props, Link-prop) },
    ghost certificates_queued: { Queued state.now certificates_at (certificate_count state.now) certificates.now } by { Prim.hlevel (props, Link-prop) },
}

impl Pass<'_> {
    // The kinds that stand for the user are marked, along the queue of the user's certificates.
    fn enter_kinds(&self, user: u16, own: &mut OwnMarks)
        requires { own.old ≡ replicate own_marks false }
        ensures { Own user own.new [] (decode self.now.state.now).certificates }
    {
        let mut next = self.certificates.first(user);
        while let Some(k) = next {
            next = self.certificates.behind(k);
            let certificate = table::certificate_at(self.state, k);
            if certificate.appointee == user {
                own[marks::KINDS_AT + usize::from(certificate.kind)] = true;
            }
        }
    }

    // Row k is judged by its user's marks, and marked if it stays.
    fn judge_row(&self, own: &mut OwnMarks, k: usize) -> Verdict
        requires { (k < row_count self.now.state.now) × Own (row_at self.now.state.now k).user own.old (kept (world_under self.now.policy self.now.state.now) self.now.state.now k) (decode self.now.state.now).certificates }
        ensures said { result ≡ verdict_at (world_under self.now.policy self.now.state.now) self.now.state.now k }
        ensures entered { Own (row_at self.now.state.now k).user own.new (kept (world_under self.now.policy self.now.state.now) self.now.state.now (k + 1)) (decode self.now.state.now).certificates }
    {
        let row = table::row_at(self.state, k);
        if !marks::row_supported(self.policy, self.state, own, row) {
            return Verdict::Falls;
        }
        let role = usize::from(row.role);
        if own[role] {
            return Verdict::Twice;
        }
        own[role] = true;
        Verdict::Stays
    }

    // Of row i's user all rows are judged, from row i on.
    fn judge_user(&self, own: &mut OwnMarks, i: usize, verdicts: &mut [Option<Verdict>])
        requires { (i < row_count self.now.state.now) × Own (row_at self.now.state.now i).user own.old (kept (world_under self.now.policy self.now.state.now) self.now.state.now i) (decode self.now.state.now).certificates × Correct (world_under self.now.policy self.now.state.now) self.now.state.now verdicts.old }
        ensures { UserJudged (world_under self.now.policy self.now.state.now) self.now.state.now i verdicts.old verdicts.new }
    {
        let user = table::row_at(self.state, i).user;
        let mut next = Some(i);
        while let Some(k) = next {
            next = self.rows.behind(k);
            let row = table::row_at(self.state, k);
            if row.user == user {
                verdicts[k] = Some(self.judge_row(own, k));
            }
        }
    }

    // The same where row i is the first of its user's: no role is marked yet, and the kinds that stand for the user are marked here.
    fn judge_from_first(&self, i: usize, verdicts: &mut [Option<Verdict>])
        requires { (i < row_count self.now.state.now) × ((h : ℕ) → h < i → (row_at self.now.state.now h).user ≢ (row_at self.now.state.now i).user) × Correct (world_under self.now.policy self.now.state.now) self.now.state.now verdicts.old }
        ensures { UserJudged (world_under self.now.policy self.now.state.now) self.now.state.now i verdicts.old verdicts.new }
    {
        let row = table::row_at(self.state, i);
        let mut own = [false; marks::OWN_MARKS];
        self.enter_kinds(row.user, &mut own);
        self.judge_user(&mut own, i, verdicts);
    }

    // User after user: where a row is not judged yet, it is the first of its user's, and all of them are judged.
    fn judge_each(&self, verdicts: &mut [Option<Verdict>; MOST_ROWS])
        requires { verdicts.old ≡ replicate most_rows None }
        ensures { Judged (world_under self.now.policy self.now.state.now) self.now.state.now verdicts.new }
    {
        for i in 0..usize::from(self.state[ROW_COUNT_AT]) {
            if verdicts[i].is_none() {
                self.judge_from_first(i, verdicts);
            }
        }
    }
}

// Says of each row whether it stays. Nothing is said before.
pub fn judge_rows(policy: Lent, state: &[u16], verdicts: &mut [Option<Verdict>; MOST_ROWS])
    requires { InRange state.now × (verdicts.old ≡ replicate most_rows None) }
    ensures { Judged (world_at policy.entry.rules.now policy.entry.kinds.now state.now) state.now verdicts.new }
{
    let mut rows = Queues::empty();
    rows.queue_up(state, ROWS_AT, usize::from(state[ROW_COUNT_AT]));
    let mut certificates = Queues::empty();
    certificates.queue_up(
        state,
        CERTIFICATES_AT,
        usize::from(state[CERTIFICATE_COUNT_AT]),
    );
    let pass = Pass {
        policy,
        state,
        rows: &rows,
        certificates: &certificates,
    };
    pass.judge_each(verdicts);
}
