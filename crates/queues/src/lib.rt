// Queues: the entries of a table that may be one user's, one after the other. Active rows and certificates are three numbers each, and the
// first is a user. Users are told apart by what is left of their numbers over 512, so that of 4,096 users at most eight share a queue.

#![tactic(auto)]

ghost use Rattle.std.specs.Prelude.{◌≡◌, ◌+◌, ◌*◌, ◌≤◌, ◌<◌, length};
ghost use Rattle.queues.specs.Queued.{entry_width, most_entries, queues, queue, entry, unqueued, Queued, first_entry, entry_behind};

// How many queues there are.
const QUEUES: usize = 512;

// How many entries a table has at most.
const MOST_ENTRIES: usize = 256;

const WIDTH: usize = 3;

// Which queue the user's entries are in.
pub fn queue_of(user: u16) -> usize
    ensures few { result < queues }
    ensures own { result ≡ queue user }
{
    user as usize % QUEUES
}

// Stands where a queue ends, and in the place of a queue without entries.
const NO_ENTRY: u16 = 256;

// The entry that a number stands for, if it stands for one.
fn entry(number: u16) -> Option<usize>
    ensures { result ≡ entry number }
{
    if number < NO_ENTRY {
        Some(usize::from(number))
    } else {
        None
    }
}

// The entries of one table, queued: where each queue begins, and which entry of its queue comes behind each entry. A place is one number and
// not an Option, which is written in two parts and read as one, and so is slower where a queue's entries stand close together.
#[derive(Drop)]
pub struct Queues {
    heads: [u16; QUEUES],
    next: [u16; MOST_ENTRIES],
}

impl Queues {
    // No entry is queued yet.
    pub fn empty() -> Queues
        ensures { result ≡ unqueued }
    {
        Queues {
            heads: [NO_ENTRY; QUEUES],
            next: [NO_ENTRY; MOST_ENTRIES],
        }
    }

    // The n entries that stand from `place` on are queued, in place: filled queues that are handed back are copied on the way.
    pub fn queue_up(&mut self, state: &[u16], place: usize, n: usize)
        requires { (n ≤ most_entries) × (n * entry_width + place ≤ length state.now) × (self.old ≡ unqueued) }
        ensures { Queued state.now place n self.new }
    {
        for i in (0..n).rev() {
            let b = queue_of(state[i * WIDTH + place]);
            self.next[i] = self.heads[b];
            self.heads[b] = i as u16;
        }
    }

    // The first entry of the user's queue.
    pub fn first(&self, user: u16) -> Option<usize>
        ensures { result ≡ first_entry self.now user }
    {
        entry(self.heads[queue_of(user)])
    }

    // The entry that comes behind this one in its queue.
    pub fn behind(&self, k: usize) -> Option<usize>
        requires { k < most_entries }
        ensures { result ≡ entry_behind self.now k }
    {
        entry(self.next[k])
    }
}
