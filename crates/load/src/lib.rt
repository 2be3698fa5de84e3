// The policy of the program's input: its records as rows of three tables, up to the first record that is none of the policy or has no
// room.

#![tactic(auto)]

ghost use Rattle.std.specs.Prelude.{◌≡◌, ◌++◌, ◌+◌, ◌*◌, ◌≤◌, length, take, true};
ghost use Rattle.model.specs.Limits.{most_rules, rule_width, most_kinds, kind_width, most_rights, right_width};
ghost use Rattle.program.specs.Said.{line_of_read};
ghost use Rattle.program.specs.Program.{rule_row, kind_row, right_row, with_row};
ghost use Rattle.load.specs.Loading.{has_room, Loads};
ghost use Rattle.load.specs.Filling.{tables_in, Fits, SameTables};

use model::{KIND_WIDTH, MOST_KINDS, MOST_RIGHTS, MOST_RULES, RIGHT_WIDTH, RULE_WIDTH};
use program::{Line, Word};
use reader::Reader;

// How many rows each table has.
#[derive(Clone, Copy, Debug, PartialEq, Eq, Default)]
pub struct Counts {
    pub rules: usize,
    pub kinds: usize,
    pub rights: usize,
}

// One row more, behind the first `rows`.
fn append<const WIDTH: usize>(table: &mut [u16], rows: usize, row: [u16; WIDTH])
    requires { rows * WIDTH + WIDTH ≤ length table.old }
    ensures { take (rows * WIDTH + WIDTH) table.new ≡ take (rows * WIDTH) table.old ++ row.entry }
{
    let at = rows * WIDTH;
    table[at..at + WIDTH].copy_from_slice(&row);
}

// The line as a row of its table. The record has target and m, or appointer role and mode; n and s are how many numbers follow these.
fn rule_row(line: Line) -> [u16; RULE_WIDTH]
    requires { 2 ≤ line.count }
    ensures { result ≡ rule_row (line_of_read line) }
{
    let n = line.numbers;
    let count = line.count - 2;
    [
        n[0], count, n[1], n[2], n[3], n[4], n[5], n[6], n[7], n[8], n[9],
    ]
}

fn kind_row(line: Line) -> [u16; KIND_WIDTH]
    requires { 2 ≤ line.count }
    ensures { result ≡ kind_row (line_of_read line) }
{
    let n = line.numbers;
    let count = line.count - 2;
    [n[0], n[1], count, n[2], n[3], n[4], n[5]]
}

fn right_row(line: Line) -> [u16; RIGHT_WIDTH]
    ensures { result ≡ right_row (line_of_read line) }
{
    let n = line.numbers;
    [n[0], n[1]]
}

// The tables that are being filled, and how many rows each has so far.
#[derive(Drop)]
struct Tables<'a> {
    rules: &'a mut [u16],
    kinds: &'a mut [u16],
    rights: &'a mut [u16],
    counts: Counts,
}

impl<'a> Tables<'a> {
    // There is room for the line's row; false also for a line that is none of the policy.
    #[tactic(auto, unfolding(crate::specs::Loading::has_room))]
    fn has_room(&self, line: Line) -> bool
        ensures { result ≡ has_room self.now.counts (line_of_read line) }
    {
        match line.word {
            Word::Rule => self.counts.rules < MOST_RULES,
            Word::Kind => self.counts.kinds < MOST_KINDS,
            Word::Right => self.counts.rights < MOST_RIGHTS,
            _ => false,
        }
    }

    // One row more.
    fn take(&mut self, line: Line)
        requires fits { Fits self.old }
        requires room { has_room self.old.counts (line_of_read line) ≡ true }
        requires counted { 2 ≤ line.count }
        ensures same_tables { SameTables self.old self.new }
        ensures fits { Fits self.new }
        ensures rows { tables_in self.new ≡ with_row (tables_in self.old) (line_of_read line) }
    {
        match line.word {
            Word::Rule => {
                append(self.rules, self.counts.rules, rule_row(line));
                self.counts.rules += 1;
            }
            Word::Kind => {
                append(self.kinds, self.counts.kinds, kind_row(line));
                self.counts.kinds += 1;
            }
            _ => {
                append(self.rights, self.counts.rights, right_row(line));
                self.counts.rights += 1;
            }
        }
    }
}

// Where the policy ends, and what it has come to.
#[derive(Clone, Copy, Debug, PartialEq, Eq)]
pub struct Loaded {
    pub at: usize,
    pub taken: usize,
    pub counts: Counts,
}

// Loads the records of the policy, up to the first that is none or has no room: what the program writes is what it writes from there on.
pub fn load(text: &[u8], rules: &mut [u16], kinds: &mut [u16], rights: &mut [u16]) -> Loaded
    requires { (length rules.old ≡ most_rules * rule_width) × (length kinds.old ≡ most_kinds * kind_width) × (length rights.old ≡ most_rights * right_width) }
    ensures { Loads text.now rules.new kinds.new rights.new result }
{
    let mut tables = Tables {
        rules,
        kinds,
        rights,
        counts: Counts::default(),
    };
    let mut reader = Reader::new(text, 0);
    let mut taken = 0;
    while let Some(line) = reader.line()
        && tables.has_room(line)
    {
        tables.take(line);
        taken += 1;
        reader = reader.moved();
    }
    Loaded {
        at: reader.at,
        taken,
        counts: tables.counts,
    }
}
