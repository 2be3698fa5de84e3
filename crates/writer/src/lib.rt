// Writing what the program answers into lent bytes.

#![tactic(auto)]

ghost use Rattle.std.specs.Prelude.{◌≡◌, [], ◌∷◌, ◌+◌, ◌<◌, ◌≤◌, length};
ghost use Rattle.program.specs.Text.{cr, lf, decimal};
ghost use Rattle.program.specs.Program.{answer_record, bad_record};
ghost use Rattle.writer.specs.Writing.{Wrote};

use model::Reply;
use program::DIGIT_ZERO;

// The bytes that are lent, and the place behind what is written.
#[derive(Drop)]
pub struct Writer<'a> {
    pub out: &'a mut [u8],
    pub at: usize,
}

impl<'a> Writer<'a> {
    pub fn new(out: &'a mut [u8]) -> Writer<'a>
        ensures same_bytes { result.out.ghost_name ≡ out.entry.ghost_name }
        ensures start { (result.out.now ≡ out.old) × (result.at ≡ 0) }
    {
        Writer { out, at: 0 }
    }

    fn write(&mut self, bytes: &[u8])
        requires { self.old.at + length bytes.now ≤ length self.old.out.now }
        ensures same_bytes { self.new.out.ghost_name ≡ self.old.out.ghost_name }
        ensures wrote { Wrote self.old.out.now self.new.out.now self.old.at bytes.now self.new.at }
    {
        let end = self.at + bytes.len();
        self.out[self.at..end].copy_from_slice(bytes);
        self.at = end;
    }

    // The digits of the tenth part, unless it is zero, and a digit.
    // `write!` may answer an error, and no clause of its says when it does not: a record cannot be lost here.
    fn write_decimal(&mut self, n: usize)
        requires { self.old.at + length (decimal n) ≤ length self.old.out.now }
        ensures same_bytes { self.new.out.ghost_name ≡ self.old.out.ghost_name }
        ensures wrote { Wrote self.old.out.now self.new.out.now self.old.at (decimal n) self.new.at }
    {
        let higher = n / 10;
        if 0 < higher {
            self.write_decimal(higher);
        }
        self.write(&[DIGIT_ZERO + (n % 10) as u8]);
    }

    // "Each record written ends in CRLF".
    fn write_end(&mut self)
        requires { self.old.at + 2 ≤ length self.old.out.now }
        ensures same_bytes { self.new.out.ghost_name ≡ self.old.out.ghost_name }
        ensures wrote { Wrote self.old.out.now self.new.out.now self.old.at (cr ∷ lf ∷ []) self.new.at }
    {
        self.write(b"\r\n");
    }

    // "one record `code,second` for each event". Each number is below 65,536, so five digits are the most.
    pub fn write_answer(&mut self, reply: Reply)
        requires { self.old.at + 13 ≤ length self.old.out.now }
        ensures same_bytes { self.new.out.ghost_name ≡ self.old.out.ghost_name }
        ensures wrote { Wrote self.old.out.now self.new.out.now self.old.at (answer_record reply.code reply.second) self.new.at }
    {
        self.write_decimal(reply.code as usize);
        self.write(b",");
        self.write_decimal(reply.second as usize);
        self.write_end();
    }

    // "`bad,` and the record's number".
    pub fn write_bad(&mut self, n: usize)
        requires { (n < 100000) × (self.old.at + 11 ≤ length self.old.out.now) }
        ensures same_bytes { self.new.out.ghost_name ≡ self.old.out.ghost_name }
        ensures wrote { Wrote self.old.out.now self.new.out.now self.old.at (bad_record n) self.new.at }
    {
        self.write(b"bad,");
        self.write_decimal(n);
        self.write_end();
    }
}
