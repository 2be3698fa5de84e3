// The scanner: where records and fields of a lent text end, what a field says, and a record as a line. Nothing is copied but numbers.

#![tactic(auto)]

ghost use Rattle.std.specs.Prelude.{◌≡◌, ◌&&◌, ◌≤◌, leb, length};
ghost use Rattle.program.specs.Text.{unquoted};
ghost use Rattle.program.specs.Vocabulary.{same, word_of, numbered};
ghost use Rattle.program.specs.Lines.{line_from, line_of};
ghost use Rattle.program.specs.Said.{number_of as word_number, word_said, line_said};
ghost use Rattle.text.specs.Places.{part, Within, record_end, field_end, said_behind, number_of, written_behind};

use program::{DIGIT_ZERO, Line, MOST_NUMBERS, Word};

const COMMA: u8 = b',';

const QUOTE: u8 = b'"';

const CRLF: &[u8] = b"\r\n";

// Where the record ends that begins at `from`: at the CRLF, or at the text's end.
pub fn record_end(text: &[u8], from: usize) -> usize
    requires { from ≤ length text.now }
    ensures { result ≡ record_end text.now from }
{
    let crlf = text[from..].windows(2).position(|pair| pair == CRLF);
    crlf.map_or(text.len(), |n| from + n)
}

// Where the field ends that begins at `from`: at the comma, or at the record's end.
pub fn field_end(bytes: &[u8], from: usize) -> usize
    requires { from ≤ length bytes.now }
    ensures { result ≡ field_end bytes.now from }
{
    let comma = bytes[from..].iter().position(|b| *b == COMMA);
    comma.map_or(bytes.len(), |n| from + n)
}

// The field between two places, without the quotes around it if it has them: a part of the text.
#[tactic(auto, using(crate::proofs::Quotes::unquoting))]
pub fn field(text: &[u8], from: usize, to: usize) -> &[u8]
    requires { Within text.now from to }
    ensures { result.now ≡ unquoted (part text.now from to) }
{
    match &text[from..to] {
        [QUOTE, inside @ .., QUOTE] => inside,
        whole => whole,
    }
}

// The number that digits write, with leading zeros or without.
fn value_written(field: &[u8]) -> Option<u16>
    ensures { result ≡ written_behind 0 field.now }
{
    let mut value: u16 = 0;
    for b in field {
        if !b.is_ascii_digit() {
            return None;
        }
        value = value
            .checked_mul(10)?
            .checked_add(u16::from(*b - DIGIT_ZERO))?;
    }
    Some(value)
}

#[tactic(auto, using(crate::proofs::Digits::first_digits))]
fn number_of(field: &[u8]) -> Option<u16>
    ensures { result ≡ number_of field.now }
{
    match field {
        [] | [DIGIT_ZERO, _, ..] => None,
        _ => value_written(field),
    }
}

// The words in the vocabulary's order.
const WORDS: [Word; 11] = [
    Word::Rule,
    Word::Kind,
    Word::Right,
    Word::Activate,
    Word::Appoint,
    Word::Revoke,
    Word::Withdraw,
    Word::Env,
    Word::Logout,
    Word::Invoke,
    Word::Effective,
];

// A word's letters, which are its name's in lower case.
fn spelling(word: Word) -> &'static [u8]
    ensures { result.now ≡ (numbered (word_number word)).letters }
{
    match word {
        Word::Rule => b"rule",
        Word::Kind => b"kind",
        Word::Right => b"right",
        Word::Activate => b"activate",
        Word::Appoint => b"appoint",
        Word::Revoke => b"revoke",
        Word::Withdraw => b"withdraw",
        Word::Env => b"env",
        Word::Logout => b"logout",
        Word::Invoke => b"invoke",
        Word::Effective => b"effective",
    }
}

fn says(field: &[u8], word: Word) -> bool
    ensures { result ≡ same field.now (numbered (word_number word)).letters }
{
    field == spelling(word)
}

// The word that the field says.
fn word_of(field: &[u8]) -> Option<Word>
    ensures { word_said result ≡ word_of field.now }
{
    WORDS.iter().find(|word| says(field, **word)).copied()
}

// The least and the greatest number of fields behind each word, in the vocabulary's order.
const FIELD_COUNTS: [(u16, u16); 11] = [
    (2, 10),
    (2, 6),
    (2, 2),
    (2, 2),
    (3, 3),
    (4, 4),
    (3, 3),
    (2, 2),
    (1, 1),
    (2, 2),
    (3, 3),
];

// The place of a word in the vocabulary.
fn place_of(word: Word) -> usize
    ensures { result ≡ word_number word }
{
    word as usize
}

// The word may have that many fields behind it.
fn count_fits(word: Word, count: u16) -> bool
    ensures { result ≡ (leb (numbered (word_number word)).least count && leb count (numbered (word_number word)).greatest) }
{
    let (least, greatest) = FIELD_COUNTS[place_of(word)];
    least <= count && count <= greatest
}

// The line of a word whose field ends at `from`, with the fields behind it.
fn line_behind(bytes: &[u8], word: Word, from: usize) -> Option<Line>
    requires { from ≤ length bytes.now }
    ensures { line_said result ≡ line_from (word_number word) (said_behind bytes.now from) }
{
    let mut numbers = [0; MOST_NUMBERS];
    let mut count = 0;
    let mut at = from;
    // From the end of a field to the end of the next: no step is one place.
    while at < bytes.len() {
        if MOST_NUMBERS <= count {
            return None;
        }
        let start = at + 1;
        let end = field_end(bytes, start);
        numbers[count] = number_of(field(bytes, start, end))?;
        count += 1;
        at = end;
    }
    let count = count as u16;
    if !count_fits(word, count) {
        return None;
    }
    Some(Line {
        word,
        count,
        numbers,
    })
}

// What a record says.
pub fn line_of(bytes: &[u8]) -> Option<Line>
    ensures { line_said result ≡ line_of bytes.now }
{
    let end = field_end(bytes, 0);
    let word = word_of(field(bytes, 0, end))?;
    line_behind(bytes, word, end)
}
