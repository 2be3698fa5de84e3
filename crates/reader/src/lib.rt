// "A reader walks the lent text record by record, holding the text and its place".

#![tactic(auto)]

ghost use Rattle.std.specs.Prelude.{◌≡◌};
ghost use Rattle.program.specs.Said.{line_said};
ghost use Rattle.reader.specs.Reading.{record_at, first_field_at, line_at, next_at};

use program::Line;

#[derive(Clone, Copy)]
pub struct Reader<'a> {
    pub text: &'a [u8],
    pub at: usize,
}

impl<'a> Reader<'a> {
    pub fn new(text: &'a [u8], at: usize) -> Reader<'a>
        ensures { (result.text ≡ text.entry) × (result.at ≡ at) }
    {
        Reader { text, at }
    }

    // The record that begins at the place: a part of the text, which lives as long as the text.
    pub fn record(self) -> &'a [u8]
        ensures { result.now ≡ record_at self.entry.text.now self.entry.at }
    {
        if self.text.len() < self.at {
            return &[];
        }
        let end = text::record_end(self.text, self.at);
        &self.text[self.at..end]
    }

    // Its first field, without the quotes around it if it has them.
    pub fn first_field(self) -> &'a [u8]
        ensures { result.now ≡ first_field_at self.entry.text.now self.entry.at }
    {
        let bytes = self.record();
        let end = text::field_end(bytes, 0);
        text::field(bytes, 0, end)
    }

    // What the record says.
    pub fn line(self) -> Option<Line>
        ensures { line_said result ≡ line_at self.entry.text.now self.entry.at }
    {
        text::line_of(self.record())
    }

    // The reader at the next record: past this one's CRLF, or at the text's end.
    pub fn moved(self) -> Reader<'a>
        ensures { (result.text ≡ self.entry.text) × (result.at ≡ next_at self.entry.text.now self.entry.at) }
    {
        let end = self.text.len();
        if end < self.at {
            return Reader::new(self.text, end);
        }
        let behind = text::record_end(self.text, self.at) + 2;
        Reader::new(self.text, behind.min(end))
    }
}
