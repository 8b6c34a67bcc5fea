// The record reader: it views the file as lent bytes plus an offset.
#![tactic(auto)]

ghost use Rattle.std.specs.Prelude.{◌≡◌, ◌-◌, length};
ghost use Rattle.file_fields.specs.Views.{seen_in};
ghost use Rattle.file_records.specs.Records.{due_at};
ghost use Rattle.file_reader.specs.Readers.{behind, moved_to};

use file_fields::Seen;
use file_records::{Record, bytes_left, due_at};
use file_stages::Stage;
use network::refusal::Refusal;

// Lent bytes, and the offset at which the next record is due.
#[derive(Clone, Copy)]
pub struct Reader<'a> {
    pub src: &'a [u8],
    pub at: usize,
}

impl<'a> Reader<'a> {
    pub fn new(src: &'a [u8], at: usize) -> Reader<'a>
        ensures { result ≡ record { src = src.entry; at = at } }
    {
        Reader { src, at }
    }

    // Where the reader stands.
    pub fn at(self) -> usize
        ensures { result ≡ self.entry.at }
    {
        self.at
    }

    // How many bytes stand from there on; none where that is past the end.
    pub fn left(self) -> usize
        ensures { result ≡ length self.entry.src.now - self.entry.at }
    {
        bytes_left(self.src, self.at)
    }

    // The record due where the reader stands; the reader stays there.
    pub fn due(self, stage: Stage, seen: Seen) -> Result<Record, Refusal>
        ensures { result ≡ due_at self.entry.src.now (seen_in seen.entry) self.entry.at stage }
    {
        due_at(self.src, self.at, stage, seen)
    }

    // The record due where the reader stands; the reader moves behind it, or stays where it is refused.
    pub fn next(&mut self, stage: Stage, seen: Seen) -> Result<Record, Refusal>
        ensures { (result ≡ due_at self.old.src.now (seen_in seen.entry) self.old.at stage) × (self.new ≡ moved_to self.old (behind result self.old.at)) }
    {
        let record = due_at(self.src, self.at, stage, seen)?;
        self.at += record.length as usize;
        Ok(record)
    }
}
