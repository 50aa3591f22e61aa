// Batches of whole records.
ghost use Rattle.std.specs.Prelude.{◌≡◌, [], ◌≤◌, ◌<◌};
ghost use Rattle.question.specs.Question.{week_minutes};
ghost use Rattle.figures.specs.Figures.{figures_of};
ghost use Rattle.figures.specs.Contract.{room_for, with_fields, with_refused, with_record, Feeds};

use super::amount::{add_to, below_zero, from_zero, is_from_zero};
use super::counts::{one_more, one_more_at, one_more_if};
use super::{FeedFault, Figures};
use record::read::read_record;
use record::{Fields, Record};

// How many of so many records there is room for.
fn room_for(given: u32, records: usize) -> usize
    ensures { result ≡ room_for given records }
{
    if given >= Figures::LIMIT {
        return 0;
    }
    records.min((Figures::LIMIT - given) as usize)
}

impl Figures {
    // The figures of no records.
    pub fn new() -> Self
        ensures { result ≡ figures_of [] }
    {
        Figures {
            answers: [0u32; Figures::ANSWERS],
            weekdays: [0u32; Figures::WEEKDAYS],
            hours: [0u32; Figures::HOURS],
            below: 0,
            sum: 0,
            ages: 0,
            refused: 0,
            given: 0,
        }
    }

    // One refused record more.
    fn add_refused(&mut self)
        ensures { self.new ≡ with_refused self.old }
    {
        self.refused = one_more(self.refused);
        self.given = one_more(self.given);
    }

    // The fields of one record more.
    fn add_fields(&mut self, fields: Fields)
        requires { (fields.number ≤ 23) × (fields.minute.0 < week_minutes) }
        ensures { self.new ≡ with_fields self.old fields }
    {
        let week_minute = fields.minute;
        let minute = week_minute.0;
        let number = fields.number;
        let age = fields.age;
        one_more_at(&mut self.answers, number as usize);
        one_more_at(&mut self.weekdays, (minute / 1440) as usize);
        one_more_at(&mut self.hours, (minute / 60 % 24) as usize);
        self.below = add_to(self.below, below_zero(number, age));
        self.sum = add_to(self.sum, from_zero(number, age));
        self.ages = one_more_if(is_from_zero(number, age), self.ages);
        self.given = one_more(self.given);
    }

    // Eight bytes more.
    fn add_record(&mut self, bytes: &[u8])
        ensures { self.new ≡ with_record self.old bytes.now }
    {
        match read_record(bytes) {
            Ok(fields) => self.add_fields(fields),
            Err(_) => self.add_refused(),
        }
    }

    // A batch of whole records, as far as the limit; one that is refused whole leaves the figures as they were.
    pub fn feed(&mut self, batch: &[u8]) -> Result<(), FeedFault>
        ensures { Feeds self.old batch.now self.new result }
    {
        if batch.len() % Record::BYTES != 0 {
            return Err(FeedFault::NotWhole);
        }
        let records = batch.len() / Record::BYTES;
        let taken = room_for(self.given, records);
        for k in 0..taken {
            let at = k * Record::BYTES;
            self.add_record(&batch[at..at + Record::BYTES]);
        }
        if taken < records {
            return Err(FeedFault::PastLimit((records - taken) as u64));
        }
        Ok(())
    }
}
