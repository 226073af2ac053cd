//! A day of a script.
ghost use Rattle.std.specs.Prelude.{◌≡◌, [], OnOk, OnErr};
ghost use Rattle.scripts.specs.Taking.{TakesLine, Withdraws};

use crate::line::DayLine;
use journeys::Query;
use records::Event;
use std::alloc::{AllocError, Global};
use std::default::MadeWith;

/// The events of a day, and a mark for each that is out of force: marks of any length beside the events, as a search takes them.
#[derive(Drop)]
pub struct Day {
    pub events: Vec<Event>,
    pub marks: Vec<bool>,
}

// A day before its first line: it has no events, and no marks.
impl MadeWith<Global> for Day {
    ghost is_made_with = { λ day. (day.events.items ≡ []) × (day.marks.items ≡ []) };

    fn made_with(heap: Global) -> Day {
        Day {
            events: Vec::new(heap),
            marks: Vec::new(heap),
        }
    }
}

// Sets the mark of an event, with all marks before it.
fn mark(marks: &mut Vec<bool>, number: u32) -> Result<(), AllocError>
    ensures ok { OnOk result (Withdraws number marks.old.items marks.new.items) }
    ensures err { OnErr result (marks.new.items ≡ marks.old.items) }
{
    let number = number as usize;
    if number >= marks.len() {
        marks.resize(number + 1, false)?;
    }
    marks[number] = true;
    Ok(())
}

impl Day {
    /// Does what a line tells, and hands back what it asks.
    pub fn take(&mut self, line: DayLine) -> Result<Option<Query>, AllocError>
        ensures { let es = self.old.events.items in let ms = self.old.marks.items in
            TakesLine line es ms result self.new.events.items self.new.marks.items }
    {
        match line {
            DayLine::New => {
                self.events.clear();
                self.marks.clear();
            }
            DayLine::Add(event) => self.events.push(event)?,
            DayLine::Withdraw(number) => mark(&mut self.marks, number)?,
            DayLine::Ask(query) => return Ok(Some(query)),
        }
        Ok(None)
    }
}

#[cfg(test)]
mod tests {
    use super::*;
    use std::test::Fail;

    #[test]
    fn lines_in_turn(rt: HostRuntime) -> Result<(), Fail> {
        let mut day = Day::made_with(rt.alloc());
        let asked = Query {
            from: 1,
            to: 3,
            open: 100,
            close: 200,
            call: true,
        };
        let opening = Event::opening(2, 125);
        assert_eq!(rt; day.take(DayLine::Add(opening))?, None);
        assert_eq!(rt; day.take(DayLine::Withdraw(2))?, None);
        assert_eq!(rt; day.take("r 2 3 125 30".parse()?)?, None);
        assert_eq!(rt; day.take("j 1 3 100 200 1 4 5".parse()?)?, Some(asked));
        let ride = Event::ride(2, 3, 125, 30);
        assert_eq!(rt; day.events.as_slice(), [opening, ride].as_slice());
        assert_eq!(rt; day.marks.as_slice(), [false, false, true].as_slice());
        assert_eq!(rt; day.take(DayLine::New)?, None);
        assert!(rt; day.events.is_empty() && day.marks.is_empty());
        Ok(())
    }
}
