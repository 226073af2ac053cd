//! What a log keeps of an event in a call state.
ghost use Rattle.std.specs.Prelude.{◌≡◌};
ghost use Rattle.scans.specs.Boards.{entry_for, ready_of, slot_of};

use records::Stop;

/// An event in a call state.
#[derive(Clone, Copy, PartialEq, Eq, Debug, Default)]
pub struct Stage {
    pub event: u16,
    pub called: bool,
}

/// The best label at a stage, its predecessor, none where the journey begins here, and where and when
/// the event leaves the traveller.
#[derive(Clone, Copy, PartialEq, Eq, Debug)]
pub struct Entry<L> {
    pub label: L,
    pub predecessor: Option<Stage>,
    pub stop: Stop,
    pub end: u32,
}

impl<L> Entry<L> {
    /// The minute from which its traveller can go on.
    pub fn ready(&self) -> u32
        ensures { result ≡ ready_of self.now }
    {
        self.end
    }
}

// The slot of an event in a log, or of a stop on a board: two for each, the one without a call first.
pub(crate) fn slot_of(number: u16, called: bool) -> usize
    ensures { result ≡ slot_of number called }
{
    usize::from(number) * 2 + usize::from(called)
}

/// The entry for a stage, none where no journey comes to it.
pub fn entry_for<L: Copy>(log: &[Option<Entry<L>>], stage: Stage) -> Option<Entry<L>>
    ensures { result ≡ entry_for log.now stage.event stage.called }
{
    *log.get(slot_of(stage.event, stage.called))?
}
