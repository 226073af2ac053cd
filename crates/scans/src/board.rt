//! The board: for each stop and call state, which is whether the call was made, the best label that is ready there.
ghost use Rattle.std.specs.Prelude.{◌≡◌, ◌<◌, length, Some, None, slice_index_or, slice_set};
ghost use Rattle.scans.specs.Boards.{offer, incumbent_at, winner};
ghost use Rattle.walks.specs.Logs.{is_preferred};

use crate::entry::slot_of;
use measures::Measure;
use records::Stop;

/// A label that is ready at a stop, and the event that brought it there.
#[derive(Clone, Copy, PartialEq, Eq, Debug)]
pub struct Incumbent<L> {
    pub label: L,
    pub event: u16,
}

// Who is ready at a stop in a call state.
pub(crate) fn incumbent_at<L: Copy>(
    board: &[Option<Incumbent<L>>],
    stop: Stop,
    called: bool,
) -> Option<Incumbent<L>>
    ensures { result ≡ incumbent_at board.now stop called }
{
    *board.get(slot_of(u16::from(stop), called))?
}

// A label, and the number of the event that it comes from, none for a fresh start.
pub(crate) type Offer<L> = (L, Option<u16>);

impl<L: Copy> Incumbent<L> {
    // What it offers to a journey that goes on from it.
    pub(crate) fn offer(self) -> Offer<L>
        ensures { result ≡ offer self }
    {
        (self.label, Some(self.event))
    }
}

// Whether an offer is taken rather than another. By this the board chooses between who is there and who comes, and an event
// between who is ready and a fresh start; of two that are as good, the first stays, as it is asked for.
pub(crate) fn is_preferred<M: Measure>(first: Offer<M::Label>, second: Offer<M::Label>) -> bool
    ensures { result ≡ is_preferred M.ops first second }
{
    M::no_worse(first.0, second.0)
}

// Who is to be on the board: the one that comes, unless the incumbent is preferred.
fn winner<M: Measure>(
    incumbent: Option<Incumbent<M::Label>>,
    comes: Incumbent<M::Label>,
) -> Incumbent<M::Label>
    ensures { result ≡ winner M.ops incumbent comes }
{
    incumbent
        .filter(|there| is_preferred::<M>(there.offer(), comes.offer()))
        .unwrap_or(comes)
}

// Puts a label on the board, unless the incumbent is preferred.
pub(crate) fn place<M: Measure>(
    board: &mut [Option<Incumbent<M::Label>>],
    at: usize,
    comes: Incumbent<M::Label>,
)
    requires { at < length board.old }
    ensures { let there = slice_index_or board.old at None in
        board.new ≡ slice_set board.old at (Some (winner M.ops there comes)) }
{
    board[at] = Some(winner::<M>(board[at], comes));
}
