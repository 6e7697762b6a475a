// How rows settle.
ghost use Rattle.std.specs.Prelude.{◌≡◌, ◌+◌, ◌<◌, ℕ, List, [], None, Some, length, true};
ghost use Rattle.gno_layouts.specs.Layouts.{is_known};
ghost use Rattle.gno_layouts.specs.Settling.{AreHolders, AreRows, AreSettled, EachFits, EachHasRows, Fits, In, IsBoard, Visited, Waits, settled_at};
ghost use Rattle.gno_layouts.specs.declared.settling.State.TheVariants.{Waiting};

use crate::row::{Layout, Row};
use gno_base::List;

/// What is kept of a row.
#[derive(Clone, Copy, Debug)]
pub(crate) enum State {
    /// The parts before a place are settled, and this is their layout together.
    Waiting { place: usize, held: Layout },
    Settled(Layout),
}

/// The state of a row that goes on from a place.
pub(crate) fn advanced(row: &Row, states: &[State], place: usize, held: Layout) -> State
    requires rows { AreRows (length states.now) row.now }
    requires known { is_known row.now ≡ true }
    requires fits { Fits states.now row.now (Waiting place held) }
    ensures fits { Fits states.now row.now result }
    ensures waits { Waits states.now row.now result }
{
    let mut held = held;
    let parts = row.parts();
    for at in place..parts.len() {
        match states[parts[at]] {
            State::Settled(layout) => held = held.with(layout),
            State::Waiting { .. } => return State::Waiting { place: at, held },
        }
    }
    State::Settled(row.whole(held))
}

/// The first state of a row.
pub(crate) fn begun(row: &Row, states: &[State]) -> State
    requires { AreRows (length states.now) row.now }
    ensures fits { Fits states.now row.now result }
    ensures waits { Waits states.now row.now result }
{
    if row.is_known() {
        advanced(row, states, 0, Layout::nothing())
    } else {
        State::Waiting {
            place: 0,
            held: Layout::nothing(),
        }
    }
}

/// The layout of a row that has settled.
pub(crate) fn settled(states: &[State], number: usize) -> Option<Layout>
    ensures { result ≡ settled_at states.now number }
{
    match states.get(number) {
        Some(State::Settled(layout)) => Some(*layout),
        _ => None,
    }
}

/// Lets a row go on, and puts it on the stack if it settles. Gives the new top. A holder may be a row that was taken back.
pub(crate) fn visited(
    rows: &[Row],
    states: &mut [State],
    links: &mut [Option<usize>],
    top: Option<usize>,
    number: usize,
) -> Option<usize>
    requires size { length states.old ≡ length rows.now }
    requires linked { length links.old ≡ length rows.now }
    requires parts { EachHasRows rows.now }
    requires fits { EachFits rows.now states.old }
    ensures { Visited rows.now states.old links.old top number states.new links.new result }
{
    let Some(row) = rows.get(number) else {
        return top;
    };
    let State::Waiting { place, held } = states[number] else {
        return top;
    };
    if !row.is_known() {
        return top;
    }
    let state = advanced(row, states, place, held);
    states[number] = state;
    match state {
        State::Waiting { .. } => top,
        State::Settled(_) => {
            links[number] = top;
            Some(number)
        }
    }
}

/// Lets each of some rows go on. Gives the new top.
pub(crate) fn all_visited(
    rows: &[Row],
    states: &mut [State],
    links: &mut [Option<usize>],
    top: Option<usize>,
    numbers: &[usize],
) -> Option<usize>
    requires parts { EachHasRows rows.now }
    requires board { (stack : List ℕ) × (room : ℕ) × IsBoard rows.now states.old links.old top stack (λ n. In n numbers.now) room }
    ensures { (stack : List ℕ) (room : ℕ) → IsBoard rows.now states.old links.old top stack (λ n. In n numbers.now) room
        → (left : List ℕ) × IsBoard rows.now states.new links.new result left (λ _. ⊥) room }
{
    let mut top = top;
    for number in numbers {
        top = visited(rows, states, links, top, *number);
    }
    top
}

/// Takes the top off the stack, and lets the rows that hold it go on. Gives the new top.
fn told(
    rows: &[Row],
    holders: &[List<usize>],
    states: &mut [State],
    links: &mut [Option<usize>],
    number: usize,
) -> Option<usize>
    requires within { number < length rows.now }
    requires parts { EachHasRows rows.now }
    requires holders { AreHolders rows.now holders.now }
    requires linked { length links.old ≡ length rows.now }
    requires board { (stack : List ℕ) × (room : ℕ) × IsBoard rows.now states.old links.old (Some number) stack (λ _. ⊥) (room + 1) }
    ensures { (stack : List ℕ) (room : ℕ) → IsBoard rows.now states.old links.old (Some number) stack (λ _. ⊥) (room + 1)
        → (left : List ℕ) × IsBoard rows.now states.new links.new result left (λ _. ⊥) room }
{
    let below = links[number];
    all_visited(rows, states, links, below, holders[number].as_slice())
}

/// Tells the holders of what is on the stack that it is settled, and of what settles then. Each row comes onto the stack once.
pub(crate) fn settle(
    rows: &[Row],
    holders: &[List<usize>],
    states: &mut [State],
    links: &mut [Option<usize>],
    top: Option<usize>,
)
    requires parts { EachHasRows rows.now }
    requires holders { AreHolders rows.now holders.now }
    requires board { (stack : List ℕ) × IsBoard rows.now states.old links.old top stack (λ _. ⊥) (length rows.now) }
    ensures { AreSettled rows.now states.new }
{
    let mut top = top;
    for _turn in 0..rows.len() {
        match top {
            None => return,
            Some(number) => top = told(rows, holders, states, links, number),
        }
    }
}

/// Lets a row go on, and what settles then.
pub(crate) fn settle_from(
    rows: &[Row],
    holders: &[List<usize>],
    states: &mut [State],
    links: &mut [Option<usize>],
    number: usize,
)
    requires parts { EachHasRows rows.now }
    requires holders { AreHolders rows.now holders.now }
    requires board { IsBoard rows.now states.old links.old None [] (λ n. n ≡ number) (length rows.now) }
    ensures { AreSettled rows.now states.new }
{
    let top = visited(rows, states, links, None, number);
    settle(rows, holders, states, links, top);
}
