// How rows settle anew.
ghost use Rattle.std.specs.Prelude.{◌≡◌, ◌≤◌, ℕ, List, Some, length, slice_get};
ghost use Rattle.gno_layouts.specs.Layouts.{kept, nothing, stands};
ghost use Rattle.gno_layouts.specs.Settling.{AreHolders, AreSettled, EachHasRows, IsBoard};
ghost use Rattle.gno_layouts.specs.declared.row.Row.{Row};
ghost use Rattle.gno_layouts.specs.declared.settling.State.{State};
ghost use Rattle.gno_layouts.specs.declared.settling.State.TheVariants.{Waiting};

use crate::row::{Layout, Row};
use crate::settling::{State, settle, visited};
use gno_base::List;

/// Takes back the underlying type of each row beside which there is no definition.
pub(crate) fn forget<D>(rows: &mut [Row], definitions: &[Option<D>])
    requires { length definitions.now ≡ length rows.old }
    ensures { (n : ℕ) (row : Row) → slice_get rows.old n ≡ Some row → slice_get rows.new n ≡ Some (kept row (stands (slice_get definitions.now n))) }
{
    for number in 0..rows.len() {
        keep_row(&mut rows[number], definitions[number].is_some());
    }
}

fn keep_row(row: &mut Row, stands: bool)
    ensures { row.new ≡ kept row.old stands }
{
    if !stands && matches!(row, Row::Defined(_)) {
        *row = Row::Defined(None);
    }
}

/// Lets each state begin anew.
pub(crate) fn restart(states: &mut [State])
    ensures { (n : ℕ) (state : State) → slice_get states.new n ≡ Some state → state ≡ Waiting 0 nothing }
{
    for state in states.iter_mut() {
        *state = State::Waiting {
            place: 0,
            held: Layout::nothing(),
        };
    }
}

/// Lets each row go on, from the beginning. Gives the top of a stack of those that settled.
pub(crate) fn all_begun(
    rows: &[Row],
    states: &mut [State],
    links: &mut [Option<usize>],
) -> Option<usize>
    requires size { length states.old ≡ length rows.now }
    requires linked { length links.old ≡ length rows.now }
    requires parts { EachHasRows rows.now }
    requires begin { (n : ℕ) (state : State) → slice_get states.old n ≡ Some state → state ≡ Waiting 0 nothing }
    ensures { (stack : List ℕ) × IsBoard rows.now states.new links.new result stack (λ _. ⊥) (length rows.now) }
{
    let mut top = None;
    for number in 0..rows.len() {
        top = visited(rows, states, links, top, number);
    }
    top
}

/// Lets all rows settle anew.
pub(crate) fn settle_anew(
    rows: &[Row],
    holders: &[List<usize>],
    states: &mut [State],
    links: &mut [Option<usize>],
)
    requires size { length states.old ≡ length rows.now }
    requires linked { length links.old ≡ length rows.now }
    requires parts { EachHasRows rows.now }
    requires holders { AreHolders rows.now holders.now }
    ensures { AreSettled rows.now states.new }
{
    restart(states);
    let top = all_begun(rows, states, links);
    settle(rows, holders, states, links, top);
}
