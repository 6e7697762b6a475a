// Rows, with the layout of each that has one.
ghost use Rattle.std.specs.Prelude.{◌≡◌, ◌++◌, ◌∷◌, [], ◌<◌, ℕ, None, Some, List, IfOk, IfSome, IsNone, OnErr, OnOk, length, slice_get, slice_set};
ghost use Rattle.gno_layouts.specs.Layouts.{HasLayout, kept, saturated, stands};
ghost use Rattle.gno_layouts.specs.Settling.{AreRows, EachHasRows};
ghost use Rattle.gno_layouts.specs.declared.row.Layout.{Layout};
ghost use Rattle.gno_layouts.specs.declared.row.Row.{Row};
ghost use Rattle.gno_layouts.specs.declared.row.Row.TheVariants.{Defined};

use crate::holders::{forget_holders, hold, hold_all};
use crate::restart::{forget, settle_anew};
use crate::row::{Layout, Row};
use crate::settling::{State, begun, settle_from, settled};
use gno_base::List;
use std::alloc::{AllocError, Global};
use std::marker::Model;

/// Numbered rows, with the layout of each that has one. Contracts see the list of rows.
#[derive(Drop)]
pub struct Layouts {
    rows: Vec<Row>,
    states: Vec<State>,
    // Beside each row those that hold it as a part, and maybe others.
    holders: Vec<List<usize>>,
    // The links of a stack of rows, which is empty but while rows settle.
    links: Vec<Option<usize>>,
}

impl Model for Layouts {
    ghost use Rattle.gno_layouts.specs.Settling.{AreLayouts};
    ghost use Rattle.gno_layouts.specs.contracts.row.Row as row;
    ghost use Rattle.gno_layouts.specs.declared.row.Row.{Row};
    ghost use Rattle.std.specs.Coded.{coded_list};
    ghost use Rattle.std.specs.Prelude.{List as list};

    ghost Value = { list Row };

    ghost coded = { coded_list row.the_row.coded };

    ghost view = { λ it. it.rows.items };

    ghost invariant = { λ it. AreLayouts it.rows.items it.states.items it.holders.items it.links.items };
}

impl Layouts {
    /// No rows.
    pub fn new(alloc: Global) -> Layouts
        ensures { result ≡ [] }
    {
        Layouts {
            rows: Vec::new(alloc),
            states: Vec::new(alloc),
            holders: Vec::new(alloc),
            links: Vec::new(alloc),
        }
    }

    /// The layout of a row, with at most 2^64 - 1 slots. Takes constant time.
    pub fn layout(&self, number: usize) -> Option<Layout>
        ensures is { (layout : Layout) → HasLayout self.now number layout → result ≡ Some (saturated layout) }
        ensures some { IfSome result (λ layout. (a : Layout) × HasLayout self.now number a × (layout ≡ saturated a)) }
        ensures none { IsNone result → (a : Layout) → HasLayout self.now number a → ⊥ }
    {
        settled(&self.states, number)
    }

    /// Adds a row, whose parts stand before it. Takes time by the number of its parts.
    pub fn push(&mut self, row: Row) -> Result<(), AllocError>
        requires { AreRows (length self.old) row }
        ensures ok { OnOk result (self.new ≡ self.old ++ row ∷ []) }
        ensures err { OnErr result (self.new ≡ self.old) }
    {
        let alloc = *self.rows.allocator();
        self.rows.reserve(1)?;
        self.states.reserve(1)?;
        self.holders.reserve(1)?;
        self.links.reserve(1)?;
        let number = self.rows.len();
        hold_all(&mut self.holders, row.parts(), number)?;
        let state = begun(&row, &self.states);
        self.rows.push(row)?;
        self.states.push(state)?;
        self.holders.push(List::new(alloc))?;
        self.links.push(None)?;
        Ok(())
    }

    /// Takes back the last row, which no other holds. Takes no memory.
    pub fn pop(&mut self)
        requires { (rows : List Row) × (row : Row) × (self.old ≡ rows ++ row ∷ []) × EachHasRows rows }
        ensures { (row : Row) × (self.old ≡ self.new ++ row ∷ []) }
    {
        let size = self.rows.len() - 1;
        self.rows.truncate(size);
        self.states.truncate(size);
        self.holders.truncate(size);
        self.links.truncate(size);
    }

    /// Tells the underlying type of a row. Takes time by the rows that have a layout then, and by those that hold them.
    pub fn define(&mut self, number: usize, of: usize) -> Result<(), AllocError>
        requires undefined { slice_get self.old number ≡ Some (Defined None) }
        requires of { of < length self.old }
        ensures ok { OnOk result (self.new ≡ slice_set self.old number (Defined (Some of))) }
        ensures err { OnErr result (self.new ≡ self.old) }
    {
        hold(&mut self.holders, of, number)?;
        self.rows[number] = Row::Defined(Some(of));
        settle_from(
            &self.rows,
            &self.holders,
            &mut self.states,
            &mut self.links,
            number,
        );
        Ok(())
    }

    /// Takes back the underlying type of each row beside which there is no definition. Takes no memory, and time by the number of rows.
    pub fn keep<D>(&mut self, definitions: &[Option<D>])
        requires { length definitions.now ≡ length self.old }
        ensures size { length self.new ≡ length self.old }
        ensures each { (n : ℕ) (row : Row) → slice_get self.old n ≡ Some row → slice_get self.new n ≡ Some (kept row (stands (slice_get definitions.now n))) }
    {
        forget(&mut self.rows, definitions);
        forget_holders(&self.rows, &mut self.holders);
        settle_anew(&self.rows, &self.holders, &mut self.states, &mut self.links);
    }

    /// Each part is a row. This states a law and does nothing.
    pub fn have_rows(&self)
        ensures { EachHasRows self.now }
    {
        let _ = &self.rows;
    }
}
