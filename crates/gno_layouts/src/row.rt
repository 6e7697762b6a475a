// What the values of a type hold.
ghost use Rattle.std.specs.Prelude.{◌≡◌, slice_get};
ghost use Rattle.gno_layouts.specs.Layouts.{is_known, nothing, parts, saturated, together, whole};

use gno_base::List;
use std::slice;

/// A type, by the rows of the types whose values its values hold.
#[derive(Debug, Drop)]
pub enum Row {
    /// A value is one slot, and holds no other.
    Single { comparable: bool },
    Array { length: u64, of: usize },
    /// By the types of its fields, in order.
    Struct(List<usize>),
    /// By its underlying type, where that is known.
    Defined(Option<usize>),
}

/// How many slots a value has, and whether values compare.
#[derive(Clone, Copy, Debug, PartialEq, Eq)]
pub struct Layout {
    pub slots: u64,
    pub comparable: bool,
}

impl Layout {
    /// The layout of no value.
    pub(crate) fn nothing() -> Layout
        ensures { result ≡ nothing }
    {
        Layout {
            slots: 0,
            comparable: true,
        }
    }

    /// The layout of both together, with at most 2^64 - 1 slots.
    pub(crate) fn with(self, more: Layout) -> Layout
        ensures { result ≡ saturated (together self more) }
    {
        Layout {
            slots: self.slots.saturating_add(more.slots),
            comparable: self.comparable && more.comparable,
        }
    }
}

impl Row {
    /// The rows of what a value holds, in order.
    pub(crate) fn parts(&self) -> &[usize]
        ensures { result.now ≡ parts self.now }
    {
        match self {
            Row::Array { of, .. } | Row::Defined(Some(of)) => slice::from_ref(of),
            Row::Struct(fields) => fields.as_slice(),
            Row::Single { .. } | Row::Defined(None) => &[],
        }
    }

    /// Whether it says what a value holds.
    pub(crate) fn is_known(&self) -> bool
        ensures { result ≡ is_known self.now }
    {
        !matches!(self, Row::Defined(None))
    }

    /// The layout of a value whose parts have a layout together, with at most 2^64 - 1 slots.
    pub(crate) fn whole(&self, held: Layout) -> Layout
        ensures { result ≡ saturated (whole self.now held) }
    {
        match self {
            Row::Single { comparable } => Layout {
                slots: 1,
                comparable: *comparable,
            },
            Row::Array { length, .. } => Layout {
                slots: length.saturating_mul(held.slots).saturating_add(1),
                comparable: held.comparable,
            },
            Row::Struct(_) => Layout {
                slots: held.slots.saturating_add(1),
                comparable: held.comparable,
            },
            Row::Defined(_) => held,
        }
    }
}
