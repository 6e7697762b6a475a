// Lists of items with separators between them.
ghost use Rattle.std.specs.Prelude.{◌≡◌, ◌<◌, ◌&&◌, [], ◌∷◌, not, IfOk, OnOk, length};
ghost use Rattle.gno_reader.specs.Answers.{Gives, sees};
ghost use Rattle.gno_reader.specs.Lists as spec;
ghost use Rattle.gno_reader.specs.Lists.{Reads, ReadsItem};
ghost use Rattle.gno_rules.specs.Parts.{with_item};

use crate::{Cursor, Failure};
use gno_base::List;
use gno_scan::TokenKind;
use std::alloc::{AllocError, Global};

/// A separator, and behind it an item, or none where none begins.
fn further<T: Drop, I: Fn(&mut Cursor<'_>) -> Result<T, Failure>>(
    tokens: &mut Cursor<'_>,
    separator: TokenKind,
    begin: &[TokenKind],
    item: &I,
) -> Result<Option<T>, Failure>
    requires { (read : Reads T) × ReadsItem read (I.pre item.now) (I.post item.now) }
    ensures item { (read : Reads T) → ReadsItem read (I.pre item.now) (I.post item.now) → Gives (spec.further separator begin.now read tokens.old) result tokens.new }
    ensures shorter { OnOk result (length tokens.new < length tokens.old) }
{
    tokens.expect(separator)?;
    if tokens.sees_any(begin) {
        return Ok(Some(item(tokens)?));
    }
    Ok(None)
}

// The items with one more, or none behind a last separator.
fn with_item<T: Drop>(list: (List<T>, bool), next: Option<T>) -> Result<(List<T>, bool), AllocError>
    ensures { IfOk result (λ list'. list' ≡ with_item list next) }
{
    let (mut items, _) = list;
    let Some(next) = next else {
        return Ok((items, true));
    };
    items.push(next)?;
    Ok((items, false))
}

fn goes_on(is_ended: bool, tokens: &Cursor<'_>, separator: TokenKind) -> bool
    ensures { result ≡ (not is_ended && sees (separator ∷ []) tokens.now) }
{
    !is_ended && tokens.sees(separator)
}

/// One item or more, and perhaps a separator behind the last one; the flag says that one is. Each item is what `item` reads, and
/// begins with one of the kinds `begin`.
pub fn listed<T: Drop, I: Fn(&mut Cursor<'_>) -> Result<T, Failure>>(
    alloc: Global,
    tokens: &mut Cursor<'_>,
    separator: TokenKind,
    begin: &[TokenKind],
    item: &I,
) -> Result<(List<T>, bool), Failure>
    requires { (read : Reads T) × ReadsItem read (I.pre item.now) (I.post item.now) }
    ensures { (read : Reads T) → ReadsItem read (I.pre item.now) (I.post item.now) → Gives (spec.items separator begin.now read tokens.old) result tokens.new }
{
    let first = item(tokens)?;
    let mut list = with_item((List::new(alloc), false), Some(first))?;
    while goes_on(list.1, tokens, separator) {
        let next = further(tokens, separator, begin, item)?;
        list = with_item(list, next)?;
    }
    Ok(list)
}

/// Any number of items up to `closer`, with separators between them and perhaps one behind the last. Each item is what `item`
/// reads, and begins with one of the kinds `begin`.
pub fn closed_list<T: Drop, I: Fn(&mut Cursor<'_>) -> Result<T, Failure>>(
    alloc: Global,
    tokens: &mut Cursor<'_>,
    separator: TokenKind,
    closer: TokenKind,
    begin: &[TokenKind],
    item: &I,
) -> Result<List<T>, Failure>
    requires { (read : Reads T) × ReadsItem read (I.pre item.now) (I.post item.now) }
    ensures { (read : Reads T) → ReadsItem read (I.pre item.now) (I.post item.now) → Gives (spec.closed_items separator begin.now read closer tokens.old) result tokens.new }
{
    if tokens.sees(closer) {
        tokens.expect(closer)?;
        return Ok(List::new(alloc));
    }
    let (items, _) = listed(alloc, tokens, separator, begin, item)?;
    tokens.expect(closer)?;
    Ok(items)
}
