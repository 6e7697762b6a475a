// The source rows of a table.
ghost use Rattle.std.specs.Prelude.{◌≡◌, ◌<◌, ℕ, length, IfOk, IfSome, OnOk, None};
ghost use Rattle.std.specs.Option.{option_map};
ghost use Rattle.std.specs.Ordering.{nat_cmp};
ghost use Rattle.std.specs.BTreeMap.{get};
ghost use Rattle.gno_table.specs.Sources.{first_zero, file_in, last_source, path_in, source_of, source_or, word_at};

use gno_base::{Bytes, NamedText};
use gno_port::Change;
use std::alloc::{AllocError, Global};
use std::collections::BTreeMap;

/// What a source row says: the package's order of addition and path, and its file.
#[derive(Drop)]
pub(crate) struct Source {
    pub order: u64,
    pub path: Bytes,
    pub file: NamedText,
}

/// The sources by their orders. Of two of one order the last counts, and rows that are no source rows are passed over.
pub(crate) fn sources_of(
    alloc: Global,
    rows: &[Change],
) -> Result<BTreeMap<u64, Source>, AllocError>
    ensures { IfOk result (λ sources. (order : ℕ) → get nat_cmp sources order ≡ last_source rows.now order None) }
{
    let mut sources = BTreeMap::new(alloc);
    for row in rows {
        let found = source_of(alloc, row)?;
        put_source(&mut sources, found)?;
    }
    Ok(sources)
}

fn put_source(sources: &mut BTreeMap<u64, Source>, found: Option<Source>) -> Result<(), AllocError>
    ensures { OnOk result ((order : ℕ) → get nat_cmp sources.new order ≡ source_or found order (get nat_cmp sources.old order)) }
{
    let Some(source) = found else {
        return Ok(());
    };
    match sources.insert(source.order, source) {
        Ok(_) => Ok(()),
        Err(_) => Err(AllocError),
    }
}

fn source_of(alloc: Global, row: &Change) -> Result<Option<Source>, AllocError>
    ensures { IfOk result (λ source. source ≡ source_of row.now) }
{
    let Some(path) = path_in(row.key.as_slice()) else {
        return Ok(None);
    };
    let Some(value) = &row.value else {
        return Ok(None);
    };
    let Some((order, rest)) = word_at(value.as_slice()) else {
        return Ok(None);
    };
    let Some(file) = file_in(alloc, rest)? else {
        return Ok(None);
    };
    Ok(Some(Source {
        order,
        path: Bytes::from_slice(alloc, path)?,
        file,
    }))
}

// The path in the key of a source.
fn path_in(key: &[u8]) -> Option<&[u8]>
    ensures { option_map (λ path. path.now) result ≡ path_in key.now }
{
    match key {
        [b'S', path @ ..] => Some(path),
        _ => None,
    }
}

/// The number in the first 8 bytes, big-endian, and what stands behind it.
#[tactic(auto, unfolding(crate::specs::Sources::word_at))]
pub(crate) fn word_at(bytes: &[u8]) -> Option<(u64, &[u8])>
    ensures { option_map (λ word. (word.0, word.1.now)) result ≡ word_at bytes.now }
{
    let (first, rest) = bytes.split_first_chunk::<8>()?;
    Some((u64::from_be_bytes(*first), rest))
}

// A file's name, a byte 0 and its text.
#[tactic(auto, unfolding(crate::specs::Sources::file_in))]
fn file_in(alloc: Global, bytes: &[u8]) -> Result<Option<NamedText>, AllocError>
    ensures { IfOk result (λ file. file ≡ file_in bytes.now) }
{
    let Some(at) = first_zero(bytes) else {
        return Ok(None);
    };
    Ok(Some(NamedText {
        name: Bytes::from_slice(alloc, &bytes[..at])?,
        text: Bytes::from_slice(alloc, &bytes[at + 1..])?,
    }))
}

fn first_zero(bytes: &[u8]) -> Option<usize>
    ensures first { result ≡ first_zero bytes.now }
    ensures within { IfSome result (λ at. at < length bytes.now) }
{
    bytes.iter().position(|b| *b == 0)
}
