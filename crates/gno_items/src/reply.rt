// What an item answers.
ghost use Rattle.std.specs.Prelude.{◌≡◌};
ghost use Rattle.std.specs.Prelude.{IfOk};
ghost use Rattle.gno_items.specs.Replies.{ended, fault_at, refusal, spent};

use gno_base::{Bytes, List};
use gno_grammar::LeftOut;
use gno_scan::Pos;
use std::alloc::{AllocError, Global};

/// A result's printed value and its type's text.
#[derive(Debug, Drop)]
pub struct ResultText {
    pub value: Bytes,
    pub of: Bytes,
}

/// Where a source file goes wrong: the file's name, and the place in it.
#[derive(Debug, Drop)]
pub struct FilePlace {
    pub file: Bytes,
    pub pos: Pos,
}

/// Why an item was refused before its run: the code, the place where a source file is at fault, and the form that is left out
/// where the code is 22.
#[derive(Debug, Drop)]
pub struct Refusal {
    pub code: u8,
    pub place: Option<FilePlace>,
    pub form: Option<LeftOut>,
}

/// How an item ended.
#[derive(Debug, Drop)]
pub enum End {
    /// With these results.
    Ok(List<ResultText>),
    Refused(Refusal),
    /// A charge did not fit what was left of the budget.
    Spent,
}

/// The reply to an item: its end, the bytes that it printed, and the cycles that it was charged.
#[derive(Debug, Drop)]
pub struct ItemReply {
    pub end: End,
    pub printed: Bytes,
    pub used: u64,
}

pub(crate) fn refused_reply(alloc: Global, code: u8) -> ItemReply
    ensures { result ≡ refusal code }
{
    ItemReply {
        end: End::Refused(Refusal {
            code,
            place: None,
            form: None,
        }),
        printed: Bytes::new(alloc),
        used: 0,
    }
}

// The reply to an addition whose file goes wrong at a place.
pub(crate) fn fault_reply(
    alloc: Global,
    code: u8,
    file: &[u8],
    pos: Pos,
    form: Option<LeftOut>,
) -> Result<ItemReply, AllocError>
    ensures { IfOk result (λ reply. reply ≡ fault_at code file.now pos form) }
{
    let place = FilePlace {
        file: Bytes::from_slice(alloc, file)?,
        pos,
    };
    Ok(ItemReply {
        end: End::Refused(Refusal {
            code,
            place: Some(place),
            form,
        }),
        printed: Bytes::new(alloc),
        used: 0,
    })
}

pub(crate) fn spent_reply(alloc: Global, used: u64) -> ItemReply
    ensures { result ≡ spent used }
{
    ItemReply {
        end: End::Spent,
        printed: Bytes::new(alloc),
        used,
    }
}

// The reply to an item that ended without a result.
pub(crate) fn ended_reply(alloc: Global, used: u64) -> ItemReply
    ensures { result ≡ ended used }
{
    ItemReply {
        end: End::Ok(List::<ResultText>::new(alloc)),
        printed: Bytes::new(alloc),
        used,
    }
}
