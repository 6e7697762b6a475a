// What the text of a type says first.
ghost use Rattle.std.specs.Prelude.{◌≡◌, IfOk};
ghost use Rattle.gno_type_reading.specs.Turns as turns;
ghost use Rattle.gno_type_reading.specs.Turns.{turn};
ghost use Rattle.gno_type_reading.specs.declared.frame.ActionOf.TheVariants as act;
ghost use Rattle.gno_terms.specs.declared.term.TermOf.TheVariants as term;

use crate::cursor::Cursor;
use crate::frame::{Action, ActionOf, FrameOf};
use crate::lists::{fields, methods, params};
use crate::words::{all_in_name, last_of, member, number};
use gno_base::{Kind, List};
use gno_terms::TermOf;
use std::alloc::{AllocError, Global};

/// Reads to the first part of a type, or all of a type that has none.
#[tactic(auto, unfolding(crate::specs::Turns::opened))]
pub(crate) fn open(alloc: Global, cursor: &mut Cursor<'_>) -> Result<Action, AllocError>
    ensures { IfOk result (λ action. turn action cursor.new ≡ turns.opened cursor.old) }
{
    if cursor.begins(b'.') {
        cursor.skip(3);
        return Ok(ActionOf::Opened(FrameOf::Slice));
    }
    let word = cursor.word();
    first_word(alloc, cursor, word)
}

fn first_word(alloc: Global, cursor: &mut Cursor<'_>, word: &[u8]) -> Result<Action, AllocError>
    ensures { IfOk result (λ action. turn action cursor.new ≡ turns.first_word word.now cursor.old) }
{
    match word {
        [] => Ok(marked(alloc, cursor)),
        _ => {
            if all_in_name(word) {
                worded(alloc, cursor, word)
            } else {
                defined(alloc, word)
            }
        }
    }
}

fn worded(alloc: Global, cursor: &mut Cursor<'_>, word: &[u8]) -> Result<Action, AllocError>
    ensures { IfOk result (λ action. turn action cursor.new ≡ turns.worded word.now cursor.old) }
{
    if word == b"map".as_slice() {
        cursor.skip(1);
        Ok(ActionOf::Opened(FrameOf::Key))
    } else if word == b"func".as_slice() {
        cursor.skip(1);
        Ok(params(alloc, cursor, List::new(alloc)))
    } else if word == b"struct".as_slice() {
        cursor.skip(1);
        fields(alloc, cursor, List::new(alloc))
    } else if word == b"interface".as_slice() {
        cursor.skip(1);
        methods(alloc, cursor, List::new(alloc))
    } else {
        Ok(predeclared(word))
    }
}

// A type that has a name of its own.
fn predeclared(word: &[u8]) -> Action
    ensures { result ≡ turns.predeclared word.now }
{
    if word == b"bool".as_slice() {
        basic(Kind::Bool)
    } else if word == b"string".as_slice() {
        basic(Kind::Text)
    } else if word == b"int".as_slice() {
        basic(Kind::Int)
    } else if word == b"int8".as_slice() {
        basic(Kind::Int8)
    } else if word == b"int16".as_slice() {
        basic(Kind::Int16)
    } else if word == b"int32".as_slice() {
        basic(Kind::Int32)
    } else if word == b"int64".as_slice() {
        basic(Kind::Int64)
    } else if word == b"uint".as_slice() {
        basic(Kind::Uint)
    } else if word == b"uint8".as_slice() {
        basic(Kind::Uint8)
    } else if word == b"uint16".as_slice() {
        basic(Kind::Uint16)
    } else if word == b"uint32".as_slice() {
        basic(Kind::Uint32)
    } else if word == b"uint64".as_slice() {
        basic(Kind::Uint64)
    } else if word == b"error".as_slice() {
        ActionOf::Made(TermOf::Error)
    } else if word == b"realm".as_slice() {
        ActionOf::Made(TermOf::Realm)
    } else {
        ActionOf::Refused
    }
}

fn basic(kind: Kind) -> Action
    ensures { result ≡ act.Made (term.Basic kind) }
{
    ActionOf::Made(TermOf::Basic(kind))
}

// A defined type: its path, its name and the number that one of a function has.
fn defined(alloc: Global, word: &[u8]) -> Result<Action, AllocError>
    ensures { IfOk result (λ action. action ≡ turns.defined word.now) }
{
    match last_of(b'#', word) {
        Some(at) => numbered(alloc, &word[..at], number(&word[at + 1..])),
        None => numbered(alloc, word, Some(0)),
    }
}

fn numbered(alloc: Global, word: &[u8], local: Option<u64>) -> Result<Action, AllocError>
    ensures { IfOk result (λ action. action ≡ turns.numbered (turns.member word.now) local) }
{
    let Some(local) = local else {
        return Ok(ActionOf::Refused);
    };
    let member = member(alloc, word)?;
    Ok(ActionOf::Made(TermOf::Defined {
        path: member.package,
        name: member.name,
        local,
    }))
}

fn marked(alloc: Global, cursor: &mut Cursor<'_>) -> Action
    ensures { turn result cursor.new ≡ turns.marked cursor.old }
{
    if cursor.begins(b'*') {
        cursor.skip(1);
        ActionOf::Opened(FrameOf::Pointer)
    } else if cursor.begins(b'[') {
        cursor.skip(1);
        bracketed(cursor)
    } else if cursor.begins(b'(') {
        cursor.skip(1);
        params(alloc, cursor, List::new(alloc))
    } else {
        ActionOf::Refused
    }
}

fn bracketed(cursor: &mut Cursor<'_>) -> Action
    ensures { turn result cursor.new ≡ turns.bracketed cursor.old }
{
    if cursor.begins(b']') {
        cursor.skip(1);
        return ActionOf::Opened(FrameOf::Slice);
    }
    let length = number(cursor.word());
    cursor.skip(1);
    match length {
        Some(length) => ActionOf::Opened(FrameOf::Array(length)),
        None => ActionOf::Refused,
    }
}
