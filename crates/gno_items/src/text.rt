// The text of an item.
ghost use Rattle.std.specs.Prelude.{◌≡◌, ◌++◌, IfOk, OnOk, codes};
ghost use Rattle.std.specs.List.{flat_map};
ghost use Rattle.std.specs.Option.{option_map};
ghost use Rattle.std.specs.Fmt.{decimal};
ghost use Rattle.gno_items.specs.Text.{cycles_line, form_name, form_text, heading, item_text, message, numbered_text, outcome_line, place_text, printed_text, refusal_text, result_text, word_of};

use crate::{End, FilePlace, ItemReply, NoMemory, Refusal, ResultText};
use gno_base::Bytes;
use gno_grammar::LeftOut;
use gno_script::Item;
use std::alloc::{AllocError, Global};

/// The text that a session shows of an item: its number and kind, the bytes that it printed, how it ended, and its cycles.
/// A `reload` has none.
pub fn item_text(
    alloc: Global,
    number: u64,
    item: &Item,
    reply: &ItemReply,
) -> Result<Bytes, NoMemory>
    ensures { IfOk result (λ text. text ≡ item_text number item.now reply.now) }
{
    let mut text = Bytes::new(alloc);
    let Some(word) = word_of(item) else {
        return Ok(text);
    };
    match push_item(alloc, &mut text, number, word, reply) {
        Ok(()) => Ok(text),
        Err(_) => Err(NoMemory),
    }
}

fn word_of(item: &Item) -> Option<&'static str>
    ensures { option_map (λ word. word.now) result ≡ word_of item.now }
{
    match item {
        Item::Add { .. } => Some("add"),
        Item::Call { .. } => Some("call"),
        Item::Reload => None,
    }
}

// Adds the lines of a numbered item.
fn push_item(
    alloc: Global,
    text: &mut Bytes,
    number: u64,
    word: &str,
    reply: &ItemReply,
) -> Result<(), AllocError>
    ensures { OnOk result (text.new ≡ text.old ++ numbered_text number word.now reply.now) }
{
    push_heading(alloc, text, number, word)?;
    push_printed(alloc, text, reply.printed.as_slice())?;
    push_outcome(alloc, text, &reply.end)?;
    push_cycles(alloc, text, reply.used)
}

fn push_heading(alloc: Global, text: &mut Bytes, number: u64, word: &str) -> Result<(), AllocError>
    ensures { OnOk result (text.new ≡ text.old ++ heading number word.now) }
{
    push_text(text, "item ")?;
    push_number(alloc, text, number)?;
    push_text(text, " ")?;
    push_text(text, word)?;
    push_text(text, "\n")
}

fn push_cycles(alloc: Global, text: &mut Bytes, used: u64) -> Result<(), AllocError>
    ensures { OnOk result (text.new ≡ text.old ++ cycles_line used) }
{
    push_text(text, "\ncycles ")?;
    push_number(alloc, text, used)?;
    push_text(text, "\n")
}

fn push_text(text: &mut Bytes, more: &str) -> Result<(), AllocError>
    ensures { OnOk result (text.new ≡ text.old ++ more.now) }
{
    text.extend_from_slice(more.as_bytes())
}

fn push_number(alloc: Global, text: &mut Bytes, number: u64) -> Result<(), AllocError>
    ensures { OnOk result (text.new ≡ text.old ++ decimal number) }
{
    let digits = number.to_string(alloc)?;
    text.extend_from_slice(digits.as_bytes())
}

// Adds what an item printed, behind its length.
fn push_printed(alloc: Global, text: &mut Bytes, printed: &[u8]) -> Result<(), AllocError>
    ensures { OnOk result (text.new ≡ text.old ++ printed_text printed.now) }
{
    if printed.is_empty() {
        return Ok(());
    }
    push_text(text, "out ")?;
    push_number(alloc, text, printed.len() as u64)?;
    push_text(text, "\n")?;
    text.extend_from_slice(printed)?;
    push_text(text, "\n")
}

fn push_outcome(alloc: Global, text: &mut Bytes, end: &End) -> Result<(), AllocError>
    ensures { OnOk result (text.new ≡ text.old ++ outcome_line end.now) }
{
    match end {
        End::Ok(results) => push_results(text, results.as_slice()),
        End::Refused(refusal) => push_refusal(alloc, text, refusal),
        End::Spent => push_text(text, "spent"),
    }
}

fn push_results(text: &mut Bytes, results: &[ResultText]) -> Result<(), AllocError>
    ensures { OnOk result (text.new ≡ text.old ++ (codes "ok" ++ flat_map result_text results.now)) }
{
    push_text(text, "ok")?;
    for one in results {
        push_result(text, one)?;
    }
    Ok(())
}

fn push_result(text: &mut Bytes, one: &ResultText) -> Result<(), AllocError>
    ensures { OnOk result (text.new ≡ text.old ++ result_text one.now) }
{
    push_text(text, " (")?;
    text.extend_from_slice(one.value.as_slice())?;
    push_text(text, " ")?;
    text.extend_from_slice(one.of.as_slice())?;
    push_text(text, ")")
}

fn push_refusal(alloc: Global, text: &mut Bytes, refusal: &Refusal) -> Result<(), AllocError>
    ensures { OnOk result (text.new ≡ text.old ++ refusal_text refusal.now) }
{
    push_text(text, "refused ")?;
    push_number(alloc, text, u64::from(refusal.code))?;
    push_text(text, " ")?;
    push_place(alloc, text, &refusal.place)?;
    push_text(text, message(refusal.code))?;
    push_form(text, refusal.form)
}

fn push_place(alloc: Global, text: &mut Bytes, place: &Option<FilePlace>) -> Result<(), AllocError>
    ensures { OnOk result (text.new ≡ text.old ++ place_text place.now) }
{
    let Some(place) = place else {
        return Ok(());
    };
    text.extend_from_slice(place.file.as_slice())?;
    push_text(text, ":")?;
    push_number(alloc, text, u64::from(place.pos.line))?;
    push_text(text, ":")?;
    push_number(alloc, text, u64::from(place.pos.column))?;
    push_text(text, " ")
}

fn push_form(text: &mut Bytes, form: Option<LeftOut>) -> Result<(), AllocError>
    ensures { OnOk result (text.new ≡ text.old ++ form_text form) }
{
    let Some(form) = form else {
        return Ok(());
    };
    push_text(text, ": ")?;
    push_text(text, form_name(form))
}

fn form_name(form: LeftOut) -> &'static str
    ensures { result.now ≡ form_name form }
{
    match form {
        LeftOut::Goroutine => "goroutine",
        LeftOut::Channel => "channel",
        LeftOut::Select => "select",
        LeftOut::Goto => "goto",
        LeftOut::Generics => "generics",
        LeftOut::StructTag => "struct tag",
        LeftOut::DotImport => "dot import",
        LeftOut::TypeUnion => "type union",
    }
}

fn message(code: u8) -> &'static str
    ensures { result.now ≡ message code }
{
    match code {
        1 => "not UTF-8",
        2 => "stray character",
        3 => "open literal or comment",
        4 => "bad escape",
        5 => "number too wide",
        6 => "floating-point or imaginary literal",
        7 => "source too long",
        20 => "unexpected token",
        21 => "nested too deep",
        22 => "form left out",
        101 => "bad path",
        102 => "path taken",
        104 => "package unknown",
        105 => "function unknown or not of this use",
        _ => "not built yet",
    }
}
