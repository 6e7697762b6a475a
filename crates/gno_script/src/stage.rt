// What the lines so far have begun, and what a line does to it.
ghost use Rattle.std.specs.Prelude.{◌≡◌, IfOk};
ghost use Rattle.std.specs.Option.{option_map};
ghost use Rattle.gno_script.specs.declared.stage.Stage.TheVariants.{Called, Added, Filed};
ghost use Rattle.gno_script.specs.Script.{is_skipped};
ghost use Rattle.gno_script.specs.Reading.{add_of, call_of, begin, between, source, step, goes_on, ends};

use crate::Item;
use crate::heading::{Heading, add_of, call_of, file_of};
use crate::word::cut;
use gno_base::{Bytes, NamedText};
use std::alloc::{AllocError, Global};

/// What the lines so far have begun.
#[derive(Drop)]
pub enum Stage {
    /// Nothing: an item may come.
    Between,
    /// A call of that function, which wants its `end`.
    Called(Heading, Bytes),
    /// An add, which wants its file.
    Added(Heading),
    /// An add with its file so far.
    Filed(Heading, NamedText),
}

/// What is begun behind a line, and the item that the line ends.
#[derive(Drop)]
pub struct Step {
    pub stage: Stage,
    pub item: Option<Item>,
}

impl Stage {
    /// Takes one more line. None where it is faulty.
    #[tactic(auto, unfolding(crate::specs::Reading::step))]
    pub fn step(self, alloc: Global, line: &[u8]) -> Result<Option<Step>, AllocError>
        ensures { IfOk result (λ next. next ≡ step self line.now) }
    {
        match self {
            Stage::Between => between(alloc, line),
            Stage::Called(heading, function) => Ok(called(heading, function, line)),
            Stage::Added(heading) => added(alloc, heading, line),
            Stage::Filed(heading, file) => filed(heading, file, line),
        }
    }
}

fn between(alloc: Global, line: &[u8]) -> Result<Option<Step>, AllocError>
    ensures { IfOk result (λ next. next ≡ between line.now) }
{
    if is_skipped(line) {
        return Ok(Some(goes_on(Stage::Between)));
    }
    if line == b"reload".as_slice() {
        return Ok(Some(ends(Item::Reload)));
    }
    begin(alloc, line)
}

fn is_skipped(line: &[u8]) -> bool
    ensures { result ≡ is_skipped line.now }
{
    match line {
        [] => true,
        [b, ..] => *b == b'#',
    }
}

#[tactic(auto, unfolding(crate::specs::Reading::begin))]
fn begin(alloc: Global, line: &[u8]) -> Result<Option<Step>, AllocError>
    ensures { IfOk result (λ next. next ≡ begin line.now) }
{
    let Some((word, words)) = cut(line) else {
        return Ok(None);
    };
    if word == b"call".as_slice() {
        return begin_call(alloc, words);
    }
    if word == b"add".as_slice() {
        return begin_add(alloc, words);
    }
    Ok(None)
}

fn begin_call(alloc: Global, words: &[u8]) -> Result<Option<Step>, AllocError>
    ensures { IfOk result (λ next. next ≡ option_map (λ call. goes_on (Called call.0 call.1)) (call_of words.now)) }
{
    let Some((heading, function)) = call_of(alloc, words)? else {
        return Ok(None);
    };
    Ok(Some(goes_on(Stage::Called(heading, function))))
}

fn begin_add(alloc: Global, words: &[u8]) -> Result<Option<Step>, AllocError>
    ensures { IfOk result (λ next. next ≡ option_map (λ heading. goes_on (Added heading)) (add_of words.now)) }
{
    let Some(heading) = add_of(alloc, words)? else {
        return Ok(None);
    };
    Ok(Some(goes_on(Stage::Added(heading))))
}

#[tactic(auto, unfolding(crate::specs::Reading::step))]
fn called(heading: Heading, function: Bytes, line: &[u8]) -> Option<Step>
    ensures { result ≡ step (Called heading function) line.now }
{
    if line != b"end".as_slice() {
        return None;
    }
    let Heading {
        budget,
        caller,
        path,
    } = heading;
    Some(ends(Item::Call {
        budget,
        caller,
        path,
        function,
    }))
}

#[tactic(auto, unfolding(crate::specs::Reading::step))]
fn added(alloc: Global, heading: Heading, line: &[u8]) -> Result<Option<Step>, AllocError>
    ensures { IfOk result (λ next. next ≡ step (Added heading) line.now) }
{
    let Some(name) = file_of(alloc, line)? else {
        return Ok(None);
    };
    let text = Bytes::new(alloc);
    Ok(Some(goes_on(Stage::Filed(heading, NamedText { name, text }))))
}

#[tactic(auto, unfolding(crate::specs::Reading::step))]
fn filed(heading: Heading, file: NamedText, line: &[u8]) -> Result<Option<Step>, AllocError>
    ensures { IfOk result (λ next. next ≡ step (Filed heading file) line.now) }
{
    if line != b"end".as_slice() {
        return source(heading, file, line);
    }
    let Heading {
        budget,
        caller,
        path,
    } = heading;
    Ok(Some(ends(Item::Add {
        budget,
        caller,
        path,
        file,
    })))
}

fn source(heading: Heading, file: NamedText, line: &[u8]) -> Result<Option<Step>, AllocError>
    ensures { IfOk result (λ next. next ≡ source heading file line.now) }
{
    let [b'|', source @ ..] = line else {
        return Ok(None);
    };
    let NamedText { name, mut text } = file;
    text.extend_from_slice(source)?;
    text.push(b'\n')?;
    Ok(Some(goes_on(Stage::Filed(heading, NamedText { name, text }))))
}

fn goes_on(stage: Stage) -> Step
    ensures { result ≡ goes_on stage }
{
    Step { stage, item: None }
}

fn ends(item: Item) -> Step
    ensures { result ≡ ends item }
{
    Step {
        stage: Stage::Between,
        item: Some(item),
    }
}
