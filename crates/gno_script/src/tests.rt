use crate::{Item, ScriptError, read_script};
use gno_base::Bytes;
use std::alloc::{AllocError, Global};
use std::test::Fail;

fn push_words(
    alloc: Global,
    out: &mut Bytes,
    budget: u64,
    words: &[&Bytes],
) -> Result<(), AllocError> {
    let number = budget.to_string(alloc)?;
    out.extend_from_slice(number.as_bytes())?;
    for word in words {
        out.push(b' ')?;
        out.extend_from_slice(word.as_slice())?;
    }
    out.push(b'\n')?;
    Ok(())
}

fn push_item(alloc: Global, out: &mut Bytes, item: &Item) -> Result<(), AllocError> {
    match item {
        Item::Add {
            budget,
            caller,
            path,
            file,
        } => {
            out.extend_from_slice(b"add ")?;
            push_words(alloc, out, *budget, &[caller, path, &file.name])?;
            out.extend_from_slice(file.text.as_slice())
        }
        Item::Call {
            budget,
            caller,
            path,
            function,
        } => {
            out.extend_from_slice(b"call ")?;
            push_words(alloc, out, *budget, &[caller, path, function])
        }
        Item::Reload => out.extend_from_slice(b"reload\n"),
    }
}

// The items as text, or the number of the first faulty line.
fn outcome(alloc: Global, script: &[u8]) -> Result<Bytes, AllocError> {
    let mut out = Bytes::new(alloc);
    match read_script(alloc, script) {
        Ok(items) => {
            for item in items.as_slice() {
                push_item(alloc, &mut out, item)?;
            }
        }
        Err(ScriptError::Line(n)) => {
            out.extend_from_slice(b"line ")?;
            out.extend_from_slice(n.to_string(alloc)?.as_bytes())?;
        }
        Err(ScriptError::NoMemory) => return Err(AllocError),
    }
    Ok(out)
}

#[test]
fn scripts_give_their_items_or_their_first_fault(rt: HostRuntime) -> Result<(), Fail> {
    let cases: [(&[u8], &[u8]); 24] = [
        (b"", b""),
        (b"\n# a note\nreload\n", b"reload\n"),
        (b"reload \n", b"line 1"),
        (b"reload\nbye\n", b"line 2"),
        (b"\r\nreload\n", b"line 1"),
        (b"call 1000 alice gno.land/r/demo/counter Inc", b"line 2"),
        (
            b"call 1000 alice gno.land/r/demo/counter Inc\nend",
            b"call 1000 alice gno.land/r/demo/counter Inc\n",
        ),
        (b"call 0 a p f\nend\n", b"call 0 a p f\n"),
        (b"call 01 a p f\nend\n", b"line 1"),
        (b"call +1 a p f\nend\n", b"line 1"),
        (
            b"call 9223372036854775807 a p f\nend\n",
            b"call 9223372036854775807 a p f\n",
        ),
        (b"call 9223372036854775808 a p f\nend\n", b"line 1"),
        (b"call 1  a p f\nend\n", b"line 1"),
        (b"call 1 a p f \nend\n", b"line 1"),
        (b"reload\ncall 1 Alice p f\nend\n", b"line 2"),
        (b"call 1 a p f\narg x\nend\n", b"line 2"),
        (b"call 1 a p f\n# a note\nend\n", b"line 2"),
        (
            b"add 1 a p\nfile a.gno\n|package a\n|\n|var x int\nend\nreload\n",
            b"add 1 a p a.gno\npackage a\n\nvar x int\nreload\n",
        ),
        (b"add 1 a p\nfile .gno\nend\n", b"add 1 a p .gno\n"),
        (b"add 1 a p\nend\n", b"line 2"),
        (b"add 1 a p\nfile a.go\nend\n", b"line 2"),
        (b"add 1 a p\nfile a.gno\n|x\n\nend\n", b"line 4"),
        (b"add 1 a p\nfile a.gno\n|x\n", b"line 4"),
        (b"add 1 a p\nfile a.gno\nfile b.gno\nend\n", b"line 3"),
    ];
    for (script, wanted) in cases {
        assert_eq!(rt; outcome(rt.alloc(), script)?.as_slice(), wanted);
    }
    Ok(())
}

#[test]
fn words_have_at_most_256_bytes_and_callers_64(rt: HostRuntime) -> Result<(), Fail> {
    for (caller, path, is_read) in [(64, 256, true), (65, 1, false), (1, 257, false)] {
        let mut script = Bytes::from_slice(rt.alloc(), b"call 1 ")?;
        for _ in 0..caller {
            script.push(b'a')?;
        }
        script.push(b' ')?;
        for _ in 0..path {
            script.push(b'~')?;
        }
        script.extend_from_slice(b" !\nend\n")?;
        let read = read_script(rt.alloc(), script.as_slice());
        assert_eq!(rt; read.is_ok(), is_read);
    }
    Ok(())
}
