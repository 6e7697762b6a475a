// Constructs nest 200 deep at most; what is merely long may be as long as a text.
use super::told;
use std::alloc::{AllocError, Global};
use std::test::Fail;

/// So many times what opens a construct and what closes it, around the text inside.
struct Nest {
    front: &'static str,
    open: &'static str,
    inside: &'static str,
    close: &'static str,
    back: &'static str,
    /// So many times it reads, and once more it does not.
    most: usize,
    /// What is said of it once more.
    refused: &'static str,
}

impl Nest {
    // How often it may be repeated in a text of so many bytes.
    fn times_in(&self, bytes: usize) -> usize {
        let each = self.open.len().saturating_add(self.close.len());
        bytes.checked_div(each.saturating_add(1)).unwrap_or(0)
    }

    fn text(&self, alloc: Global, times: usize) -> Result<String, AllocError> {
        let mut text = String::new(alloc);
        text.push_str(self.front)?;
        text.push_str(self.open.repeat(alloc, times)?.as_str())?;
        text.push_str(self.inside)?;
        text.push_str(self.close.repeat(alloc, times)?.as_str())?;
        text.push_str(self.back)?;
        Ok(text)
    }
}

const NESTS: [Nest; 34] = [
    Nest {
        front: "package p;func f() ",
        open: "{",
        inside: "",
        close: "}",
        back: "",
        most: 200,
        refused: "21 1:220",
    },
    Nest {
        front: "package p;var a = ",
        open: "(",
        inside: "b",
        close: ")",
        back: "",
        most: 200,
        refused: "21 1:219",
    },
    Nest {
        front: "package p;var a = ",
        open: "- ",
        inside: "b",
        close: "",
        back: "",
        most: 200,
        refused: "21 1:421",
    },
    Nest {
        front: "package p;var a = ",
        open: "& ",
        inside: "b",
        close: "",
        back: "",
        most: 200,
        refused: "21 1:421",
    },
    Nest {
        front: "package p;var a = ",
        open: "*",
        inside: "b",
        close: "",
        back: "",
        most: 200,
        refused: "21 1:220",
    },
    Nest {
        front: "package p;var a ",
        open: "*",
        inside: "b",
        close: "",
        back: "",
        most: 199,
        refused: "21 1:217",
    },
    Nest {
        front: "package p;var a ",
        open: "[]",
        inside: "b",
        close: "",
        back: "",
        most: 199,
        refused: "21 1:417",
    },
    Nest {
        front: "package p;var a ",
        open: "[1]",
        inside: "b",
        close: "",
        back: "",
        most: 199,
        refused: "21 1:617",
    },
    Nest {
        front: "package p;var a ",
        open: "map[b]",
        inside: "b",
        close: "",
        back: "",
        most: 199,
        refused: "21 1:1215",
    },
    Nest {
        front: "package p;var a ",
        open: "map[",
        inside: "b",
        close: "]b",
        back: "",
        most: 199,
        refused: "21 1:817",
    },
    Nest {
        front: "package p;var a ",
        open: "(",
        inside: "b",
        close: ")",
        back: "",
        most: 199,
        refused: "21 1:217",
    },
    Nest {
        front: "package p;var a ",
        open: "func(",
        inside: "",
        close: ")",
        back: "",
        most: 200,
        refused: "21 1:1017",
    },
    Nest {
        front: "package p;var a ",
        open: "func() ",
        inside: "b",
        close: "",
        back: "",
        most: 199,
        refused: "21 1:1417",
    },
    Nest {
        front: "package p;var a ",
        open: "struct{c ",
        inside: "b",
        close: "}",
        back: "",
        most: 199,
        refused: "21 1:1817",
    },
    Nest {
        front: "package p;var a ",
        open: "interface{c(",
        inside: "",
        close: ")}",
        back: "",
        most: 200,
        refused: "21 1:2417",
    },
    Nest {
        front: "package p;var a = b",
        open: "{",
        inside: "",
        close: "}",
        back: "",
        most: 200,
        refused: "21 1:220",
    },
    Nest {
        front: "package p;var a = ",
        open: "b[",
        inside: "c",
        close: "]",
        back: "",
        most: 200,
        refused: "21 1:420",
    },
    Nest {
        front: "package p;var a = ",
        open: "b[:",
        inside: "c",
        close: "]",
        back: "",
        most: 200,
        refused: "21 1:620",
    },
    Nest {
        front: "package p;var a = ",
        open: "b(",
        inside: "c",
        close: ")",
        back: "",
        most: 200,
        refused: "21 1:420",
    },
    Nest {
        front: "package p;var a = b.(",
        open: "(",
        inside: "c",
        close: ")",
        back: ")",
        most: 199,
        refused: "21 1:222",
    },
    Nest {
        front: "package p;var a = ",
        open: "func() {d := ",
        inside: "c",
        close: "}",
        back: "",
        most: 100,
        refused: "21 1:1319",
    },
    Nest {
        front: "package p;var a = ",
        open: "b{",
        inside: "",
        close: "}",
        back: "",
        most: 200,
        refused: "21 1:420",
    },
    Nest {
        front: "package p;var a = ",
        open: "[]b{",
        inside: "",
        close: "}",
        back: "",
        most: 199,
        refused: "21 1:817",
    },
    Nest {
        front: "package p;var a = ",
        open: "[]",
        inside: "b",
        close: "",
        back: "{}",
        most: 199,
        refused: "21 1:419",
    },
    Nest {
        front: "package p;func f() {",
        open: "if a {",
        inside: "",
        close: "}",
        back: "}",
        most: 199,
        refused: "21 1:1220",
    },
    Nest {
        front: "package p;func f() {",
        open: "for {",
        inside: "",
        close: "}",
        back: "}",
        most: 199,
        refused: "21 1:1020",
    },
    Nest {
        front: "package p;func f() {",
        open: "switch {case 1:",
        inside: "",
        close: "}",
        back: "}",
        most: 199,
        refused: "21 1:3013",
    },
    Nest {
        front: "package p;var a ",
        open: "[",
        inside: "1",
        close: "]b",
        back: "",
        most: 199,
        refused: "21 1:219",
    },
    Nest {
        front: "package p;var a = ",
        open: "[]b(",
        inside: "c",
        close: ")",
        back: "",
        most: 199,
        refused: "21 1:817",
    },
    Nest {
        front: "package p;func f() {if ",
        open: "- ",
        inside: "b",
        close: "",
        back: " {}}",
        most: 199,
        refused: "21 1:424",
    },
    Nest {
        front: "package p;func f() {if ",
        open: "(",
        inside: "b",
        close: ")",
        back: " {}}",
        most: 199,
        refused: "21 1:223",
    },
    Nest {
        front: "package p;func f() {",
        open: "a:{",
        inside: "",
        close: "}",
        back: "}",
        most: 199,
        refused: "21 1:620",
    },
    Nest {
        front: "package p;func f() {if ",
        open: "func() {if ",
        inside: "a",
        close: "{}}",
        back: "{}}",
        most: 99,
        refused: "21 1:1120",
    },
    Nest {
        front: "package p;func f() {",
        open: "if a {} else {",
        inside: "",
        close: "}",
        back: "}",
        most: 199,
        refused: "21 1:2812",
    },
];

#[test]
fn constructs_nest_200_deep_at_most(rt: HostRuntime) -> Result<(), Fail> {
    for nest in NESTS.as_slice() {
        let most = nest.text(rt.alloc(), nest.most)?;
        assert_eq!(rt;
            told(rt.alloc(), most.as_str())?.as_str(),
            "reads",
            "in {}",
            nest.open
        );
        let more = nest.text(rt.alloc(), nest.most.saturating_add(1))?;
        assert_eq!(rt;
            told(rt.alloc(), more.as_str())?.as_str(),
            nest.refused,
            "in {}",
            nest.open
        );
    }
    Ok(())
}

/// So many bytes are a text at most.
const MOST_BYTES: usize = 1_048_576;

#[test]
fn a_text_that_nests_to_its_end_is_answered(rt: HostRuntime) -> Result<(), Fail> {
    for nest in NESTS.as_slice().iter().take(12) {
        let text = nest.text(rt.alloc(), nest.times_in(MOST_BYTES))?;
        assert_eq!(rt;
            told(rt.alloc(), text.as_str())?.as_str(),
            nest.refused,
            "in {}",
            nest.open
        );
    }
    Ok(())
}

#[test]
fn what_is_long_is_read(rt: HostRuntime) -> Result<(), Fail> {
    let long: [(&str, &str, &str); 7] = [
        ("package p;var a = b", " + b", ""),
        ("package p;var a = b", ".c", ""),
        ("package p;var a = b", "[0]", ""),
        ("package p;var a = b(", "c,", ")"),
        ("package p;func f() {", "a;", "}"),
        ("package p;func f() {", "a:", "}"),
        ("package p;", "var a int;", ""),
    ];
    for (front, repeated, back) in long {
        let mut text = String::new(rt.alloc());
        text.push_str(front)?;
        text.push_str(repeated.repeat(rt.alloc(), 100_000)?.as_str())?;
        text.push_str(back)?;
        assert_eq!(rt;
            told(rt.alloc(), text.as_str())?.as_str(),
            "reads",
            "in {repeated}"
        );
    }
    Ok(())
}
