// Lines, and what they are read as.
use crate::commands::{Command, read};
use crate::refusals::LineRefusal;
use crate::vocabulary::Kind;
use std::alloc::{AllocError, Global};
use std::test::Fail;
use theory::RedrawNumbers;
use words::split::words;

/// What a line is read as.
fn reading(
    heap: Global,
    line: &str,
    opened: bool,
) -> Result<Result<Command, LineRefusal>, AllocError> {
    let places = words(heap, line.as_bytes())?;
    Ok(read(line.as_bytes(), &places, opened))
}

#[test]
fn commands_are_read(rt: HostRuntime) -> Result<(), Fail> {
    let heap = rt.alloc();
    assert!(rt; reading(heap, "chain 8", false)? == Ok(Command::Open(Kind::Chain, 8)));
    let redraw = Command::Redraw(RedrawNumbers {
        from: 0,
        to: 3,
        minutes: 40,
        grade: 5,
    });
    assert!(rt; reading(heap, " redraw 0  3 0000000040 5 ", true)? == Ok(redraw));
    let look = Command::Look {
        from: 4_294_967_295,
        to: 0,
    };
    assert!(rt; reading(heap, "look 4294967295 0", true)? == Ok(look));
    Ok(())
}

/// A line that is refused: whether an opening was accepted before it, its faulty word and the refusal's number.
#[derive(Clone, Copy)]
struct Case {
    line: &'static str,
    opened: bool,
    word: usize,
    number: u32,
}

const CASES: [Case; 8] = [
    Case {
        line: "round",
        opened: true,
        word: 0,
        number: 21,
    },
    Case {
        line: "12 1",
        opened: true,
        word: 0,
        number: 21,
    },
    Case {
        line: "root 1",
        opened: false,
        word: 0,
        number: 22,
    },
    Case {
        line: "redraw 0 x 4294967296 5",
        opened: true,
        word: 2,
        number: 23,
    },
    Case {
        line: "look 0 4294967296",
        opened: false,
        word: 2,
        number: 23,
    },
    Case {
        line: "look 00000000001 1",
        opened: true,
        word: 1,
        number: 23,
    },
    Case {
        line: "minutes 4",
        opened: true,
        word: 0,
        number: 24,
    },
    Case {
        line: "clear",
        opened: false,
        word: 0,
        number: 24,
    },
];

#[test]
fn lines_are_refused(rt: HostRuntime) -> Result<(), Fail> {
    for case in CASES {
        let Err(refusal) = reading(rt.alloc(), case.line, case.opened)? else {
            return Err(Fail::new("the line is accepted"));
        };
        assert!(rt; refusal.word() == case.word && refusal.number() == case.number);
    }
    Ok(())
}
