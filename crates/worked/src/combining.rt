// Texts, with what the program prints of them.
use combination::{NoReply, respond};
use std::alloc::Global;
use std::process::Abort;
use std::test::Fail;

// What is printed of a text that is at fault.
fn refusal(rt: &impl Abort, alloc: Global, text: &[u8]) -> Result<String, Fail> {
    match respond(alloc, text) {
        Ok(lines) => panic!(rt; "no fault: {lines}"),
        Err(NoReply::Refused(line)) => Ok(line),
        Err(NoReply::Memory(error)) => Err(error.into()),
    }
}

#[test]
fn combined(rt: HostRuntime) -> Result<(), Fail> {
    let cases = [
        ("3 4\n0\n", "members 2\nform 2500\nlow 5\nhigh 5\n"),
        ("3 4\n25\n", "members 2\nform 3100\nlow 5\nhigh 6\n"),
        ("3 4\n100\n", "members 2\nform 4900\nlow 7\nhigh 7\n"),
        ("30 40\n25\n", "members 2\nform 310000\nlow 55\nhigh 56\n"),
        (
            "  3\t4 \r\n 025\r\n\r\n",
            "members 2\nform 3100\nlow 5\nhigh 6\n",
        ),
        ("0 0\n0", "members 2\nform 0\nlow 0\nhigh 0\n"),
        ("1 2 3\n10 20 30", "members 3\nform 1920\nlow 4\nhigh 5\n"),
    ];
    for (text, printed) in cases {
        let lines = respond(rt.alloc(), text.as_bytes())?;
        assert_eq!(rt; lines.as_str(), printed);
    }
    Ok(())
}

#[test]
fn refused(rt: HostRuntime) -> Result<(), Fail> {
    let cases = [
        ("", "line 1: 0 amounts, where 2 to 16 are wanted\n"),
        ("3\n", "line 1: 1 amounts, where 2 to 16 are wanted\n"),
        (
            "1 2 3 4 5 6 7 8 9 10 11 12 13 14 15 16 17\n0\n",
            "line 1: 17 amounts, where 2 to 16 are wanted\n",
        ),
        ("3 four\n0\n", "line 1, word 2: not a whole number\n"),
        ("-3 4\n0\n", "line 1, word 1: not a whole number\n"),
        (
            "16777215 16777216\n0\n",
            "line 1, word 2: an amount above 16777215\n",
        ),
        (
            "3 99999999999999999999\n0\n",
            "line 1, word 2: an amount above 16777215\n",
        ),
        ("3 4\n", "line 2: 0 entries, where 1 are wanted\n"),
        ("3 4 5\n0 0\n", "line 2: 2 entries, where 3 are wanted\n"),
        ("3 4 5\n0 101 200\n", "line 2, word 2: an entry above 100\n"),
        ("3 4\n4294967296\n", "line 2, word 1: an entry above 100\n"),
        ("3 4 5\n0 1.5 0\n", "line 2, word 2: not a whole number\n"),
        ("3 4\n25\n\n7\n", "line 3: text behind the two lines\n"),
    ];
    for (text, printed) in cases {
        let line = refusal(&rt, rt.alloc(), text.as_bytes())?;
        assert_eq!(rt; line.as_str(), printed);
    }
    Ok(())
}

#[test]
fn too_long(rt: HostRuntime) -> Result<(), Fail> {
    let blanks = [32u8; 65_537];
    let line = refusal(&rt, rt.alloc(), &blanks)?;
    assert_eq!(rt; line.as_str(), "the input has more than 65536 bytes\n");
    Ok(())
}
