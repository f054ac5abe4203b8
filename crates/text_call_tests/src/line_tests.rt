//! Lines, words, numbers and names of texts, and the words of faults.
use crate::answers::same;
use fku_types::{Fault, LinkCause, Name, fault_line};
use std::test::Fail;
use text_io::{
    KeptLine, LineSpan, Number, after_keyword, kept_line_at, line_at, line_count, read_number,
    split_count, split_word,
};

#[test]
fn a_line_ends_after_its_line_feed(rt: HostRuntime) {
    let text = b"# a\r\n\t 12 \r-7\r\n\nEND\r";
    let line = LineSpan {
        first: 5,
        end: 13,
        next: 15,
    };
    same(&rt, line_at(text, 5), Some(line));
    same(&rt, line_at(text, text.len()), None);
}

#[test]
fn words_stand_between_blanks(rt: HostRuntime) {
    let line = b"\t 12  ab ";
    same(&rt, split_word(line), Some((b"12", b"  ab ")));
    same(&rt, split_word(b" \t"), None);
    same(&rt, after_keyword(line, b"12"), Some(b"  ab "));
    same(&rt, after_keyword(line, b"ab"), None);
    same(&rt, split_count(line, 12, 12), Some((12, b"  ab ")));
    same(&rt, split_count(line, 0, 11), None);
}

#[test]
fn numbers_are_read(rt: HostRuntime) {
    same(&rt, read_number(b"-007"), Some(Number::Value(-7)));
    let far = b"1000000000000000000000000000000000001".as_slice();
    same(&rt, read_number(far), Some(Number::Far));
    same(&rt, read_number(b"+5"), None);
}

#[test]
fn kept_lines_are_told_by_their_numbers(rt: HostRuntime) {
    let text = b"# a\n\t b c\r\n\n \n# d\ne";
    let line = KeptLine {
        number: 6,
        first: 18,
        end: 19,
        next: 19,
    };
    same(&rt, kept_line_at(text, 11, 2), Some(line));
    same(&rt, line_count(text, 11), 4);
    same(&rt, kept_line_at(text, text.len(), 6), None);
}

#[test]
fn faults_have_their_words(rt: HostRuntime) -> Result<(), Fail> {
    let below = Name::of(b"a1").ok_or("name")?;
    let above = Name::of(b"b_").ok_or("name")?;
    let link = Fault::Link {
        below,
        above,
        cause: LinkCause::NotNeighbours,
    };
    let line = fault_line(&link).ok_or("the fault has words")?;
    same(&rt, line.as_slice(), b"10 LINK a1 b_ NOT NEIGHBOURS");
    assert!(rt; fault_line(&Fault::NoMemory).is_none());
    assert!(rt; Name::of(b"a b").is_none());
    Ok(())
}
