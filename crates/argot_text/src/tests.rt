use super::*;
use std::test::Fail;

#[test]
fn texts_are_what_was_pushed(rt: HostRuntime) -> Result<(), Fail> {
    let alloc = rt.alloc();
    let mut texts = Texts::new(alloc);
    texts.push(Text::from_str(alloc, "ab")?)?;
    assert_eq!(rt; texts.len(), 1);
    assert_eq!(rt; texts.get(0).as_str(), "ab");
    Ok(())
}

#[test]
fn out_is_what_was_pushed(rt: HostRuntime) -> Result<(), Fail> {
    let alloc = rt.alloc();
    let mut names = Texts::new(alloc);
    names.push(Text::from_str(alloc, "main.go")?)?;
    let mut out = Out::new(alloc);
    out.push_str("a")?;
    out.push_number(0)?;
    let pos = Pos {
        file: 0,
        line: 1,
        col: 1,
    };
    assert!(rt; names.len() == 1);
    out.push_pos(&names, pos)?;
    assert_eq!(rt; out.bytes(), b"a0main.go:1:1".as_slice());
    Ok(())
}

#[test]
fn positions(rt: HostRuntime) {
    let bytes = b"ab\n\ncde".as_slice();
    for (offset, line, col) in [
        (0, 1, 1),
        (2, 1, 3),
        (3, 2, 1),
        (4, 3, 1),
        (6, 3, 3),
        (7, 3, 4),
    ] {
        let pos = pos_of(bytes, 0, offset);
        assert_eq!(rt; (pos.line, pos.col), (line, col), "at {offset}");
    }
}

#[test]
fn a_sequence_gives_its_items_back(rt: HostRuntime) -> Result<(), Fail> {
    let items = Sequence::from_vec(vec![in rt.alloc(); 1u8, 2]?);
    assert_eq!(rt; items.len(), 2);
    assert_eq!(rt; items.as_vec().len(), 2);
    assert_eq!(rt; items.as_slice(), [1, 2].as_slice());
    assert_eq!(rt; items.into_vec().as_slice(), [1, 2].as_slice());
    Ok(())
}
