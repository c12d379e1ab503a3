use crate::{Letter, List, Texts};
use std::test::Fail;

#[test]
fn a_text_has_one_number(rt: HostRuntime) -> Result<(), Fail> {
    let mut texts = Texts::new(rt.alloc())?;
    assert_eq!(rt; texts.len(), 1);
    let first = texts.intern(b"x")?;
    assert_eq!(rt; texts.len(), 2);
    let again = texts.intern(b"x")?;
    assert_eq!(rt; texts.len(), 2);
    assert_eq!(rt; first.0, 1);
    assert_eq!(rt; again, first);
    assert_eq!(rt; texts.get(first), b"x".as_slice());
    assert_eq!(rt; texts.find(b"x"), Some(first));
    assert_eq!(rt; texts.find(b"<unknown>").map(|id| id.0), Some(0));
    assert_eq!(rt; texts.find(b"y"), None);
    Ok(())
}

#[test]
fn a_text_of_seventeen_bytes_has_one_number_too(rt: HostRuntime) -> Result<(), Fail> {
    let mut texts = Texts::new(rt.alloc())?;
    let sixteen = texts.intern(b"0123456789abcdef")?;
    let seventeen = texts.intern(b"0123456789abcdefg")?;
    let again = texts.intern(b"0123456789abcdefg")?;
    assert_eq!(rt; (sixteen.0, seventeen.0, again.0), (1, 2, 2));
    assert_eq!(rt; texts.get(seventeen), b"0123456789abcdefg".as_slice());
    assert_eq!(rt; texts.find(b"0123456789abcdefg"), Some(seventeen));
    Ok(())
}

#[test]
fn a_list_keeps_the_order(rt: HostRuntime) -> Result<(), Fail> {
    let alloc = rt.alloc();
    let mut list = List::new(alloc);
    assert!(rt; list.is_empty());
    list.push(7u8)?;
    list.push(9)?;
    assert_eq!(rt; list.len(), 2);
    assert_eq!(rt; list.get(1).copied(), Some(9));
    assert_eq!(rt; list.get(2).copied(), None);
    assert!(rt; list == List::from_slice(alloc, &[7, 9])?);
    assert_eq!(rt; list.pop(), Some(9));
    assert_eq!(rt; list.as_slice(), [7].as_slice());
    let items = list.into_vec();
    assert!(rt; List::from_vec(items) == List::from_slice(alloc, &[7])?);
    Ok(())
}

#[test]
fn letters_are_those_of_the_hooks(rt: HostRuntime) {
    assert_eq!(rt; Letter::Raw.byte(), 0x72);
    assert_eq!(rt; Letter::Mem.byte(), 0x6d);
    assert_eq!(rt; Letter::Obj.byte(), 0x6f);
}
