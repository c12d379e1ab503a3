use super::*;
use std::alloc::{AllocError, Global};
use std::test::Fail;

fn matches(alloc: Global, pattern: &[u8], name: &[u8]) -> Result<bool, AllocError> {
    Ok(Pattern::read(alloc, pattern)?.matches(name))
}

#[test]
fn sets_and_brackets_match_as_they_are_read(rt: HostRuntime) -> Result<(), Fail> {
    let alloc = rt.alloc();
    assert!(rt; matches(alloc, b"[!a]*.pyc", b"b.py")?);
    assert!(rt; !matches(alloc, b"[!a]*.pyc", b"a.pyc")?);
    assert!(rt; matches(alloc, b"[]x].py", b"].py")?);
    assert!(rt; matches(alloc, b"a[b", b"a[b")?);
    assert!(rt; matches(alloc, b"*", b"/usr/lib/a.py")?);
    assert!(rt; !matches(alloc, b"[z-a]", b"m")?);
    Ok(())
}

#[test]
fn three_stars_leave_enough_for_the_last_run(rt: HostRuntime) -> Result<(), Fail> {
    let alloc = rt.alloc();
    assert!(rt; matches(alloc, b"*ab*ab*b", b"xababb")?);
    assert!(rt; !matches(alloc, b"*ab*ab*b", b"xabab")?);
    Ok(())
}
