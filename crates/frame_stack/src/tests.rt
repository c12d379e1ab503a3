use super::*;
use mem_base::{Frame, TextId};
use std::test::Fail;

const MAIN: Frame = Frame {
    file: TextId(1),
    line: 3,
};

const LOAD: Frame = Frame {
    file: TextId(2),
    line: 10,
};

const UNKNOWN: Frame = Frame {
    file: TextId(0),
    line: 0,
};

#[test]
fn the_most_recent_frames_are_kept(rt: HostRuntime) -> Result<(), Fail> {
    let mut frames = Frames::new(rt.alloc());
    let mut table = Tracebacks::new(rt.alloc());
    let none = recent(&frames, 2, &mut table)?;
    assert_eq!(rt; frames.total(), 1);
    frames.enter(TextId(1), 3)?;
    frames.enter(TextId(2), 9)?;
    frames.line(10);
    let both = recent(&frames, 2, &mut table)?;
    let last = recent(&frames, 1, &mut table)?;
    let all = recent(&frames, 65535, &mut table)?;
    assert_eq!(rt; frames.total(), 2);
    frames.leave();
    assert!(rt; frames.as_slice() == [MAIN].as_slice());
    assert_eq!(rt;
        (none, both, last, all),
        (TbId(0), TbId(1), TbId(2), TbId(1))
    );
    assert!(rt; table.frames(none) == [UNKNOWN].as_slice());
    assert!(rt; table.frames(both) == [MAIN, LOAD].as_slice());
    assert!(rt; table.frames(last) == [LOAD].as_slice());
    assert_eq!(rt; table.len(), 3);
    Ok(())
}

#[test]
fn nine_frames_have_a_number_too(rt: HostRuntime) -> Result<(), Fail> {
    let mut table = Tracebacks::new(rt.alloc());
    let eight = table.intern(&[MAIN; 8])?;
    let nine = table.intern(&[MAIN; 9])?;
    assert_eq!(rt; (eight, nine), (TbId(0), TbId(1)));
    let again = table.intern(&[MAIN; 9])?;
    assert_eq!(rt; again, nine);
    Ok(())
}

// The frames change between the second and the third, and are those of the first again at the end.
#[test]
fn a_number_stays_while_the_frames_do(rt: HostRuntime) -> Result<(), Fail> {
    let mut callers = Callers::new(rt.alloc(), 2, 3)?;
    callers.enter(1, TextId(1), 3)?;
    let first = callers.recent(1, 2)?;
    assert!(rt; callers.frames(first) == [MAIN].as_slice());
    let again = callers.recent(1, 2)?;
    callers.enter(1, TextId(2), 9)?;
    let deeper = callers.recent(1, 2)?;
    callers.line(1, 10);
    let further = callers.recent(1, 2)?;
    assert!(rt; callers.frames(further) == [MAIN, LOAD].as_slice());
    let other = callers.recent(0, 2)?;
    assert!(rt; callers.frames(other) == [UNKNOWN].as_slice());
    callers.leave(1);
    let back = callers.recent(1, 2)?;
    assert!(rt; callers.frames(back) == [MAIN].as_slice());
    assert_eq!(rt;
        (first, again, deeper, further, other, back),
        (TbId(0), TbId(0), TbId(1), TbId(2), TbId(3), TbId(0))
    );
    assert_eq!(rt; callers.tracebacks().len(), 4);
    assert_eq!(rt; (callers.total(1), callers.total(0)), (1, 1));
    Ok(())
}
