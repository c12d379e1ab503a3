use super::*;
use frame_stack::TbId;
use mem_base::TextId;
use std::test::Fail;

fn of(size: u64) -> TraceOf {
    TraceOf {
        size,
        trace: TbId(1),
        total: 3,
    }
}

// 10, then 10 + 4, then 4 where the first is gone, then 2 in place of 4.
#[test]
fn the_peak_is_the_greatest_sum(rt: HostRuntime) -> Result<(), Fail> {
    let mut tracing = Tracing::new(rt.alloc());
    tracing.start(2);
    tracing.reserve_one()?;
    tracing.add(TextId(7), of(10));
    assert!(rt; tracing.mark(1, 7, of(4)).is_ok());
    assert_eq!(rt; tracing.traced(), (14, 14));
    tracing.remove(TextId(7));
    assert_eq!(rt; tracing.traced(), (4, 14));
    assert!(rt; tracing.mark(1, 7, of(2)).is_ok());
    assert_eq!(rt; tracing.traced(), (2, 14));
    tracing.reset_peak();
    assert_eq!(rt; tracing.traced(), (2, 2));
    Ok(())
}

#[test]
fn nothing_is_marked_while_nothing_is_traced(rt: HostRuntime) -> Result<(), Fail> {
    let mut tracing = Tracing::new(rt.alloc());
    assert_eq!(rt; tracing.mark(1, 7, of(4)), Err(MarkError::NotTracing));
    tracing.start(5);
    tracing.reserve_one()?;
    tracing.add(TextId(0), of(10));
    assert_eq!(rt; tracing.get(TextId(0)), Some(of(10)));
    tracing.stop();
    assert_eq!(rt; tracing.unmark(1, 7), Err(MarkError::NotTracing));
    assert_eq!(rt;
        (tracing.limit(), tracing.get(TextId(0)), tracing.traced()),
        (None, None, (0, 0))
    );
    Ok(())
}
