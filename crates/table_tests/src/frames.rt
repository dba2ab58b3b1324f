//! Frames of a pool.
use frame_pool::FramePool;
use std::test::Fail;

#[test]
fn frames_are_written_one_and_two_at_a_time(rt: HostRuntime) -> Result<(), Fail> {
    let mut pool = FramePool::new(rt.alloc(), 3)?;
    assert_eq!(rt; pool.len(), 3);
    pool.get_mut(1)[511] = 7;
    let (last, middle) = pool.two_mut(2, 1);
    last[0] = middle[511];
    middle[511] = 9;
    assert_eq!(rt; pool.len(), 3);
    assert_eq!(rt; pool.get(0)[511], 0);
    assert_eq!(rt; pool.get(1)[511], 9);
    assert_eq!(rt; pool.get(2)[0], 7);
    Ok(())
}
