//! That a piece goes to another thread and back, and that a range may. These tests start a thread, which `raw_range` does not: so it
//! can stand where no handle is allowed.

use raw_range::Range;
use std::test::Fail;
use std::thread;

fn may_cross<T: Send + Drop>(_value: T) {}

#[test]
fn a_piece_is_written_by_another_thread(rt: HostRuntime) -> Result<(), Fail> {
    let mut range = Range::new(rt.alloc(), 3, 1)?;
    let mut piece = range.take(16, 4);
    let writer = thread::spawn(&rt, move || {
        piece.bytes_mut().fill(7);
        piece
    })?;
    let piece = writer.join(&rt);
    assert!(rt; piece.bytes() == [7, 7, 7, 7].as_slice());
    assert_eq!(rt; piece.owner(), 3);
    may_cross(piece);
    may_cross(range);
    Ok(())
}
