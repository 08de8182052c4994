//! A call that was refused memory is made once more, so these tests pass with any one allocation
//! failing.

ghost use Rattle.std.specs.Prelude.{ℕ, ◌+◌, ◌≤◌, ◌^◌, length};

use segment_store::Segment;
use std::alloc::{AllocError, Global};
use std::process::Abort;
use std::test::Fail;

/// Pushes the numbers `from..to`.
fn push_range(segment: &mut Segment, from: u32, to: u32) -> Result<(), AllocError>
    requires { length segment.old.items + to ≤ 2 ^ 24 }
{
    for item in from..to {
        if segment.reserve().is_err() {
            segment.reserve()?;
        }
        segment.push(u64::from(item));
    }
    Ok(())
}

fn first_half(segment: &mut Segment) -> Result<Segment, AllocError> {
    match segment.split_half() {
        Ok(front) => Ok(front),
        Err(_) => segment.split_half(),
    }
}

fn items_of(segment: Segment) -> Result<Vec<u64>, AllocError> {
    match segment.into_items() {
        Ok(items) => Ok(items),
        Err(segment) => segment.into_items().map_err(|_| AllocError),
    }
}

/// A segment may go from thread to thread.
fn is_send<T: Send>(_: &T) {}

/// Pops the numbers `from..to`, the last one first, and then nothing.
fn assert_pops(rt: &impl Abort, mut segment: Segment, from: u32, to: u32) {
    for item in (from..to).rev() {
        assert_eq!(rt; segment.pop(), Some(u64::from(item)));
    }
    assert_eq!(rt; segment.pop(), None);
    assert_eq!(rt; segment.len(), 0);
}

#[test]
fn one_of_three_is_handed_out(rt: HostRuntime) -> Result<(), Fail> {
    let mut segment = Segment::new(rt.alloc());
    is_send(&segment);
    push_range(&mut segment, 1, 4)?;
    let front = first_half(&mut segment)?;
    assert_eq!(rt; items_of(front)?.as_slice(), [1].as_slice());
    assert_eq!(rt; items_of(segment)?.as_slice(), [2, 3].as_slice());
    Ok(())
}

#[test]
fn halves_at_block_borders(rt: HostRuntime) -> Result<(), Fail> {
    for count in [0, 1, 31, 32, 33, 64, 65] {
        let mut segment = Segment::new(rt.alloc());
        push_range(&mut segment, 0, count)?;
        assert_eq!(rt; segment.len(), count);
        let front = first_half(&mut segment)?;
        assert_pops(&rt, front, 0, count / 2);
        assert_pops(&rt, segment, count / 2, count);
    }
    Ok(())
}

#[test]
fn a_half_grows_and_is_split_again(rt: HostRuntime) -> Result<(), Fail> {
    let mut segment = Segment::new(rt.alloc());
    push_range(&mut segment, 0, 65)?;
    let front = first_half(&mut segment)?;
    assert_pops(&rt, front, 0, 32);
    assert_eq!(rt; segment.len(), 33);
    push_range(&mut segment, 65, 132)?;
    let front = first_half(&mut segment)?;
    assert!(rt; items_of(front)?.iter().copied().eq(32..82));
    assert!(rt; items_of(segment)?.iter().copied().eq(82..132));
    Ok(())
}

/// Steals from a segment of the numbers `0..count`, and says whether half of it went. Where memory was
/// refused the last item went alone.
fn steals_half(rt: &impl Abort, alloc: Global, count: u32) -> Result<bool, AllocError>
    requires { count ≤ 2 ^ 24 }
{
    let mut other = Segment::new(alloc);
    push_range(&mut other, 0, count)?;
    let mut own = Segment::new(alloc);
    let taken = Segment::steal_half(&mut own, &mut other);
    let moved = own.len();
    if count < 2 || moved == 0 && taken == Some(u64::from(count) - 1) {
        assert_eq!(rt; taken, u64::from(count).checked_sub(1));
        assert_pops(rt, own, 0, 0);
        assert_pops(rt, other, 0, count.saturating_sub(1));
        return Ok(count < 2);
    }
    let half = count / 2;
    assert_eq!(rt; taken, Some(u64::from(half) - 1));
    assert_pops(rt, own, 0, half - 1);
    assert_pops(rt, other, half, count);
    Ok(true)
}

#[test]
fn half_is_stolen_or_the_last_item(rt: HostRuntime) -> Result<(), Fail> {
    for count in [0, 1, 2, 3, 31, 32, 33, 64] {
        let first = steals_half(&rt, rt.alloc(), count)?;
        let again = steals_half(&rt, rt.alloc(), count)?;
        assert!(rt; first || again);
    }
    Ok(())
}
