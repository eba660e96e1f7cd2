//! One walk through an area of each class (`dym_area`).
ghost use Rattle.dym_area.specs.Area.{IsValidArea};

use dym_area::Area;
use dym_base::Class;
use dym_base::limits::{GREATEST_EXPONENT, LEAST_EXPONENT};
use dym_region::VecSegment;
use std::process::Abort;
use std::test::Fail;

// Writes the last bytes of a chunk that is used.
fn put(area: &mut Area<VecSegment>, i: u32, bytes: [u8; 4])
    requires { IsValidArea area.old }
    ensures { IsValidArea area.new }
{
    let size = area.class().size();
    if i < area.class().per_area() && area.is_used(i) && size >= 4 {
        area.write(i, size - 4, &bytes);
    }
}

// The last bytes of a chunk, if it is used.
fn last_bytes(area: &Area<VecSegment>, i: u32) -> Option<[u8; 4]>
    requires { IsValidArea area.now }
{
    let size = area.class().size();
    let mut bytes = [9; 4];
    if i < area.class().per_area() && area.is_used(i) && size >= 4 {
        area.read(i, size - 4, &mut bytes);
        return Some(bytes);
    }
    None
}

// Gives up a chunk that is used.
fn give(area: &mut Area<VecSegment>, i: u32)
    requires { IsValidArea area.old }
    ensures { IsValidArea area.new }
{
    if i < area.class().per_area() && area.is_used(i) {
        area.release(i);
    }
}

// Puts a chunk back, and answers its first bytes and whether it is dirty.
fn restore(area: &mut Area<VecSegment>, i: u32, bytes: [u8; 4]) -> Option<([u8; 4], bool)>
    requires { IsValidArea area.old }
    ensures { IsValidArea area.new }
{
    let mut front = [9; 4];
    if i < area.class().per_area() && area.class().size() >= 4 {
        area.put_back(i, &bytes);
    }
    if i < area.class().per_area() && area.is_used(i) && area.class().size() >= 4 {
        area.read(i, 0, &mut front);
        return Some((front, area.is_dirty(i)));
    }
    None
}

// Whether a chunk is dirty before and after it is marked as clean.
fn clean(area: &mut Area<VecSegment>, i: u32) -> Option<(bool, bool)>
    requires { IsValidArea area.old }
    ensures { IsValidArea area.new }
{
    if i >= area.class().per_area() {
        return None;
    }
    let before = area.is_dirty(i);
    area.clear_dirty_at(i);
    if i >= area.class().per_area() {
        return None;
    }
    Some((before, area.is_dirty(i)))
}

// Whether a chunk that is used is dirty once it is marked so.
fn soil(area: &mut Area<VecSegment>, i: u32) -> Option<bool>
    requires { IsValidArea area.old }
    ensures { IsValidArea area.new }
{
    if i >= area.class().per_area() || !area.is_used(i) {
        return None;
    }
    area.set_dirty_at(i);
    if i >= area.class().per_area() {
        return None;
    }
    Some(area.is_dirty(i))
}

fn walk(rt: &impl Abort, class: Class, seg: VecSegment) {
    let all = class.per_area();
    let mut area = Area::new(class, 3, seg);
    for i in 0..all {
        assert_eq!(rt; area.take_first(), Some(i));
    }
    assert_eq!(rt; area.take_first(), None);
    let last = all - 1;
    let middle = all / 2;
    put(&mut area, last, [5, 6, 7, 8]);
    assert_eq!(rt; last_bytes(&area, last), Some([5, 6, 7, 8]));
    put(&mut area, middle, [1, 2, 3, 4]);
    give(&mut area, middle);
    assert_eq!(rt; last_bytes(&area, middle), None);
    assert_eq!(rt; area.take_first(), Some(middle));
    assert_eq!(rt; last_bytes(&area, middle), Some([0; 4]));
    assert_eq!(rt; (area.take_first(), area.top()), (None, Some(last)));
    give(&mut area, middle);
    assert_eq!(rt;
        restore(&mut area, middle, [7, 6, 5, 4]),
        Some(([7, 6, 5, 4], false))
    );
    assert_eq!(rt; restore(&mut area, last, [3; 4]), Some(([3; 4], false)));
    assert_eq!(rt; area.take_first(), None);
    put(&mut area, last, [1, 2, 3, 4]);
    assert_eq!(rt; clean(&mut area, last), Some((true, false)));
    assert_eq!(rt; soil(&mut area, last), Some(true));
    let _segment = area.into_segment();
}

#[test]
fn each_class_to_its_last_chunk(rt: HostRuntime) -> Result<(), Fail> {
    for exp in LEAST_EXPONENT..GREATEST_EXPONENT + 1 {
        walk(&rt, Class { exp }, VecSegment::new(rt.alloc())?);
    }
    Ok(())
}
