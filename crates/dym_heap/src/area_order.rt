//! The areas of a shelf in their order: one that is put in or taken out, and two of them at a time.
ghost use Rattle.std.specs.Prelude.{◌≡◌, ◌≤◌, ◌<◌, ◌++◌, length, take, drop, slice_index_or, vec_len, vec_capacity};
ghost use Rattle.std.specs.List.{insert, remove};
ghost use Rattle.dym_heap.specs.SizedAreas.{FitsAt, IsCopiedOver};

use crate::chunk_location::ChunkLocation;
use crate::sized_area::SizedArea;
use dym_region::Segment;

/// Puts an area at place `at`, in room that is there. Those from there on move one up.
#[inline(always)]
pub(crate) fn put_in<G: Segment>(
    sized_areas: &mut Vec<SizedArea<G>>,
    at: usize,
    sized_area: SizedArea<G>,
)
    requires within { at ≤ length sized_areas.old.items }
    requires room { vec_len sized_areas.old < vec_capacity sized_areas.old }
    ensures items { sized_areas.new.items ≡ insert sized_areas.old.items at sized_area }
    ensures capacity { vec_capacity sized_areas.old ≤ vec_capacity sized_areas.new }
{
    sized_areas.push_reserved(sized_area);
    let behind = &mut sized_areas[at..];
    behind.rotate_right(1);
}

/// Takes out the area at place `at`. Those behind it move one down.
#[inline(always)]
pub(crate) fn take_out<G: Segment>(sized_areas: &mut Vec<SizedArea<G>>, at: usize) -> SizedArea<G>
    requires { at < length sized_areas.old.items }
    ensures value { result ≡ slice_index_or sized_areas.old.items at result }
    ensures items { sized_areas.new.items ≡ remove sized_areas.old.items at }
    ensures capacity { vec_capacity sized_areas.new ≡ vec_capacity sized_areas.old }
{
    move_to_end(sized_areas, at);
    sized_areas.take_last()
}

/// Moves the area at place `at` to the end.
#[inline(always)]
fn move_to_end<G: Segment>(sized_areas: &mut Vec<SizedArea<G>>, at: usize)
    requires { at < length sized_areas.old.items }
    ensures items { sized_areas.new.items ≡ take at sized_areas.old.items
        ++ (drop 1 (drop at sized_areas.old.items) ++ take 1 (drop at sized_areas.old.items)) }
    ensures capacity { vec_capacity sized_areas.new ≡ vec_capacity sized_areas.old }
{
    let behind = &mut sized_areas[at..];
    behind.rotate_left(1);
}

/// Copies the first `len` bytes, of which there is at least one, of a chunk over those of a chunk of another area.
pub(crate) fn copy_between<G: Segment>(
    sized_areas: &mut Vec<SizedArea<G>>,
    source: ChunkLocation,
    target: ChunkLocation,
    len: u32,
)
    requires apart { source.sized_area ≡ target.sized_area → ⊥ }
    requires source_area { source.sized_area < length sized_areas.old.items }
    requires target_area { target.sized_area < length sized_areas.old.items }
    requires some { 0 < len }
    requires source { FitsAt sized_areas.old.items source.sized_area source.chunk len }
    requires target { FitsAt sized_areas.old.items target.sized_area target.chunk len }
    ensures copied { IsCopiedOver sized_areas.old.items sized_areas.new.items
        source.sized_area source.chunk target.sized_area target.chunk len }
    ensures capacity { vec_capacity sized_areas.new ≡ vec_capacity sized_areas.old }
{
    if source.sized_area < target.sized_area {
        copy_up(sized_areas, source, target, len);
    } else {
        copy_down(sized_areas, source, target, len);
    }
}

/// Copies the first `len` bytes, of which there is at least one, of a chunk over those of a chunk of an area behind its own.
fn copy_up<G: Segment>(
    sized_areas: &mut [SizedArea<G>],
    source: ChunkLocation,
    target: ChunkLocation,
    len: u32,
)
    requires before { source.sized_area < target.sized_area }
    requires within { target.sized_area < length sized_areas.old }
    requires some { 0 < len }
    requires source { FitsAt sized_areas.old source.sized_area source.chunk len }
    requires target { FitsAt sized_areas.old target.sized_area target.chunk len }
    ensures { IsCopiedOver sized_areas.old sized_areas.new
        source.sized_area source.chunk target.sized_area target.chunk len }
{
    let (low, high) = sized_areas.split_at_mut(target.sized_area);
    let sized_area = &mut high[0];
    sized_area.copy_from(target.chunk, &low[source.sized_area], source.chunk, len);
}

/// Copies the first `len` bytes, of which there is at least one, of a chunk over those of a chunk of an area before its own.
fn copy_down<G: Segment>(
    sized_areas: &mut [SizedArea<G>],
    source: ChunkLocation,
    target: ChunkLocation,
    len: u32,
)
    requires before { target.sized_area < source.sized_area }
    requires within { source.sized_area < length sized_areas.old }
    requires some { 0 < len }
    requires source { FitsAt sized_areas.old source.sized_area source.chunk len }
    requires target { FitsAt sized_areas.old target.sized_area target.chunk len }
    ensures { IsCopiedOver sized_areas.old sized_areas.new
        source.sized_area source.chunk target.sized_area target.chunk len }
{
    let (low, high) = sized_areas.split_at_mut(source.sized_area);
    let sized_area = &mut low[target.sized_area];
    sized_area.copy_from(target.chunk, &high[0], source.chunk, len);
}
