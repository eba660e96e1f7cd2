//! How a queue of segments is opened: first all that takes memory, then the segments go in, then the berths are cut off.
ghost use Rattle.std.specs.Prelude.{◌≡◌, ◌+◌, ◌-◌, ◌^◌, ◌<◌, ◌≤◌, true, [], ◌++◌, IfOk, IfErr, length, map, take, drop, reverse, sum, vec_len, vec_capacity, All};
ghost use Rattle.std.specs.Arc.{arc_value};
ghost use Rattle.crossbeam_queue.specs.Passes.{view, IsPassOf, ruled_capacity};
ghost use Rattle.dym_base.specs.Origins.{shared};
ghost use Rattle.dym_base.specs.declared.limits.TheConstants.{MOST_QUOTA};
ghost use Rattle.dym_region.specs.Identity.{AreDistinct};
ghost use Rattle.dym_quota.specs.Berths.{IsIdleBerth};
ghost use Rattle.dym_quota.specs.QueueShape.{queue_name};
ghost use Rattle.dym_quota.specs.SegmentRule.{first_pass};

use crate::berth::Berth;
use crate::quota_queue::QuotaQueue;
use crate::rule::{SegmentLine, SegmentPass};
use crate::steps::{part, stock};
use crate::supply::Supply;
use dym_base::limits::MOST_QUOTA;
use dym_region::{RawSegment, Segment};
use std::alloc::{AllocError, Global};
use std::marker::PhantomData;
use std::sync::{Arc, Wait};

impl QuotaQueue {
    /// Puts as many segments as the quotas sum to into a queue, in the order of the list, and lays the others aside. Each quota
    /// gets a berth, in their order, which holds nothing yet.
    ///
    /// An `AllocError` comes where there is no memory for the queue or for the list of berths; the segments then come back
    /// as they were handed in.
    pub fn open<R: Wait>(
        way: &R,
        alloc: Global,
        mut segments: Vec<RawSegment>,
        quotas: &[u32],
    ) -> Result<(QuotaQueue, Vec<Berth<R>>), (AllocError, Vec<RawSegment>)>
        requires some_berth { 0 < length quotas.now }
        requires each_quota { All (λ q. (1 ≤ q) × (q ≤ MOST_QUOTA)) quotas.now }
        requires enough { sum quotas.now ≤ vec_len segments }
        requires distinct { AreDistinct (map ⟦<RawSegment as Segment>⟧.id segments.items) }
        ensures quotas { IfOk result (λ r. map ⟦<Berth<R> as Supply>⟧.quota_of r.1.items
            ≡ quotas.now) }
        ensures nothing_held { IfOk result (λ r. All
            (λ b. ⟦<Berth<R> as Supply>⟧.held_ids b ≡ []) r.1.items) }
        ensures origin { IfOk result (λ r. All
            (λ b. ⟦<Berth<R> as Supply>⟧.origin b ≡ shared r.0.name) r.1.items) }
        ensures stocked { IfOk result (λ r. r.0.stocked
            ≡ take (sum quotas.now) (map ⟦<RawSegment as Segment>⟧.id segments.items)) }
        ensures aside { IfOk result (λ r. r.0.aside
            ≡ drop (sum quotas.now) (map ⟦<RawSegment as Segment>⟧.id segments.items)) }
        ensures room { IfOk result (λ r. r.0.room ≡ vec_capacity segments) }
        ensures back { IfErr result (λ e. e.1 ≡ segments) }
    {
        let count = sum_of(quotas);
        let frame = match made_frame(alloc, count, quotas.len()) {
            Ok(frame) => frame,
            Err(error) => return Err((error, segments)),
        };
        let Frame {
            line,
            pass: mut keeper,
            ends,
            mut berths,
        } = frame;
        stock_first(way, &line, &mut keeper, &mut segments, count);
        deal(&line, &mut keeper, ends, &mut berths, quotas);
        let queue = QuotaQueue {
            line,
            keeper,
            aside: segments,
            count,
        };
        Ok((queue, berths))
    }
}

/// All of a queue that takes memory, before any segment moves.
#[derive(Drop)]
struct Frame<R> {
    line: Arc<SegmentLine, Global>,
    pass: SegmentPass,
    ends: Vec<Arc<SegmentLine, Global>>,
    berths: Vec<Berth<R>>,
}

fn made_frame<R: Wait>(alloc: Global, places: usize, count: usize) -> Result<Frame<R>, AllocError>
    requires some_places { 0 < places }
    ensures pass { IfOk result (λ f. IsPassOf (arc_value f.line) f.pass) }
    ensures opens { IfOk result (λ f. view f.pass ≡ first_pass) }
    ensures places { IfOk result (λ f. ruled_capacity (arc_value f.line) ≡ places) }
    ensures ends { IfOk result (λ f. All (λ end. arc_value end ≡ arc_value f.line) f.ends.items) }
    ensures count { IfOk result (λ f. vec_len f.ends ≡ count) }
    ensures empty { IfOk result (λ f. f.berths.items ≡ []) }
    ensures room { IfOk result (λ f. count ≤ vec_capacity f.berths) }
{
    let (line, pass) = SegmentLine::ruled(alloc, places)?;
    let line = Arc::new(alloc, line)?;
    let ends = ends_of(alloc, &line, count)?;
    let berths = Vec::with_capacity(alloc, count)?;
    Ok(Frame {
        line,
        pass,
        ends,
        berths,
    })
}

/// That many ends of one line.
fn ends_of(
    alloc: Global,
    line: &Arc<SegmentLine, Global>,
    count: usize,
) -> Result<Vec<Arc<SegmentLine, Global>>, AllocError>
    ensures same { IfOk result
        (λ ends. All (λ end. arc_value end ≡ arc_value line.now) ends.items) }
    ensures count { IfOk result (λ ends. vec_len ends ≡ count) }
{
    let mut ends = Vec::with_capacity(alloc, count)?;
    for _k in 0..count {
        let end = Arc::try_clone(line)?;
        ends.push_reserved(end);
    }
    Ok(ends)
}

/// Puts the last `count` segments of the list into the queue, the last one first.
fn stock_last<R: Wait>(
    way: &R,
    line: &SegmentLine,
    pass: &mut SegmentPass,
    segments: &mut Vec<RawSegment>,
    count: usize,
)
    requires queue { IsPassOf line.now pass.old }
    requires opens { view pass.old ≡ first_pass }
    requires enough { count ≤ vec_len segments.old }
    requires distinct { AreDistinct
        (reverse (map ⟦<RawSegment as Segment>⟧.id segments.old.items)) }
    requires places { count ≤ ruled_capacity line.now }
    ensures queue { IsPassOf line.now pass.new }
    ensures quota { (view pass.new).quota ≡ count }
    ensures nothing_held { (view pass.new).held ≡ [] }
    ensures stocked { length (view pass.new).stock ≡ count }
    ensures order { (view pass.new).stock
        ++ reverse (map ⟦<RawSegment as Segment>⟧.id segments.new.items)
        ≡ reverse (map ⟦<RawSegment as Segment>⟧.id segments.old.items) }
    ensures rest { vec_len segments.new + count ≡ vec_len segments.old }
    ensures room { vec_capacity segments.new ≡ vec_capacity segments.old }
{
    for _k in 0..count {
        let segment = segments.take_last();
        stock(way, line, pass, segment);
    }
}

/// Puts the first `count` segments of the list into the queue, the first one first.
fn stock_first<R: Wait>(
    way: &R,
    line: &SegmentLine,
    pass: &mut SegmentPass,
    segments: &mut Vec<RawSegment>,
    count: usize,
)
    requires queue { IsPassOf line.now pass.old }
    requires opens { view pass.old ≡ first_pass }
    requires enough { count ≤ vec_len segments.old }
    requires distinct { AreDistinct (map ⟦<RawSegment as Segment>⟧.id segments.old.items) }
    requires places { count ≤ ruled_capacity line.now }
    ensures queue { IsPassOf line.now pass.new }
    ensures quota { (view pass.new).quota ≡ count }
    ensures nothing_held { (view pass.new).held ≡ [] }
    ensures stocked { (view pass.new).stock
        ≡ take count (map ⟦<RawSegment as Segment>⟧.id segments.old.items) }
    ensures aside { map ⟦<RawSegment as Segment>⟧.id segments.new.items
        ≡ drop count (map ⟦<RawSegment as Segment>⟧.id segments.old.items) }
    ensures room { vec_capacity segments.new ≡ vec_capacity segments.old }
{
    segments.reverse();
    stock_last(way, line, pass, segments, count);
    segments.reverse();
}

/// Cuts a berth off the keeper for each quota.
fn deal<R: Wait>(
    line: &SegmentLine,
    keeper: &mut SegmentPass,
    mut ends: Vec<Arc<SegmentLine, Global>>,
    berths: &mut Vec<Berth<R>>,
    quotas: &[u32],
)
    requires queue { IsPassOf line.now keeper.old }
    requires enough { sum quotas.now ≤ (view keeper.old).quota }
    requires nothing_held { (view keeper.old).held ≡ [] }
    requires some_quota { All (λ q. 1 ≤ q) quotas.now }
    requires places { length (view keeper.old).stock ≤ ruled_capacity line.now }
    requires ends { All (λ end. arc_value end ≡ line.now) ends.items }
    requires count { vec_len ends ≡ length quotas.now }
    requires empty { berths.old.items ≡ [] }
    requires room { length quotas.now ≤ vec_capacity berths.old }
    ensures queue { IsPassOf line.now keeper.new }
    ensures quota { (view keeper.new).quota + sum quotas.now ≡ (view keeper.old).quota }
    ensures keeps_nothing { (view keeper.new).held ≡ [] }
    ensures stock { (view keeper.new).stock ≡ (view keeper.old).stock }
    ensures quotas { map ⟦<Berth<R> as Supply>⟧.quota_of berths.new.items ≡ quotas.now }
    ensures idle { All (IsIdleBerth (queue_name keeper.old)) berths.new.items }
{
    for k in 0..quotas.len() {
        let quota = quotas[k];
        let pass = part(line, keeper, quota);
        berths.push_reserved(Berth {
            line: ends.take_last(),
            pass,
            quota,
            held: 0,
            marker: PhantomData,
        });
    }
}

/// The sum of all quotas.
fn sum_of(quotas: &[u32]) -> usize
    requires { sum quotas.now < 2 ^ 64 }
    ensures { result ≡ sum quotas.now }
{
    let mut total = 0;
    for quota in quotas {
        total += *quota as usize;
    }
    total
}
