//! The objects that have yet to run.
ghost use Rattle.std.specs.Prelude.{◌≡◌, ◌<◌, ◌≤◌, ◌++◌, IfOk, IfErr, length, map, drop, vec_len, All, IsPermutation};
ghost use Rattle.dym_base.specs.declared.limits.TheConstants.{MOST_OBJECTS, MOST_SEGMENTS};
ghost use Rattle.dym_pool.specs.Jobs.{AllEnded};
ghost use Rattle.dym_region.specs.Identity.{AreDistinct, ids_of};
ghost use Rattle.dym_script.specs.OwnCommands.{IsRunnable};
ghost use Rattle.dym_wave.specs.Consumers.{CanTakeAll, HandsOver, HandsOverFirst};
ghost use Rattle.dym_wave.specs.Parts.{quota_of, IsShape, IsSumOfRun};
ghost use Rattle.dym_wave.specs.Results.{origin_shown, parts_shown};
ghost use Rattle.dym_wave.specs.WorkLists.{TakesParts};
ghost use Rattle.dym_wave.specs.Works.{left_of, origin_of};

use crate::consumer::Consumer;
use crate::open_wave::Wave;
use crate::quotas::{largest_wave, quotas_of};
use crate::run_fail::RunFail;
use crate::wave_options::WaveOptions;
use crate::work::Work;
use dym_base::limits::{MOST_OBJECTS, MOST_SEGMENTS};
use dym_pool::Gate;
use dym_quota::waves;
use dym_region::{RawSegment, Region, Segment};
use dym_script::Part;
use std::alloc::{AllocError, Global};
use std::collections::VecDeque;
use std::mem;
use std::sync::Wait;
use std::thread::Threads;

/// Objects in the order of their declarations, of which the first ones ran. What has yet to run leaves from the front, wave by wave.
#[derive(Drop)]
struct ObjectQueue {
    options: WaveOptions,
    parts: VecDeque<Part>,
    most: u32,
    quotas: Vec<u32>,
    from: usize,
    ghost runnable: { All IsRunnable parts.items },
    ghost shaped: { IsShape options.shape },
    ghost lined: { map quota_of parts.items ≡ drop from quotas.items },
    ghost inside: { from ≤ vec_len quotas },
    ghost fits: { All (λ q. q ≤ most) quotas.items },
    ghost few: { vec_len quotas ≤ MOST_OBJECTS },
}

/// Runs the objects of parts in waves, and hands each over, in their order, once its wave is over.
pub(crate) fn run_all<R: Threads + Wait + Send + Sync, G: Gate, C: Consumer<R>>(
    rt: &R,
    alloc: Global,
    options: WaveOptions,
    parts: Vec<Part>,
    gate: &G,
    output: &mut C::Output,
) -> Result<(), RunFail<C::Fail>>
    requires runnable { All IsRunnable parts.items }
    requires shape { IsShape options.shape }
    requires fits { All (λ part. part.decl.quota ≤ options.shape.segments) parts.items }
    requires objects { vec_len parts ≤ MOST_OBJECTS }
    requires can { CanTakeAll C.can_take C.takes output.old
        (parts_shown options.report parts.items) }
    ensures { HandsOver C.takes C.fails output.old
        (parts_shown options.report parts.items) output.new result }
{
    if parts.is_empty() {
        return Ok(());
    }
    let mut object_queue = ObjectQueue::of(alloc, options, parts)?;
    let (region, mut segments) = object_queue.open_region(alloc)?;
    let ran = run_waves::<R, G, C>(rt, alloc, &mut object_queue, &mut segments, gate, output);
    region.close(segments);
    ran
}

/// Runs all objects that have yet to run, wave by wave, and hands them over.
fn run_waves<R: Threads + Wait + Send + Sync, G: Gate, C: Consumer<R>>(
    rt: &R,
    alloc: Global,
    object_queue: &mut ObjectQueue,
    segments: &mut Vec<RawSegment>,
    gate: &G,
    output: &mut C::Output,
) -> Result<(), RunFail<C::Fail>>
    requires enough { object_queue.old.most ≤ vec_len segments.old }
    requires distinct { AreDistinct (map ⟦<RawSegment as Segment>⟧.id segments.old.items) }
    requires can { CanTakeAll C.can_take C.takes output.old
        (parts_shown object_queue.old.options.report object_queue.old.parts.items) }
    ensures segments { IsPermutation (map ⟦<RawSegment as Segment>⟧.id segments.old.items)
        (map ⟦<RawSegment as Segment>⟧.id segments.new.items) }
    ensures handed_over { HandsOver C.takes C.fails output.old
        (parts_shown object_queue.old.options.report object_queue.old.parts.items)
        output.new result }
{
    while !object_queue.parts.is_empty() {
        run_next::<R, G, C>(rt, alloc, object_queue, segments, gate, output)?;
    }
    Ok(())
}

/// Runs the objects of the next wave, and hands them over. All segments are back when the call returns.
fn run_next<R: Threads + Wait + Send + Sync, G: Gate, C: Consumer<R>>(
    rt: &R,
    alloc: Global,
    object_queue: &mut ObjectQueue,
    segments: &mut Vec<RawSegment>,
    gate: &G,
    output: &mut C::Output,
) -> Result<(), RunFail<C::Fail>>
    requires some { 0 < length object_queue.old.parts.items }
    requires enough { object_queue.old.most ≤ vec_len segments.old }
    requires distinct { AreDistinct (map ⟦<RawSegment as Segment>⟧.id segments.old.items) }
    requires can { CanTakeAll C.can_take C.takes output.old
        (parts_shown object_queue.old.options.report object_queue.old.parts.items) }
    ensures options { object_queue.new.options ≡ object_queue.old.options }
    ensures most { object_queue.new.most ≡ object_queue.old.most }
    ensures segments { IsPermutation (map ⟦<RawSegment as Segment>⟧.id segments.old.items)
        (map ⟦<RawSegment as Segment>⟧.id segments.new.items) }
    ensures distinct { AreDistinct (map ⟦<RawSegment as Segment>⟧.id segments.new.items) }
    ensures handed_over { HandsOverFirst C.takes C.fails
        object_queue.old.options.report object_queue.old.parts.items
        object_queue.new.parts.items output.old output.new result }
{
    let workers = object_queue.options.shape.workers;
    let taken = mem::replace(segments, Vec::new(alloc));
    let wave = match object_queue.open_next(rt, alloc, C::MAKES_TEXT, taken) {
        Ok(wave) => wave,
        Err((error, back)) => {
            *segments = back;
            return Err(RunFail::from(error));
        }
    };
    let (wave, ran) = wave.run(rt, alloc, workers, gate);
    let handed_over = match ran {
        Ok(()) => hand_over::<R, C>(&wave.works, output),
        Err(error) => Err(RunFail::from(error)),
    };
    *segments = wave.close(rt);
    handed_over
}

/// Hands works over that have ended, up to one that found its memory wanting.
fn hand_over<R: Wait, C: Consumer<R>>(
    works: &[Work<R>],
    output: &mut C::Output,
) -> Result<(), RunFail<C::Fail>>
    requires ended { AllEnded left_of works.now }
    requires text { All (λ w. w.origin.makes_text ≡ C.MAKES_TEXT) works.now }
    requires can { CanTakeAll C.can_take C.takes output.old
        (map (λ w. origin_shown w.origin) works.now) }
    ensures { HandsOver C.takes C.fails output.old
        (map (λ w. origin_shown w.origin) works.now) output.new result }
{
    for work in works {
        if work.short() {
            return Err(RunFail::Memory);
        }
        if let Err(fail) = C::take(output, work) {
            return Err(RunFail::Refused(fail));
        }
    }
    Ok(())
}

impl ObjectQueue {
    /// All of some objects.
    fn of(alloc: Global, options: WaveOptions, parts: Vec<Part>) -> Result<ObjectQueue, AllocError>
        requires runnable { All IsRunnable parts.items }
        requires shape { IsShape options.shape }
        requires fits { All (λ part. part.decl.quota ≤ options.shape.segments) parts.items }
        requires some { 0 < vec_len parts }
        requires objects { vec_len parts ≤ MOST_OBJECTS }
        ensures options { IfOk result (λ r. r.options ≡ options) }
        ensures parts { IfOk result (λ r. r.parts.items ≡ parts.items) }
        ensures least { IfOk result (λ r. 1 ≤ r.most) }
        ensures most { IfOk result (λ r. r.most ≤ options.shape.segments) }
        ensures needed { IfOk result (λ r. IsSumOfRun (map quota_of parts.items) r.most) }
    {
        let quotas = quotas_of(alloc, &parts)?;
        let most = largest_wave(&quotas, options.shape.segments);
        Ok(ObjectQueue {
            options,
            parts: VecDeque::from_vec(parts),
            most,
            quotas,
            from: 0,
        })
    }

    /// A region of as many segments as the largest wave needs.
    fn open_region(&self, alloc: Global) -> Result<(Region, Vec<RawSegment>), AllocError>
        requires least { 1 ≤ self.now.most }
        requires most { self.now.most ≤ MOST_SEGMENTS }
        ensures count { IfOk result (λ r. r.0.count ≡ self.now.most) }
        ensures length { IfOk result (λ r. vec_len r.1 ≡ self.now.most) }
        ensures numbered { IfOk result (λ r.
            map ⟦<RawSegment as Segment>⟧.id r.1.items ≡ ids_of r.0.id self.now.most) }
        ensures distinct { IfOk result (λ r.
            AreDistinct (map ⟦<RawSegment as Segment>⟧.id r.1.items)) }
    {
        Region::new(alloc, self.most)
    }

    /// Opens the next wave, over these segments. At an `AllocError` all segments come back, and none of its objects is taken.
    fn open_next<R: Wait>(
        &mut self,
        rt: &R,
        alloc: Global,
        makes_text: bool,
        segments: Vec<RawSegment>,
    ) -> Result<Wave<R>, (AllocError, Vec<RawSegment>)>
        requires some { 0 < length self.old.parts.items }
        requires enough { self.old.most ≤ vec_len segments }
        requires distinct { AreDistinct (map ⟦<RawSegment as Segment>⟧.id segments.items) }
        ensures options { self.new.options ≡ self.old.options }
        ensures most { self.new.most ≡ self.old.most }
        ensures some { IfOk result (λ w. 0 < vec_len w.works) }
        ensures made { IfOk result (λ w. TakesParts self.old.options makes_text
            self.old.parts.items self.new.parts.items (map origin_of w.works.items)) }
        ensures segments { IfOk result (λ w. w.queue.stocked ++ w.queue.aside
            ≡ map ⟦<RawSegment as Segment>⟧.id segments.items) }
        ensures back { IfErr result (λ e.
            IsPermutation (map ⟦<RawSegment as Segment>⟧.id segments.items)
            (map ⟦<RawSegment as Segment>⟧.id e.1.items)) }
        ensures distinct { IfErr result (λ e.
            AreDistinct (map ⟦<RawSegment as Segment>⟧.id e.1.items)) }
    {
        let end = waves(&self.quotas, self.most, self.from);
        let wave = Wave::open(
            rt,
            alloc,
            self.options,
            makes_text,
            segments,
            &self.quotas[self.from..end],
            &mut self.parts,
        )?;
        self.from = end;
        Ok(wave)
    }
}
