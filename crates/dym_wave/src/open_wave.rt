//! A wave: works over one queue of segments.
ghost use Rattle.std.specs.Prelude.{◌≡◌, ◌<◌, ◌≤◌, [], ◌++◌, IfOk, IfErr, OnOk, length, map, sum, vec_len, vec_capacity, All, IsPermutation};
ghost use Rattle.dym_base.specs.declared.limits.TheConstants.{MOST_OBJECTS, MOST_QUOTA, MOST_WORKERS};
ghost use Rattle.dym_pool.specs.Jobs.{AllEnded};
ghost use Rattle.dym_region.specs.Identity.{AreDistinct};
ghost use Rattle.dym_script.specs.OwnCommands.{IsRunnable};
ghost use Rattle.dym_wave.specs.Parts.{IsShape, StandInLine};
ghost use Rattle.dym_wave.specs.Waves.{AreOfWave};
ghost use Rattle.dym_wave.specs.WorkLists.{TakesParts};
ghost use Rattle.dym_wave.specs.Works.{left_of, origin_of};

use crate::observed_run::run_observed;
use crate::wave_options::WaveOptions;
use crate::work::Work;
use crate::work_list::{OtherEnds, WorkEnds, make_works};
use dym_base::limits::{MOST_OBJECTS, MOST_QUOTA, MOST_WORKERS};
use dym_pool::Gate;
use dym_quota::{Berth, QuotaQueue};
use dym_region::{RawSegment, Segment};
use dym_script::Part;
use std::alloc::{AllocError, Global};
use std::collections::VecDeque;
use std::sync::Wait;
use std::thread::Threads;

/// Works over one queue of segments, in order, with the other ends of their log tables and views, and room for their berths. The queue has
/// all segments once the wave is closed.
pub(crate) struct Wave<R: Wait> {
    pub(crate) queue: QuotaQueue,
    pub(crate) berths: Vec<Berth<R>>,
    pub(crate) works: Vec<Work<R>>,
    pub(crate) other_ends: OtherEnds,
    ghost none: { berths.items ≡ [] },
    ghost room: { vec_len works ≤ vec_capacity berths },
    ghost few: { vec_len works ≤ MOST_OBJECTS },
    ghost of_wave: { AreOfWave queue other_ends.sweepers.items (map origin_of works.items) },
}

impl<R: Wait> Wave<R> {
    /// Puts the segments into a queue, and makes a work of each of the parts that come next, of these quotas. Only memory can be wanting: all
    /// segments then come back, and no part is taken.
    pub(crate) fn open(
        rt: &R,
        alloc: Global,
        options: WaveOptions,
        makes_text: bool,
        segments: Vec<RawSegment>,
        quotas: &[u32],
        parts: &mut VecDeque<Part>,
    ) -> Result<Wave<R>, (AllocError, Vec<RawSegment>)>
        requires some { 0 < length quotas.now }
        requires few { length quotas.now ≤ MOST_OBJECTS }
        requires each_quota { All (λ q. (1 ≤ q) × (q ≤ MOST_QUOTA)) quotas.now }
        requires enough { sum quotas.now ≤ vec_len segments }
        requires distinct { AreDistinct (map ⟦<RawSegment as Segment>⟧.id segments.items) }
        requires shape { IsShape options.shape }
        requires runnable { All IsRunnable parts.old.items }
        requires lined { StandInLine parts.old.items quotas.now }
        ensures made { IfOk result (λ w. TakesParts options makes_text
            parts.old.items parts.new.items (map origin_of w.works.items)) }
        ensures count { IfOk result (λ w. vec_len w.works ≡ length quotas.now) }
        ensures segments { IfOk result (λ w. w.queue.stocked ++ w.queue.aside
            ≡ map ⟦<RawSegment as Segment>⟧.id segments.items) }
        ensures back { IfErr result (λ e. IsPermutation
            (map ⟦<RawSegment as Segment>⟧.id segments.items)
            (map ⟦<RawSegment as Segment>⟧.id e.1.items)) }
        ensures distinct { IfErr result (λ e.
            AreDistinct (map ⟦<RawSegment as Segment>⟧.id e.1.items)) }
        ensures unchanged { IfErr result (λ _. parts.new.items ≡ parts.old.items) }
    {
        let (queue, berths) = QuotaQueue::open(rt, alloc, segments, quotas)?;
        let (ends, other_ends) = match WorkEnds::open(
            rt,
            alloc,
            options.report.views,
            berths.len(),
        ) {
            Ok(ends) => ends,
            Err(error) => return Err((error, queue.close(rt, berths))),
        };
        let (works, berths) = make_works(rt, alloc, options, makes_text, ends, berths, parts);
        Ok(Wave {
            queue,
            berths,
            works,
            other_ends,
        })
    }

    /// Runs the works to their ends by workers side by side, while their log tables are swept and what they publish is looked at. Only
    /// memory can be wanting; the works then stand as they came.
    pub(crate) fn run<G: Gate>(
        self,
        rt: &R,
        alloc: Global,
        workers: u32,
        gate: &G,
    ) -> (Wave<R>, Result<(), AllocError>)
    where
        R: Threads + Send + Sync,
        requires some { 1 ≤ workers }
        requires most { workers ≤ MOST_WORKERS }
        ensures queue { result.0.queue ≡ self.queue }
        ensures origins { map origin_of result.0.works.items ≡ map origin_of self.works.items }
        ensures ended { OnOk result.1 (AllEnded left_of result.0.works.items) }
    {
        let Wave {
            queue,
            berths,
            mut works,
            other_ends,
        } = self;
        let OtherEnds {
            mut sweepers,
            mut viewers,
        } = other_ends;
        let ran = run_observed(
            rt,
            alloc,
            &mut works,
            &mut sweepers,
            &mut viewers,
            workers,
            gate,
        );
        let wave = Wave {
            queue,
            berths,
            works,
            other_ends: OtherEnds { sweepers, viewers },
        };
        (wave, ran)
    }

    /// Gives all works up, however far they are, gives up their log tables, and closes the queue. Answers all segments, in any order.
    pub(crate) fn close(self, rt: &R) -> Vec<RawSegment>
        ensures all { IsPermutation (self.queue.stocked ++ self.queue.aside)
            (map ⟦<RawSegment as Segment>⟧.id result.items) }
        ensures distinct { AreDistinct (map ⟦<RawSegment as Segment>⟧.id result.items) }
    {
        let Wave {
            queue,
            mut berths,
            mut works,
            other_ends,
        } = self;
        let mut sweepers = other_ends.sweepers;
        while let Some(work) = works.pop() {
            let Some(sweeper) = sweepers.pop() else {
                unreachable!();
            };
            let (berth, keep) = work.give_up(rt);
            sweeper.finish(keep.into_owner());
            berths.push_reserved(berth);
        }
        works.destroy_empty();
        queue.close(rt, berths)
    }
}
