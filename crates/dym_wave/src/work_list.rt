//! How the works of a wave are made: one for each part, over a berth and a log table.
ghost use Rattle.std.specs.Prelude.{◌≡◌, ◌≤◌, [], IfOk, map, vec_len, vec_capacity, All};
ghost use Rattle.dym_base.specs.declared.limits.TheConstants.{MOST_OBJECTS};
ghost use Rattle.dym_script.specs.OwnCommands.{IsRunnable};
ghost use Rattle.dym_wave.specs.Parts.{IsShape, StandInLine};
ghost use Rattle.dym_wave.specs.States.{CanTakeBerth, IsFreshKeep};
ghost use Rattle.dym_wave.specs.Waves.{tables_of};
ghost use Rattle.dym_wave.specs.WorkLists.{ArePlaced, ArePublishers, TakesParts};
ghost use Rattle.dym_wave.specs.Works.{origin_of};

use crate::log_tables::open_tables;
use crate::view_set::{end_all, open_where_told};
use crate::wave_options::WaveOptions;
use crate::work::Work;
use crate::work_state::WorkSpec;
use dym_base::limits::MOST_OBJECTS;
use dym_chain::SlotKeep;
use dym_quota::{Berth, Supply};
use dym_script::Part;
use dym_slots::Sweeper;
use dym_view::{Publisher, Viewer};
use std::alloc::{AllocError, Global};
use std::collections::VecDeque;
use std::sync::Wait;

/// What the works of a wave are made with: a keep and, where views are told, a publisher for each, and room for the works.
pub(crate) struct WorkEnds<R: Wait> {
    pub(crate) keeps: Vec<SlotKeep>,
    pub(crate) publishers: Vec<Publisher>,
    pub(crate) works: Vec<Work<R>>,
}

/// The other ends of what works have while they run: the sweepers of their log tables, and the viewers of what they publish.
#[derive(Drop)]
pub(crate) struct OtherEnds {
    pub(crate) sweepers: Vec<Sweeper>,
    pub(crate) viewers: Vec<Viewer>,
}

impl<R: Wait> WorkEnds<R> {
    /// What so many works are made with, and the other ends of it.
    pub(crate) fn open(
        rt: &R,
        alloc: Global,
        views: bool,
        count: usize,
    ) -> Result<(WorkEnds<R>, OtherEnds), AllocError>
        ensures count { IfOk result (λ b. vec_len b.0.keeps ≡ count) }
        ensures fresh { IfOk result (λ b. All IsFreshKeep b.0.keeps.items) }
        ensures tables { IfOk result (λ b.
            map (λ k. k.origin) b.0.keeps.items ≡ tables_of b.1.sweepers.items) }
        ensures publishers { IfOk result (λ b. ArePublishers views count b.0.publishers.items) }
        ensures works { IfOk result (λ b.
            (b.0.works.items ≡ []) × (count ≤ vec_capacity b.0.works)) }
    {
        let (keeps, sweepers) = open_tables(alloc, count)?;
        let (publishers, viewers) = open_where_told(rt, alloc, views, count)?;
        match Vec::with_capacity(alloc, count) {
            Ok(works) => Ok((
                WorkEnds {
                    keeps,
                    publishers,
                    works,
                },
                OtherEnds { sweepers, viewers },
            )),
            Err(error) => {
                end_all(rt, publishers);
                Err(error)
            }
        }
    }
}

/// A work for each berth, in order, with the parts that come next. The emptied list of berths comes back beside them.
pub(crate) fn make_works<R: Wait>(
    rt: &R,
    alloc: Global,
    options: WaveOptions,
    makes_text: bool,
    ends: WorkEnds<R>,
    berths: Vec<Berth<R>>,
    parts: &mut VecDeque<Part>,
) -> (Vec<Work<R>>, Vec<Berth<R>>)
    requires none { ends.works.items ≡ [] }
    requires room { vec_len berths ≤ vec_capacity ends.works }
    requires few { vec_len berths ≤ MOST_OBJECTS }
    requires shape { IsShape options.shape }
    requires runnable { All IsRunnable parts.old.items }
    requires lined { StandInLine parts.old.items
        (map ⟦<Berth<R> as Supply>⟧.quota_of berths.items) }
    requires can_take { All CanTakeBerth berths.items }
    requires keeps { vec_len ends.keeps ≡ vec_len berths }
    requires fresh { All IsFreshKeep ends.keeps.items }
    requires publishers { ArePublishers options.report.views (vec_len berths)
        ends.publishers.items }
    ensures made { TakesParts options makes_text
        parts.old.items parts.new.items (map origin_of result.0.items) }
    ensures places { ArePlaced berths.items ends.keeps.items (map origin_of result.0.items) }
    ensures none { result.1.items ≡ [] }
    ensures room { vec_capacity result.1 ≡ vec_capacity berths }
{
    let WorkEnds {
        keeps,
        mut publishers,
        mut works,
    } = ends;
    let mut berths = VecDeque::from_vec(berths);
    let mut keeps = VecDeque::from_vec(keeps);
    while let Some(berth) = berths.pop_front() {
        let Some(Part { decl, commands }) = parts.pop_front() else {
            unreachable!();
        };
        let Some(keep) = keeps.pop_front() else {
            unreachable!();
        };
        let spec = WorkSpec {
            alloc,
            number: works.len() as u32,
            name: decl.name,
            version: options.report.version,
            commands,
            quantum: options.shape.quantum,
            makes_text,
        };
        works.push_reserved(Work::new(rt, spec, berth, keep, publishers.pop()));
    }
    publishers.destroy_empty();
    (works, berths.into_vec())
}
