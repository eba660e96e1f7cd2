//! The views of a wave, where they are told.
ghost use Rattle.std.specs.Prelude.{◌≡◌, [], IfOk, vec_len, All};
ghost use Rattle.dym_wave.specs.WorkLists.{ArePublishers};

use dym_view::{Publisher, Viewer, open_view};
use std::alloc::{AllocError, Global};
use std::sync::Wait;

/// So many histories with no commit where views are told, and none elsewhere: their publishers and their viewers, in one order.
pub(crate) fn open_where_told<R: Wait>(
    rt: &R,
    alloc: Global,
    views: bool,
    count: usize,
) -> Result<(Vec<Publisher>, Vec<Viewer>), AllocError>
    ensures publishers { IfOk result (λ v. ArePublishers views count v.0.items) }
    ensures viewers { IfOk result (λ v. v.1.items ≡ v.0.items) }
{
    if views {
        open_views(rt, alloc, count)
    } else {
        Ok((Vec::new(alloc), Vec::new(alloc)))
    }
}

/// So many histories with no commit: their publishers and their viewers, in one order.
fn open_views<R: Wait>(
    rt: &R,
    alloc: Global,
    count: usize,
) -> Result<(Vec<Publisher>, Vec<Viewer>), AllocError>
    ensures count { IfOk result (λ v. vec_len v.0 ≡ count) }
    ensures empty { IfOk result (λ v. All (λ p. p.commits ≡ []) v.0.items) }
    ensures viewers { IfOk result (λ v. v.1.items ≡ v.0.items) }
{
    let mut viewers = Vec::with_capacity(alloc, count)?;
    let mut publishers = Vec::with_capacity(alloc, count)?;
    for _ in 0..count {
        match open_view(rt, alloc) {
            Ok((publisher, viewer)) => {
                publishers.push_reserved(publisher);
                viewers.push_reserved(viewer);
            }
            Err(error) => {
                end_all(rt, publishers);
                return Err(error);
            }
        }
    }
    Ok((publishers, viewers))
}

/// Gives publishers up.
pub(crate) fn end_all<R: Wait>(rt: &R, mut publishers: Vec<Publisher>) {
    while let Some(publisher) = publishers.pop() {
        publisher.end(rt);
    }
    publishers.destroy_empty();
}
