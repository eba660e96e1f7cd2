//! What quotas ask for.
ghost use Rattle.std.specs.Prelude.{◌≡◌, ℕ, ◌≤◌, IfOk, map, sum, All};
ghost use Rattle.dym_wave.specs.Parts.{quota_of, IsSumOfRun};

use dym_quota::waves;
use dym_script::Part;
use std::alloc::{AllocError, Global};

/// The quotas of objects, in their order.
pub(crate) fn quotas_of(alloc: Global, parts: &[Part]) -> Result<Vec<u32>, AllocError>
    ensures { IfOk result (λ quotas. quotas.items ≡ map quota_of parts.now) }
{
    let mut quotas = Vec::with_capacity(alloc, parts.len())?;
    for part in parts {
        quotas.push_reserved(part.decl.quota);
    }
    Ok(quotas)
}

/// The segments that the largest wave needs. No wave needs more, so that the waves by this number are those by `segments`.
pub(crate) fn largest_wave(quotas: &[u32], segments: u32) -> u32
    requires { All (λ q. q ≤ segments) quotas.now }
    ensures enough { All (λ q. q ≤ result) quotas.now }
    ensures most { result ≤ segments }
    ensures needed { IsSumOfRun quotas.now result }
{
    let mut largest = 0;
    let mut from = 0;
    while from < quotas.len() {
        let end = waves(quotas, segments, from);
        largest = greater(largest, sum_of(&quotas[from..end], segments));
        from = end;
    }
    largest
}

/// What quotas sum to.
fn sum_of(quotas: &[u32], most: u32) -> u32
    requires { sum quotas.now ≤ most }
    ensures { result ≡ sum quotas.now }
{
    quotas.iter().sum()
}

/// The greater of two numbers.
fn greater(one: u32, other: u32) -> u32
    ensures one { one ≤ result }
    ensures other { other ≤ result }
    ensures least { (most : ℕ) → one ≤ most → other ≤ most → result ≤ most }
{
    if one < other { other } else { one }
}
