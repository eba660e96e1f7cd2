//! How objects are put together into waves.
ghost use Rattle.std.specs.Prelude.{◌<◌, ◌≤◌, length, All};
ghost use Rattle.dym_quota.specs.Waves.{IsLongestRun};

/// The end of the longest run of objects from `from` on whose quotas sum to at most `segments`. It has at least one object.
pub fn waves(quotas: &[u32], segments: u32, from: usize) -> usize
    requires inside { from < length quotas.now }
    requires each_fits { All (λ q. q ≤ segments) quotas.now }
    ensures longest { IsLongestRun quotas.now segments from result }
    ensures some { from < result }
{
    let mut end = from;
    let mut left = segments;
    while end < quotas.len() && quotas[end] <= left {
        left -= quotas[end];
        end += 1;
    }
    end
}
