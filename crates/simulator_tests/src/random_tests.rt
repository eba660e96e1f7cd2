//! The generator of random numbers of all models (`warp_models`), beside what is published of it.
use warp_models::CellState;

/// The first numbers of SplitMix64 from 0, as they are published. A cell draws them.
#[test]
fn first_numbers(rt: HostRuntime) {
    let mut state = CellState::new(rt.alloc(), 0);
    assert_eq!(rt; state.draw(u64::MAX), 0xe220a8397b1dcdaf);
    assert_eq!(rt; state.draw(u64::MAX), 0x6e789e6aa1b965f4);
}
