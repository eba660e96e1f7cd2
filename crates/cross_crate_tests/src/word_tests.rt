//! The words of a command line as orders (`dym_words`).
use dym_words::{Input, Order, read_words};
use std::alloc::{AllocError, Global};

fn order_of(alloc: Global, text: &str) -> Result<Option<Order>, AllocError> {
    let mut words = Vec::new(alloc);
    for word in text.split_whitespace() {
        words.push(String::from_str(alloc, word)?)?;
    }
    Ok(read_words(&words).ok())
}

#[test]
fn each_form_is_an_order(rt: HostRuntime) -> Result<(), AllocError> {
    let plain = order_of(rt.alloc(), "plain --gen 7 3 40 --summary")?;
    assert!(rt;
        matches!(
            plain,
            Some(Order::Plain {
                input: Input::Made {
                    seed: 7,
                    objects: 3,
                    commands: 40
                },
                summary: true,
            })
        )
    );
    let run = order_of(rt.alloc(), "run --quantum 1 --workers 04")?;
    assert!(rt;
        matches!(
            run,
            Some(Order::Run {
                workers: 4,
                segments: 1024,
                quantum: 1,
                input: Input::Script,
                summary: false,
            })
        )
    );
    let views = order_of(rt.alloc(), "views --segments 00000000000000016384")?;
    assert!(rt;
        matches!(
            views,
            Some(Order::Views {
                workers: 4,
                segments: 16_384,
                quantum: 64
            })
        )
    );
    let made = order_of(rt.alloc(), "gen 18446744073709551615 4096 200000")?;
    assert!(rt;
        matches!(
            made,
            Some(Order::Gen {
                seed: u64::MAX,
                objects: 4096,
                commands: 200_000
            })
        )
    );
    let load = order_of(rt.alloc(), "load 5")?;
    assert!(rt; matches!(load, Some(Order::Load { time: Some(5) })));
    Ok(())
}

#[test]
fn words_of_no_form_are_usage(rt: HostRuntime) -> Result<(), AllocError> {
    let cases = [
        "",
        "--help",
        "plain script",
        "plain --summary --summary",
        "plain --workers 4",
        "run --workers 65",
        "run --workers",
        "run --workers=4",
        "run --quantum 000000000000000000001",
        "run -- --summary",
        "check --summary",
        "gen 7 3",
        "gen 7 0 40",
        "gen +7 3 40",
        "gen 7 3 200001",
        "save object",
        "load 5 5",
        "load 18446744073709551616",
    ];
    for case in cases {
        assert!(rt; order_of(rt.alloc(), case)?.is_none());
    }
    Ok(())
}
