// The pieces in which a text goes to a sink.
use crate::sinks::Narrow;
use cov_base::{Failed, MemorySink, Pieces, Sink, SureSink};
use std::alloc::Global;
use std::test::Fail;

// Puts four bytes, so many times.
fn put_lines<S: Sink>(alloc: Global, sink: &mut S, count: usize) -> Result<(), Failed> {
    let mut pieces = Pieces::new(alloc)?;
    for _ in 0..count {
        pieces.put(sink, b"abc\n")?;
    }
    pieces.finish(sink)
}

// What a sink has taken of so many lines whose write of this number fails, and whether it did.
fn cut_off(alloc: Global, count: usize, number: u64) -> Result<(usize, bool), Fail> {
    let mut sink = MemorySink::new(alloc, Vec::from_slice(alloc, &[number])?)?;
    let failed = put_lines(alloc, &mut sink, count).is_err();
    Ok((sink.taken().len(), failed))
}

#[test]
fn all_pieces_but_the_last_have_4096_bytes(rt: HostRuntime) -> Result<(), Fail> {
    assert_eq!(rt; cut_off(rt.alloc(), 2250, 1)?, (0, true));
    assert_eq!(rt; cut_off(rt.alloc(), 2250, 2)?, (4096, true));
    assert_eq!(rt; cut_off(rt.alloc(), 2250, 3)?, (8192, true));
    assert_eq!(rt;
        cut_off(rt.alloc(), 2250, 4)?,
        (9000, false),
        "the last has 808"
    );
    assert_eq!(rt;
        cut_off(rt.alloc(), 2048, 2)?,
        (4096, true),
        "a whole one at the end"
    );
    assert_eq!(rt;
        cut_off(rt.alloc(), 2048, 3)?,
        (8192, false),
        "and none after it"
    );
    assert_eq!(rt; cut_off(rt.alloc(), 0, 1)?, (0, false), "none of nothing");
    Ok(())
}

// What a sink that takes so many bytes at most at a time has taken of 2,250 lines.
fn narrowed(alloc: Global, most: usize) -> Result<usize, Fail> {
    let mut narrow = Narrow::new(SureSink::new(alloc)?, most);
    let _ = put_lines(alloc, &mut narrow, 2250);
    Ok(narrow.taken().len())
}

#[test]
fn a_sink_may_take_a_part_of_a_piece(rt: HostRuntime) -> Result<(), Fail> {
    assert_eq!(rt; narrowed(rt.alloc(), 1)?, 9000);
    assert_eq!(rt; narrowed(rt.alloc(), 4095)?, 9000);
    assert_eq!(rt; narrowed(rt.alloc(), 4096)?, 9000);
    assert_eq!(rt; narrowed(rt.alloc(), 4097)?, 9000);
    Ok(())
}
