//! A failing first read, texts longer than their limit, pieces of a sink, and a full sink.
use qs_io::{
    MemSink, MemSource, ReadFailed, ReadFault, Sink, Source, StdSink, StdSource, WriteFailed,
    give_all, read_text,
};
use std::test::Fail;

#[test]
fn a_failing_first_read_loses_nothing(rt: HostRuntime) -> Result<(), Fail> {
    let mut source = MemSource::new(rt.alloc(), b"abc", &[1])?;
    for (answer, taken) in [
        (Err(ReadFailed), b"".as_slice()),
        (Ok(2), b"ab".as_slice()),
        (Ok(1), b"c".as_slice()),
        (Ok(0), b"".as_slice()),
    ] {
        let mut buf = [0; 2];
        assert!(rt; source.take(&mut buf) == answer);
        assert!(rt; buf.starts_with(taken));
    }
    Ok(())
}

#[test]
fn texts_are_read_to_their_limits(rt: HostRuntime) -> Result<(), Fail> {
    let mut again = MemSource::new(rt.alloc(), b"abc", &[1])?;
    assert!(rt; read_text(rt.alloc(), &mut again, 8).err() == Some(ReadFault::Failed));
    assert!(rt; read_text(rt.alloc(), &mut again, 8)?.as_slice() == b"abc".as_slice());
    drop(again);
    let mut parts = MemSource::new(rt.alloc(), b"abcdef", &[])?;
    for part in [b"abcd".as_slice(), b"ef".as_slice(), b"".as_slice()] {
        assert!(rt; read_text(rt.alloc(), &mut parts, 3)?.as_slice() == part);
    }
    drop(parts);
    let text = b"some text".as_slice();
    assert!(rt; read_text(rt.alloc(), &mut StdSource::new(text), 64)?.as_slice() == text);
    Ok(())
}

#[test]
fn texts_are_given_in_pieces(rt: HostRuntime) -> Result<(), Fail> {
    let text = b"The first 16 are given, no others".as_slice();
    let front = b"The first 16 are".as_slice();
    for (fail, answer, given) in [
        ([2].as_slice(), Err(WriteFailed), front),
        ([].as_slice(), Ok(()), text),
    ] {
        let mut sink = MemSink::new(rt.alloc(), 1_048_576, 16, fail)?;
        assert!(rt; give_all(&mut sink, text) == answer);
        assert!(rt; sink.given() == given);
    }
    let mut full = MemSink::new(rt.alloc(), 3, 16, &[])?;
    assert!(rt; full.give(b"abcd") == Ok(3));
    assert!(rt; full.give(b"") == Ok(0));
    assert!(rt; full.give(b"d") == Err(WriteFailed));
    assert!(rt; full.given() == b"abc".as_slice());
    drop(full);

    let mut room = [0; 4];
    let mut sink = StdSink::new(room.as_mut_slice());
    assert!(rt; give_all(&mut sink, text) == Err(WriteFailed));
    Ok(())
}
