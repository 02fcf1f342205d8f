//! Calls that take memory answer where there is memory.
use qs_base::{Bytes, Copied, List, copy_list};
use std::alloc::Global;
use std::test::Fail;

#[test]
fn what_takes_memory_answers(rt: HostRuntime) -> Result<(), Fail> {
    let words = words_of(rt.alloc())?;
    assert!(rt; words.copy()? == words);
    assert!(rt; copy_list(rt.alloc(), words.as_slice())? == words);
    Ok(())
}

fn words_of(alloc: Global) -> Result<List<Bytes>, Fail> {
    let mut words = List::new(alloc);
    for text in [b"ab", b"bb"] {
        let mut word = Bytes::from_slice(alloc, text)?;
        word.append(b"c")?;
        words.push(word)?;
    }
    Ok(words)
}

#[test]
fn bytes_are_added_behind(rt: HostRuntime) -> Result<(), Fail> {
    let mut word = Bytes::from_slice(rt.alloc(), b"ab")?;
    word.append(b"c")?;
    assert!(rt; word.copy()?.as_slice() == b"abc".as_slice());
    Ok(())
}
