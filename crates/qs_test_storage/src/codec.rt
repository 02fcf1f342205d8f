//! Fields whose bytes were worked out by hand, each fault at its place, and a list of fields read
//! again.
use qs_base::List;
use qs_codec::{CodecFault, Reader, put_text, put_u8, put_u32, put_u64};
use std::test::Fail;

// 7; 258; 2^40 + 3; 2^61; "f!".
const FIELDS: [u8; 27] = [
    7, 0, 0, 1, 2, 0, 0, 1, 0, 0, 0, 0, 3, 0x20, 0, 0, 0, 0, 0, 0, 0, 0, 0, 0, 2, 102, 33,
];

#[test]
fn fields_are_read_and_written(rt: HostRuntime) -> Result<(), Fail> {
    let mut reader = Reader::new(&FIELDS);
    assert!(rt; reader.left() == 27);
    assert!(rt; reader.u8()? == 7 && reader.u32()? == 258);
    assert!(rt; reader.u64()? == 1_099_511_627_779);
    assert!(rt; reader.number()? == 2_305_843_009_213_693_952);
    assert!(rt; reader.text(2)? == b"f!".as_slice() && reader.left() == 0);

    let mut out = List::new(rt.alloc());
    put_fields(&mut out)?;
    assert!(rt; out.as_slice() == FIELDS.as_slice());
    Ok(())
}

fn put_fields(out: &mut List<u8>) -> Result<(), Fail> {
    put_u8(out, 7)?;
    put_u32(out, 258)?;
    put_u64(out, 1_099_511_627_779)?;
    put_u64(out, 2_305_843_009_213_693_952)?;
    put_text(out, b"f!")?;
    Ok(())
}

#[test]
fn faults_are_told_at_their_places(rt: HostRuntime) -> Result<(), Fail> {
    let mut reader = Reader::new(&[9, 0, 0, 0]);
    assert!(rt; reader.u8()? == 9);
    assert!(rt; reader.u32() == Err(CodecFault::Short { at: 1, need: 4 }));
    assert!(rt; reader.u64() == Err(CodecFault::Short { at: 1, need: 8 }));
    assert!(rt; reader.text(8) == Err(CodecFault::Short { at: 1, need: 4 }));
    assert!(rt; reader.left() == 3);

    let mut great = Reader::new(&[0x40, 0, 0, 0, 0, 0, 0, 0]);
    assert!(rt; great.number() == Err(CodecFault::BadNumber { at: 0 }));
    assert!(rt; great.u64()? == 4_611_686_018_427_387_904);
    assert!(rt; great.u8() == Err(CodecFault::Short { at: 8, need: 1 }));
    Ok(())
}

#[test]
fn texts_are_refused_at_their_first_fault(rt: HostRuntime) -> Result<(), Fail> {
    let mut cut = Reader::new(&[7, 0, 0, 0, 5, 104, 101, 108, 108]);
    assert!(rt; cut.u8()? == 7);
    assert!(rt; cut.text(5) == Err(CodecFault::Short { at: 5, need: 5 }));
    assert!(rt; cut.text(4) == Err(CodecFault::TooLong { at: 1, length: 5 }));
    assert!(rt; cut.left() == 8);

    for (byte, is_text) in [(31, false), (32, true), (126, true), (127, false)] {
        let bytes = [0, 0, 0, 2, 65, byte];
        let mut reader = Reader::new(&bytes);
        match reader.text(2) {
            Ok(text) => assert!(rt; (is_text, text.len()) == (true, 2)),
            Err(fault) => assert!(rt; (is_text, fault) == (false, CodecFault::BadText { at: 5 })),
        }
    }
    Ok(())
}
