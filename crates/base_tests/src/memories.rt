use fault::Fault;
use memory::{Bytes, BytesView, Readable, Words, Writable};
use std::test::Fail;

// The place of a refusal with number 1 by the memory, or none.
fn past_end<T: Drop>(r: Result<T, Fault>) -> Option<usize> {
    r.err()
        .filter(|fault| fault.number() == 1 && fault.layer_name() == "memory")
        .map(|fault| fault.place_number())
}

#[test]
fn words_at_the_edges(rt: HostRuntime) -> Result<(), Fail> {
    let mut none = [0u32; 0];
    let mut empty = Words { words: &mut none };
    assert_eq!(rt; empty.len(), 0);
    assert_eq!(rt; past_end(empty.word(0)), Some(0));
    assert_eq!(rt; past_end(empty.set(0, 1)), Some(0));
    let mut words = [1u32, 2, 3];
    let mut memory = Words { words: &mut words };
    memory.set(2, u32::MAX)?;
    assert_eq!(rt; memory.word(2)?, u32::MAX);
    assert_eq!(rt; memory.word(1)?, 2);
    assert_eq!(rt; past_end(memory.set(3, 9)), Some(3));
    assert_eq!(rt; past_end(memory.word(usize::MAX)), Some(usize::MAX));
    Ok(())
}

#[test]
fn bytes_of_every_remainder(rt: HostRuntime) -> Result<(), Fail> {
    let bytes = [0u8, 1, 2, 3, 255, 254, 253, 252, 9, 9, 9];
    for len in 0..bytes.len() {
        let view = BytesView {
            bytes: &bytes[0..len],
        };
        assert_eq!(rt; view.len(), len / 4);
        assert_eq!(rt; past_end(view.word(len / 4)), Some(len / 4));
    }
    let view = BytesView { bytes: &bytes };
    assert_eq!(rt; view.word(0)?, 0x0001_0203);
    assert_eq!(rt; view.word(1)?, 0xfffe_fdfc);
    Ok(())
}

#[test]
fn bytes_are_set_most_significant_first(rt: HostRuntime) -> Result<(), Fail> {
    let mut bytes = [7u8; 11];
    let mut memory = Bytes { bytes: &mut bytes };
    memory.set(1, 0x0102_0304)?;
    assert_eq!(rt; memory.word(1)?, 0x0102_0304);
    assert_eq!(rt; past_end(memory.set(2, 0)), Some(2));
    assert_eq!(rt; bytes, [7, 7, 7, 7, 1, 2, 3, 4, 7, 7, 7]);
    Ok(())
}

#[test]
fn zeroing_stops_at_the_end(rt: HostRuntime) -> Result<(), Fail> {
    let mut words = [5u32; 4];
    memory::zero(&mut Words { words: &mut words }, 3)?;
    assert_eq!(rt; words, [0, 0, 0, 5]);
    assert_eq!(rt;
        past_end(memory::zero(&mut Words { words: &mut words }, 6)),
        Some(4)
    );
    assert_eq!(rt; words, [0, 0, 0, 0]);
    Ok(())
}
