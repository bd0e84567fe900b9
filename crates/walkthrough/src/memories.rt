// A byte buffer is lent as a memory, and its words are zeroed, set and read back.
use fault::Fault;
use memory::{Bytes, BytesView, Readable, Writable};
use std::io;

// The words of one semispace of the small example heap.
const SPACE: usize = 8;

pub(crate) fn clear_spaces(rt: &HostRuntime, bytes: &mut [u8]) -> io::Result<()> {
    let count = bytes.len();
    let mut memory = Bytes { bytes };
    let words = memory.len();
    println!(rt; "memory: {count} bytes are lent, four to a word: {words} words")?;
    match memory::zero(&mut memory, 2 * SPACE) {
        Ok(()) => println!(rt;
            "memory: places 0 to {} zeroed, two spaces of {SPACE} words",
            2 * SPACE - 1
        ),
        Err(fault) => println!(rt; "memory: {fault}"),
    }
}

fn set_word(rt: &HostRuntime, memory: &mut Bytes, place: usize, value: u32) -> io::Result<()> {
    match memory.set(place, value) {
        Ok(()) => println!(rt; "memory: word {place} set to {value}"),
        Err(fault) => println!(rt; "memory: word {place} not set, {fault}"),
    }
}

pub(crate) fn set_words(rt: &HostRuntime, bytes: &mut [u8]) -> io::Result<()> {
    let mut memory = Bytes { bytes };
    set_word(rt, &mut memory, 0, 7)?;
    set_word(rt, &mut memory, 15, u32::MAX)?;
    set_word(rt, &mut memory, 16, 1)
}

fn show_word(rt: &HostRuntime, place: usize, word: Result<u32, Fault>) -> io::Result<()> {
    match word {
        Ok(value) => println!(rt; "memory: word {place} reads {value}"),
        Err(fault) => println!(rt; "memory: word {place} not read, {fault}"),
    }
}

pub(crate) fn read_back(rt: &HostRuntime, bytes: &[u8]) -> io::Result<()> {
    let memory = BytesView { bytes };
    show_word(rt, 0, memory.word(0))?;
    show_word(rt, 1, memory.word(1))?;
    show_word(rt, 15, memory.word(15))?;
    show_word(rt, 16, memory.word(16))?;
    match bytes.last() {
        Some(last) => println!(rt;
            "memory: the last byte, which belongs to no word, is still {last}"
        ),
        None => Ok(()),
    }
}
