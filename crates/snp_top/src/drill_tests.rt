//! Commands that a number determines.
use crate::batch::snp_batch;
use outside_port::{MemorySink, MemorySource};
use std::alloc::Global;
use std::test::Fail;

// The status of the command that these words name, with an empty source.
fn batch(alloc: Global, words: &[&str], sink: &mut MemorySink) -> Result<u8, Fail> {
    let mut named = Vec::new(alloc);
    for word in words {
        named.push(String::from_str(alloc, word)?)?;
    }
    let mut source = MemorySource::over(Vec::new(alloc), 7, Vec::new(alloc));
    Ok(snp_batch(alloc, &named, &mut source, sink))
}

// A number is one word in base 10 without leading zeros, below 2^64.
#[test]
fn words_without_a_number(rt: HostRuntime) -> Result<(), Fail> {
    let alloc = rt.alloc();
    for words in [
        ["gen"].as_slice(),
        ["drill"].as_slice(),
        ["drill", "07"].as_slice(),
        ["drill", "x"].as_slice(),
        ["gen", "0x7"].as_slice(),
        ["gen", ""].as_slice(),
        ["gen", "18446744073709551616"].as_slice(),
        ["gen", "7", "7"].as_slice(),
        ["measure", "7"].as_slice(),
        ["7", "drill"].as_slice(),
    ] {
        let mut sink = MemorySink::with_room(alloc, 100, Vec::new(alloc))?;
        assert_eq!(rt; batch(alloc, words, &mut sink)?, 2);
        assert!(rt; sink.bytes() == b"error words\n".as_slice());
    }
    Ok(())
}

// A sink without room for the lines of a drill, or for the text of a scenario.
#[test]
fn numbers_and_full_sinks(rt: HostRuntime) -> Result<(), Fail> {
    let alloc = rt.alloc();
    for words in [["drill", "7"], ["gen", "18446744073709551615"]] {
        let mut sink = MemorySink::with_room(alloc, 0, Vec::new(alloc))?;
        assert_eq!(rt; batch(alloc, words.as_slice(), &mut sink)?, 6);
    }
    Ok(())
}

// A drill tells the same each time.
#[test]
fn drills(rt: HostRuntime) -> Result<(), Fail> {
    let alloc = rt.alloc();
    let mut first = MemorySink::with_room(alloc, 300, Vec::new(alloc))?;
    let mut second = MemorySink::with_room(alloc, 300, Vec::new(alloc))?;
    assert_eq!(rt; batch(alloc, &["drill", "7"], &mut first)?, 0);
    assert_eq!(rt; batch(alloc, &["drill", "7"], &mut second)?, 0);
    assert!(rt; first.bytes() == second.bytes());
    assert!(rt; first.bytes().starts_with(b"drill 7\nevents "));
    Ok(())
}
