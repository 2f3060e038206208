//! Writers that fail under a report, and behind it.
use crate::session::answer;
use outside_port::{MemorySource, OpenGate, WriterSink};
use snp_top::locked_fleet::LockedFleet;
use std::io::{self, BufWriter, ErrorKind, Write};
use std::test::Fail;

// A writer that takes all, or nothing, and that may fail.
#[derive(Clone, Copy)]
enum Trouble {
    Nowhere,
    Full,
    AtWrites,
    AtTheFlush,
}

#[derive(Drop)]
struct Troubled(Trouble);

impl Write for Troubled {
    fn write(&mut self, buf: &[u8]) -> io::Result<usize> {
        match self.0 {
            Trouble::Nowhere | Trouble::AtTheFlush => Ok(buf.len()),
            Trouble::Full => Ok(0),
            Trouble::AtWrites => Err(io::Error::from(ErrorKind::StorageFull)),
        }
    }

    fn flush(&mut self) -> io::Result<()> {
        match self.0 {
            Trouble::Nowhere | Trouble::Full | Trouble::AtWrites => Ok(()),
            Trouble::AtTheFlush => Err(io::Error::from(ErrorKind::StorageFull)),
        }
    }
}

const EMPTY: &str = "snp 1\nregions 1\nend\n";

// The status of a command over a writer behind a buffer that holds the whole output: 6 where the report can't be handed
// on at the end; the status of an error stays.
#[test]
fn writers_that_fail(rt: HostRuntime) -> Result<(), Fail> {
    let alloc = rt.alloc();
    for (word, text, trouble, status) in [
        ("replay", EMPTY, Trouble::Nowhere, 0),
        ("replay", EMPTY, Trouble::AtTheFlush, 6),
        ("replay", EMPTY, Trouble::AtWrites, 6),
        ("replay", EMPTY, Trouble::Full, 6),
        ("run", EMPTY, Trouble::Nowhere, 0),
        ("run", EMPTY, Trouble::AtTheFlush, 6),
        ("replay", "snp 1\n", Trouble::AtTheFlush, 3),
        ("play", EMPTY, Trouble::AtTheFlush, 2),
    ] {
        let words = vec![in alloc; String::from_str(alloc, word)?]?;
        let mut source = MemorySource::over(
            Vec::from_slice(alloc, text.as_bytes())?,
            4096,
            Vec::new(alloc),
        );
        let mut fleet = LockedFleet::new();
        let mut sink = WriterSink::new(BufWriter::with_capacity(alloc, 65_536, Troubled(trouble))?);
        assert_eq!(rt;
            answer(
                &rt,
                alloc,
                &words,
                &mut source,
                &mut sink,
                &OpenGate,
                &mut fleet
            ),
            status,
            "{word} {status}"
        );
    }
    Ok(())
}
