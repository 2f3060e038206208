//! What a hypervisor may try at a guest's page, and the answer to it.
use crate::judging::{Verdict, judge};
use outside_port::{MemorySink, MemorySource};
use snp_top::batch::snp_batch;
use snp_top::replay::{read, run};
use std::alloc::{AllocError, Global};
use std::test::Fail;

// Guest 1 opens with page 0, which is frame 8, and the nested tables of its processor are frames 1 to 4. A row's own guests stand
// behind the first front, its pages behind the second, and its items and further actors behind the third.
const FRONT: &str = "snp 1
regions 1
guest 1 opened asid 1 iv 0 key 0000000000000000000000000000000000000000000000000000000000000000
";

const PAGE: &str = "page 8 of 1 at 0 4k valid 0 0 0\n";

const TABLES: &str = "word 1 0 0x2007
word 2 0 0x3007
word 3 0 0x4007
word 4 0 0x8007
actor 1 cpu 1 vmpl 0 npt 1 flat
";

const GUEST_2: &str =
    "guest 2 opened asid 2 iv 0 key 0000000000000000000000000000000000000000000000000000000000000000\n";

// A scenario's text.
fn text_of(alloc: Global, guests: &str, pages: &str, script: &str) -> Result<Vec<u8>, AllocError> {
    let mut text = Vec::new(alloc);
    for part in [FRONT, guests, PAGE, pages, TABLES, script] {
        text.extend_from_slice(part.as_bytes())?;
    }
    Ok(text)
}

// The status of `replay` over a text, and its report.
fn report_of(alloc: Global, text: Vec<u8>) -> Result<(u8, MemorySink), AllocError> {
    let words = vec![in alloc; String::from_str(alloc, "replay")?]?;
    let mut source = MemorySource::over(text, 4096, Vec::new(alloc));
    let mut sink = MemorySink::with_room(alloc, 8192, Vec::new(alloc))?;
    let status = snp_batch(alloc, &words, &mut source, &mut sink);
    Ok((status, sink))
}

// Whether a text has a line.
fn has_line(text: &[u8], line: &str) -> bool {
    text.split(|byte| *byte == b'\n')
        .any(|other| other == line.as_bytes())
}

// Whether each guest's memory says of its own events in a replay what it should.
fn are_all(alloc: Global, text: Vec<u8>, verdict: Verdict) -> Result<bool, AllocError> {
    let mut source = MemorySource::over(text, 4096, Vec::new(alloc));
    let Ok(scenario) = read(alloc, &mut source) else {
        return Ok(false);
    };
    let Ok(played) = run(alloc, &scenario) else {
        return Ok(false);
    };
    let guests = judge(alloc, &scenario, &played)?;
    Ok(guests.iter().all(|watched| watched.verdict == verdict))
}

// Six attacks of a hypervisor on a guest's pages, each with lines of its report, while each guest's private accesses are legal in a
// memory of its own.
#[test]
fn attacks(rt: HostRuntime) -> Result<(), Fail> {
    for (guests, pages, script, lines) in [
        // A nested table in a page of the guest: the walk finds no entry there.
        (
            "",
            "",
            "load 0x10\nactor 2 host\nrmpupdate 4 4k 1 1 9 0\norder 2*2 1*5\nend\n",
            [
                "1 2 0.0 commit 4 0x9 4k rc 0",
                "6 1 0.0 npt 4:0 0x0 npf 0x500000004",
                "end 7",
            ],
        ),
        // An update of a page that firmware moves: it is in use.
        (
            "",
            "",
            "actor 2 host\nrmpupdate 8 4k 1 1 0 1\nrmpupdate 9 4k 1 1 0 1\nrmpupdate 8 4k 0 0 0 0\nactor 3 fw\npage_move 1 8 9\norder 2*4 3*2 2 3*2\nend\n",
            [
                "5 3 0.0 lock 8",
                "6 2 2.0 lock 8 rc 3 by 3",
                "8 3 0.0 commit 9 0x0 4k fw 0x0",
            ],
        ),
        // A second frame for one page: it isn't validated.
        (
            "",
            "",
            "load 0x10\nactor 2 host\nrmpupdate 9 4k 1 1 0 0\nstore 0x4000 0x9007\norder 2*3 1*6\nend\n",
            [
                "1 2 0.0 commit 9 0x0 4k rc 0",
                "8 1 0.0 data 0x0:2 9 p vc 0x404",
                "end 9",
            ],
        ),
        // A page of another guest: it has another ASID.
        (
            GUEST_2,
            "page 20 of 2 at 0 4k valid 0 0 0\n",
            "load 0x10\nactor 2 host\nstore 0x4000 0x14007\norder 2 1*6\nend\n",
            [
                "0 2 0.0 host 4:0 store",
                "6 1 0.0 data 0x0:2 20 p npf 0x580000005",
                "end 7",
            ],
        ),
        // The ciphertext of one entry under another: it has another tag.
        (
            "",
            "page 13 of 1 at 1 4k valid 0 0 0\n",
            "actor 2 host\nrmpupdate 8 4k 1 1 0 1\nrmpupdate 13 4k 1 1 1 1\nrmpupdate 10 4k 1 0 0 1\nrmpupdate 9 4k 1 1 0 1\nactor 3 fw\nmd_init 10\nswap_out 1 8 11 10 0\nswap_out 1 13 14 10 1\nswap_in 1 11 9 10 1\norder 2*8 3*19\nend\n",
            [
                "21 3 2.0 commit 13 0x1 4k fw 0x0",
                "26 3 3.0 compute fw 0xb found 2004cfb0d6254703ba49ba820d2c8d5d kept f790669b2e5a5d3eb76efc3f3c1bd5b2",
                "end 27",
            ],
        ),
        // An old ciphertext under a newer entry: it has another tag.
        (
            "",
            "",
            "actor 2 host\nrmpupdate 8 4k 1 1 0 1\nrmpupdate 10 4k 1 0 0 1\nrmpupdate 9 4k 1 1 0 1\nrmpupdate 13 4k 1 1 0 1\nactor 3 fw\nmd_init 10\nswap_out 1 8 11 10 0\nswap_in 1 11 9 10 0\nswap_out 1 9 12 10 0\nswap_in 1 11 13 10 0\norder 2*8 3*25\nend\n",
            [
                "21 3 2.0 commit 9 0x0 4k fw 0x0",
                "32 3 4.0 compute fw 0xb found 01df71386b86b5274daef9d757d66df6 kept d64bd81393f9af1a4089bf6a66e13519",
                "end 33",
            ],
        ),
    ] {
        let alloc = rt.alloc();
        let text = text_of(alloc, guests, pages, script)?;
        let (status, report) = report_of(alloc, text)?;
        assert_eq!(rt; status, 0, "{script}");
        for line in lines {
            assert!(rt; has_line(report.bytes(), line), "{line}");
        }
        let text = text_of(alloc, guests, pages, script)?;
        assert!(rt; are_all(alloc, text, Verdict::Legal)?, "{script}");
    }
    Ok(())
}

// A guest that validates the page which it holds, whose frame is another one by now, relies on less from there on.
#[test]
fn validation_of_a_held_page(rt: HostRuntime) -> Result<(), Fail> {
    let alloc = rt.alloc();
    let text = text_of(
        alloc,
        "",
        "",
        "load 0x10\npvalidate 0 4k 1\nload 0x10\nactor 2 host\nrmpupdate 9 4k 1 1 0 0\nstore 0x4000 0x9007\norder 1*6 2*3 1*13\nend\n",
    )?;
    let verdict = Verdict::Undisciplined { event: 15 };
    assert!(rt; are_all(alloc, text, verdict)?);
    Ok(())
}
