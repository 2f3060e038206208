use crate::tests::{WHOLE, is_whole};
use crate::{read_scenario, write_scenario};
use outside_port::{MemorySink, SinkFault};
use snp_model::Scenario;
use std::alloc::{AllocError, Global};
use std::test::Fail;

// How the text with a line of each form is written.
const WRITTEN: &str =
    "snp 2\nregions 2\nguest 1 opened asid 5 iv 0 key 00000000000000000000000000000000000000000000000000000000000000ff\npage 3 of 1 at 7 4k invalid 1 2 15\npage 512 of 1 at 68719476224 2m valid 4 5 6\npage 511 of 1 at 68719476223 4k valid 0 0 0\nword 3 511 18446744073709551615\nactor 1 cpu 1 vmpl 3 npt 9 flat\nload 8\nstore 18446744073709551608 2\nswap 16 5\ncas 16 5 6\nxor 16 3\nskip 1 if ok\npvalidate 2097152 2m 1 retry 3\nrmpadjust 2097152 2m 3 15 0\nactor 2 host\nstore 2097144 0\nload 2097144\nrmpupdate 3 4k 0 0 0 0\npsmash 512 retry 2\nskip 2 if bad\nskip 8192 if value 7\nactor 3 cpu 1 vmpl 1 npt 511 gcr3 68719476735\nload 0\nactor 4 cpu 1 vmpl 1 npt 511 la57 1\norder 1*2 2*1 7*1\nend\n";

// A text with all commands, a guest that is new, and a run more than an order line holds, as it is written.
const MORE: &str =
    "snp 1\nregions 16\nguest 1 new asid 1 iv 18446744073709551615 key 0123456789abcdef0123456789abcdef0123456789abcdef0123456789abcdef\nguest 2 opened asid 1023 iv 7 key 00000000000000000000000000000000000000000000000000000000000000ff\npage 8191 of 2 at 0 4k valid 15 15 15\nword 0 0 0\nword 8191 511 1\nword 0 0 2\nactor 1 fw\ngctx_create 1 9\nactivate 1 2\nlaunch_start 1 retry 255\nlaunch_update 1 10 255 1 0 15 7 retry 1\nlaunch_finish 1\nmd_init 11\npage_move 2 12 13\nswap_out 2 12 13 11 63\nswap_in 2 13 12 11 63\npage_reclaim 14\nmd_out 2 11 12 13 0\nmd_in 2 11 12 13 0\nmd_root_out 2 11 12\nmd_root_in 2 12 11 retry 2\nskip 1 if value 256\nactor 2 host\norder 1*1 2*1 3*1 4*1 5*1 6*1 7*1 8*1 9*1 10*1 11*1 12*1 13*1 14*1 15*1 16*1\norder 4294967295*262000\nend\n";

// What is written of the scenario that a text says.
fn written(alloc: Global, text: &str) -> Result<Option<MemorySink>, AllocError> {
    let mut sink = MemorySink::with_room(alloc, 4096, Vec::new(alloc))?;
    let scenario = match read_scenario(alloc, text.as_bytes()) {
        Ok(scenario) => scenario,
        Err(_) => return Ok(None),
    };
    match write_scenario(&scenario, &mut sink) {
        Ok(()) => Ok(Some(sink)),
        Err(SinkFault) => Ok(None),
    }
}

#[test]
fn each_form_is_written_and_read_again(rt: HostRuntime) -> Result<(), Fail> {
    match written(rt.alloc(), WHOLE)? {
        Some(sink) => {
            assert!(rt; sink.bytes() == WRITTEN.as_bytes());
            match read_scenario(rt.alloc(), sink.bytes()) {
                Ok(scenario) => assert!(rt; is_whole(&scenario), "{scenario:?}"),
                Err(fault) => assert!(rt; false, "{fault}"),
            }
        }
        None => assert!(rt; false, "not written"),
    }
    match written(rt.alloc(), MORE)? {
        Some(sink) => assert!(rt; sink.bytes() == MORE.as_bytes()),
        None => assert!(rt; false, "not written"),
    }
    Ok(())
}

// Whether a sink of so much room, which fails at these writes, ends the writing with its fault and holds so many bytes of the text.
fn stops(
    scenario: &Scenario,
    alloc: Global,
    room: usize,
    failing: Vec<u32>,
    held: usize,
) -> Result<bool, AllocError> {
    let mut sink = MemorySink::with_room(alloc, room, failing)?;
    let stopped = write_scenario(scenario, &mut sink) == Err(SinkFault);
    Ok(stopped && WRITTEN.as_bytes().starts_with(sink.bytes()) && sink.bytes().len() == held)
}

#[test]
fn faults_of_sinks(rt: HostRuntime) -> Result<(), Fail> {
    let alloc = rt.alloc();
    match read_scenario(alloc, WHOLE.as_bytes()) {
        Ok(scenario) => {
            // the first of 27 writes has two lines, of 16 bytes, and the last has 4
            assert!(rt; stops(&scenario, alloc, 4096, vec![in alloc; 0]?, 0)?);
            assert!(rt; stops(&scenario, alloc, 4096, vec![in alloc; 1]?, 16)?);
            assert!(rt; stops(&scenario, alloc, 20, Vec::new(alloc), 20)?);
            let last = WRITTEN.len() - 4;
            assert!(rt; stops(&scenario, alloc, 4096, vec![in alloc; 26]?, last)?);
            let most = WRITTEN.len() - 1;
            assert!(rt; stops(&scenario, alloc, most, Vec::new(alloc), most)?);
        }
        Err(fault) => assert!(rt; false, "{fault}"),
    }
    Ok(())
}
