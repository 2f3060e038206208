ghost use Rattle.std.specs.Prelude.{◌≡◌, ◌≤◌, length, take, OnErr};
ghost use Rattle.snp_model.specs.MeasureText.{digest_line};
ghost use Rattle.snp_model.specs.Outside.{Rose, Writes};
ghost use Rattle.outside_port.specs.Holding.{Held};

use outside_port::{Sink, SinkFault, write_all};
use script_text::base16::put_bytes;
use script_text::pen::put;

/// Writes the line that tells a launch digest, by one call of the sink where that takes whole pieces.
pub fn write_digest<K: Sink>(digest: &[u8; 48], sink: &mut K) -> Result<(), SinkFault>
    ensures text { Writes (K.written sink.old) (K.written sink.new) result (digest_line digest.now) }
    ensures held { Held (K.holds sink.old) (K.holds sink.new) result (digest_line digest.now) }
    ensures later { K.faults sink.old ≤ K.faults sink.new }
    ensures cause { OnErr result (Rose (K.faults sink.old) (K.faults sink.new)) }
{
    let mut line = [0; 104];
    let end = put_digest(&mut line, digest);
    write_all(sink, &line[..end])
}

// Puts the line that tells a digest.
#[tactic(auto, unfolding(snp_model::specs::MeasureText::digest_line))]
fn put_digest(out: &mut [u8; 104], digest: &[u8; 48]) -> usize
    ensures end { result ≤ 104 }
    ensures text { take result out.new ≡ digest_line digest.now }
{
    let end = put(out, 0, b"digest ");
    let end = put_bytes(out, end, digest);
    put(out, end, b"\n")
}
