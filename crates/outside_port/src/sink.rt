ghost use Rattle.std.specs.Prelude.{◌≡◌, ◌<◌, ◌≤◌, length, ℕ, List, Option, IfOk, OnErr};
ghost use Rattle.snp_model.specs.Outside.{Rose, WriteAdds, Writes};
ghost use Rattle.outside_port.specs.Holding.{Held, WriteHolds};

use crate::Failed;

/// A text that couldn't be written whole: a write failed, or took no byte.
#[derive(Clone, Copy, Debug, PartialEq, Eq)]
pub struct SinkFault;

/// Where bytes go.
pub trait Sink {
    // The bytes that were taken, where the sink tells them.
    ghost written: { Self → Option (List ℕ) };

    // The sink holds these bytes, by whatever it keeps of them.
    ghost holds: { Self → List ℕ → Type 0 };

    // How often the sink has failed, or has taken no byte of a piece.
    ghost faults: { Self → ℕ };

    /// Takes some bytes from the front of a piece, and says how many.
    fn write(&mut self, bytes: &[u8]) -> Result<usize, Failed>
        ensures count { IfOk result (λ n. n ≤ length bytes.now) }
        ensures adds { WriteAdds (written self.old) (written self.new) result bytes.now }
        ensures held { WriteHolds (holds self.old) (holds self.new) result bytes.now }
        ensures later { faults self.old ≤ faults self.new }
        ensures failed { OnErr result (Rose (faults self.old) (faults self.new)) }
        ensures stuck { IfOk result
            (λ n. n ≡ 0 → 0 < length bytes.now → Rose (faults self.old) (faults self.new)) };
}

/// Writes all bytes, in as many writes as the sink wants. An empty text makes no write.
pub fn write_all<K: Sink>(sink: &mut K, bytes: &[u8]) -> Result<(), SinkFault>
    ensures text { Writes (K.written sink.old) (K.written sink.new) result bytes.now }
    ensures held { Held (K.holds sink.old) (K.holds sink.new) result bytes.now }
    ensures later { K.faults sink.old ≤ K.faults sink.new }
    ensures cause { OnErr result (Rose (K.faults sink.old) (K.faults sink.new)) }
{
    let mut rest = bytes;
    'pieces: while !rest.is_empty() {
        match sink.write(rest) {
            Ok(0) => return Err(SinkFault),
            Ok(count) => {
                let (_, more) = rest.split_at(count);
                rest = more;
            }
            Err(Failed) => return Err(SinkFault),
        }
    }
    Ok(())
}
