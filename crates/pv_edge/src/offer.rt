//! How a whole text is handed to a sink.
ghost use Rattle.std.specs.Prelude.{◌≡◌, ◌≤◌, [], IfErr, IsErrOf, OnOk, OnErr};
ghost use Rattle.pv_edge.specs.Faults.{HasRisen};
ghost use Rattle.pv_edge.specs.Sink.{Offered, StopsOffering, Takes, TakesLess};

use crate::outside::{Sink, SinkFault};

/// Offers the bytes to a sink until all are taken. Each call offers all that are left, and behind the
/// last byte there is none.
///
/// `Failed` comes where a call of the sink failed or took nothing, with at least the last byte not taken.
pub fn write_all<S: Sink>(out: &mut S, bytes: &[u8]) -> Result<(), SinkFault>
    ensures ok { OnOk result (Takes bytes.now (S.taken out.old) (S.taken out.new)) }
    ensures err { OnErr result (TakesLess bytes.now (S.taken out.old) (S.taken out.new)) }
    ensures offered { OnOk result (Offered S.call bytes.now out.old [] out.new) }
    ensures stops { IfErr result (λ fault. StopsOffering S.call bytes.now out.old fault out.new) }
    ensures idle { bytes.now ≡ [] → out.new ≡ out.old }
    ensures failed { IsErrOf result SinkFault.Failed → HasRisen (S.faults out.old) (S.faults out.new) }
    ensures never_falls { S.faults out.old ≤ S.faults out.new }
    ensures no_memory { IsErrOf result SinkFault.NoMemory → S.faults out.new ≡ S.faults out.old }
    ensures only_faults { OnOk result (S.faults out.new ≡ S.faults out.old) }
{
    let mut rest = bytes;
    while !rest.is_empty() {
        match out.write(rest) {
            Ok(0) => return Err(SinkFault::Failed),
            Ok(n) => {
                let (_, left) = rest.split_at(n);
                rest = left;
            }
            Err(fault) => return Err(fault),
        }
    }
    Ok(())
}
