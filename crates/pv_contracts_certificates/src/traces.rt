//! Calls of pv_trace, and the lists that traces consist of.
ghost use Rattle.std.specs.Prelude.{◌≡◌, ℕ, [], ◌∷◌, ◌++◌, Ok, Err, None, IfOk, OnOk, OnErr};
ghost use Rattle.std.specs.List.{AllByRecursion};
ghost use Rattle.pv_claims.specs.declared.trace.Trace.{Trace};
ghost use Rattle.pv_trace.specs.TraceText.{FailsAt, IsRange, IsTextOf, IsUnlessNoMemory, trace_text};

use pv_claims::{CellValues, CertFault, ScanInputs, Trace};
use std::alloc::{AllocError, Global};

/// [`pv_trace::read_trace`].
pub fn read_trace(
    alloc: Global,
    bytes: &[u8],
    params: &[(i128, i128)],
    inputs: &[(i128, i128)],
) -> Result<Trace, CertFault>
    requires params { AllByRecursion IsRange params.now }
    requires inputs { AllByRecursion IsRange inputs.now }
    ensures found { IfOk result (IsTextOf params.now inputs.now bytes.now) }
    ensures complete { (t : Trace) → IsTextOf params.now inputs.now bytes.now t → IsUnlessNoMemory result (Ok t) }
    ensures stuck { (line : ℕ) → result ≡ Err (CertFault.NotACertificate line)
        → FailsAt params.now inputs.now bytes.now line }
    ensures refused { (line : ℕ) → FailsAt params.now inputs.now bytes.now line
        → IsUnlessNoMemory result (Err (CertFault.NotACertificate line)) }
{
    pv_trace::read_trace(alloc, bytes, params, inputs)
}

/// [`pv_trace::write_trace`].
pub fn write_trace(alloc: Global, trace: &Trace) -> Result<Vec<u8>, AllocError>
    requires image { trace.now.image ≡ None }
    requires prev { trace.now.prev ≡ None }
    ensures { IfOk result (λ text. text.items ≡ trace_text trace.now) }
{
    pv_trace::write_trace(alloc, trace)
}

/// [`CellValues::push`].
pub fn push_value(values: &mut CellValues, value: i128) -> Result<(), AllocError>
    ensures ok { OnOk result (values.new ≡ values.old ++ value ∷ []) }
    ensures err { OnErr result (values.new ≡ values.old) }
{
    values.push(value)
}

/// [`ScanInputs::push`].
pub fn push_inputs(scans: &mut ScanInputs, inputs: CellValues) -> Result<(), AllocError>
    ensures ok { OnOk result (scans.new ≡ scans.old ++ inputs ∷ []) }
    ensures err { OnErr result (scans.new ≡ scans.old) }
{
    scans.push(inputs)
}
