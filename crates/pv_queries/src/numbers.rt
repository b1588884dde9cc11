//! Bits as numbers of their types.
ghost use Rattle.std.specs.Prelude.{◌≡◌, ◌+◌, ◌^◌, ◌<◌, ◌≤◌, List, Bool, length, map, IfOk};
ghost use Rattle.std.specs.List.{AllByRecursion};
ghost use Rattle.pv_word.specs.Types.{width_of};
ghost use Rattle.pv_bits.specs.Words.{number_of_bit, number_of};
ghost use Rattle.pv_circuit.specs.Steps.{widths};
ghost use Rattle.pv_frames.specs.Runs.{run_seen};
ghost use Rattle.pv_queries.specs.Numbers.{value_of_bits, values_of_bits, form_with, numbers_of};

use pv_claims::{CellValues, ScanInputs};
use pv_frames::{BitTrace, Bits};
use pv_word::{Ty, width, wrap};
use std::alloc::{AllocError, Global};

/// A run as numbers: the values of its first state, and those of each scan's input.
#[derive(Drop)]
pub struct NumberRun {
    /// The values of the first state.
    pub state: CellValues,
    /// The values of each scan's input.
    pub inputs: ScanInputs,
}

fn bit_number(bit: bool) -> u64
    ensures { result ≡ number_of_bit bit }
{
    if bit { 1 } else { 0 }
}

/// The number with these bits, the least first.
fn number_of(bits: &[bool]) -> u64
    requires { length bits.now ≤ 32 }
    ensures { result ≡ number_of bits.now }
{
    let mut number = 0;
    for k in 0..bits.len() {
        number = 2 * number + bit_number(bits[bits.len() - 1 - k]);
    }
    number
}

/// The value of a type with these bits, the least first.
fn value_of(ty: Ty, bits: &[bool]) -> i128
    requires { length bits.now ≡ width_of ty }
    ensures { result ≡ value_of_bits ty bits.now }
{
    wrap(ty, i128::from(number_of(bits)))
}

/// The values of these types whose bits stand one after another, the least bit of each first.
pub fn values_of(alloc: Global, types: &[Ty], bits: &[bool]) -> Result<CellValues, AllocError>
    requires { length bits.now ≡ widths types.now }
    ensures { IfOk result (λ values. values ≡ values_of_bits types.now bits.now) }
{
    let mut values = CellValues::new(alloc);
    let mut at = 0;
    for ty in types {
        let end = at + width(*ty) as usize;
        values.push(value_of(*ty, &bits[at..end]))?;
        at = end;
    }
    Ok(values)
}

/// The values of each scan's input.
fn inputs_of(alloc: Global, types: &[Ty], scans: &[Bits]) -> Result<ScanInputs, AllocError>
    requires { AllByRecursion (λ (bits : List Bool). length bits ≡ widths types.now) scans.now }
    ensures { IfOk result (λ inputs. inputs ≡ map (values_of_bits types.now) scans.now) }
{
    let mut inputs = ScanInputs::new(alloc);
    for bits in scans {
        inputs.push(values_of(alloc, types, bits.as_slice())?)?;
    }
    Ok(inputs)
}

/// A run of bits as numbers.
pub(crate) fn numbers_of(
    alloc: Global,
    state: &[Ty],
    input: &[Ty],
    trace: &BitTrace,
) -> Result<NumberRun, AllocError>
    requires state { length trace.now.state ≡ widths state.now }
    requires inputs { AllByRecursion (λ (bits : List Bool). length bits ≡ widths input.now) trace.now.inputs }
    ensures { IfOk result (λ run. run ≡ numbers_of (form_with state.now input.now) (run_seen trace.now)) }
{
    let first = values_of(alloc, state, trace.state.as_slice())?;
    let inputs = inputs_of(alloc, input, trace.inputs.as_slice())?;
    Ok(NumberRun {
        state: first,
        inputs,
    })
}
