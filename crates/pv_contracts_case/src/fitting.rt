//! Calls of pv_case_fit.
ghost use Rattle.std.specs.Prelude.{◌≡◌, ◌^◌, ◌≤◌, ◌<◌, ℕ, length, map, string_bytes, All, IfOk, IfErr, String as A_string};
ghost use Rattle.std.specs.declared.alloc.Global.{Global as The_heap};
ghost use Rattle.pv_types.specs.declared.layout.TheConstants.{MAX_LEAVES};
ghost use Rattle.pv_tree.specs.View.{block_tree};
ghost use Rattle.pv_case.specs.Cases.{bound_data};
ghost use Rattle.pv_case_fit.specs.declared.fault.EntryFault.TheVariants.{NoEntry as Is_no_entry};
ghost use Rattle.pv_case_fit.specs.declared.fault.InputFault.TheVariants.{NotAnInput as Is_no_input, BoundRange as Is_misfit};
ghost use Rattle.pv_case_fit.specs.Entries.{IsEntry};
ghost use Rattle.pv_case_fit.specs.Inputs.{Views, IsStray, IsMisfit};

use pv_case::Case;
use pv_case_fit::{EntryFault, InputFault};
use pv_mean::{CaseView, Cell};
use pv_tree::Blocks;
use std::alloc::Global;

/// [`pv_case_fit::entry_of`].
pub fn entry_of(alloc: Global, blocks: &Blocks, text: &str) -> Result<u32, EntryFault>
    requires few { length blocks.now.list.items < 2 ^ 32 }
    ensures found { IfOk result (λ n. IsEntry (map block_tree blocks.now.list.items) text.now n) }
    ensures none { IfErr result (λ fault. fault ≡ Is_no_entry → (n : ℕ)
        → IsEntry (map block_tree blocks.now.list.items) text.now n → ⊥) }
{
    pv_case_fit::entry_of(alloc, blocks, text)
}

/// [`pv_case_fit::view_of`].
pub fn view_of(
    alloc: Global,
    case: &Case,
    entry: u32,
    cells: &[Cell],
) -> Result<CaseView, InputFault>
    requires { length cells.now ≤ MAX_LEAVES }
    ensures found { IfOk result (λ view. Views cells.now (map string_bytes case.now.params.items) (map bound_data case.now.bind.items)
        view.params.items view.bound.items) }
    ensures rest { IfOk result (λ view. (view.entry ≡ entry) × (view.loop_bound ≡ case.now.limits.loop_bound)) }
    ensures params { IfOk result (λ view. All (λ n. n < length cells.now) view.params.items) }
    ensures bound { IfOk result (λ view. All (λ b. b.0 < length cells.now) view.bound.items) }
    ensures stray { IfErr result (λ fault. (field : A_string The_heap) → fault ≡ Is_no_input field
        → IsStray cells.now (map string_bytes case.now.params.items) (map bound_data case.now.bind.items) (string_bytes field)) }
    ensures misfit { IfErr result (λ fault. (field : A_string The_heap) → fault ≡ Is_misfit field
        → IsMisfit cells.now (map string_bytes case.now.params.items) (map bound_data case.now.bind.items) (string_bytes field)) }
{
    pv_case_fit::view_of(alloc, case, entry, cells)
}
