//! Calls of pv_case.
ghost use Rattle.std.specs.Prelude.{◌≡◌, string_bytes, IfOk, IfErr, String as A_string};
ghost use Rattle.std.specs.declared.alloc.Global.{Global as The_heap};
ghost use Rattle.pv_case.specs.declared.fault.Kind.{Kind as A_kind};
ghost use Rattle.pv_case.specs.declared.fault.CaseFault.TheVariants.{NotJson as Is_no_json, Broken as Is_broken};
ghost use Rattle.pv_case.specs.Cases.{BreaksFirst, IsCaseText, IsNoObject, data_of};

use pv_case::{Case, CaseFault};
use std::alloc::Global;

/// [`pv_case::read`].
pub fn read(alloc: Global, bytes: &[u8]) -> Result<Case, CaseFault>
    ensures found { IfOk result (λ case. IsCaseText bytes.now (data_of case)) }
    ensures broken { IfErr result (λ fault. (kind : A_kind) (field : A_string The_heap)
        → fault ≡ Is_broken kind field → BreaksFirst bytes.now kind (string_bytes field)) }
    ensures not_json { IfErr result (λ fault. fault ≡ Is_no_json → IsNoObject bytes.now) }
{
    pv_case::read(alloc, bytes)
}
