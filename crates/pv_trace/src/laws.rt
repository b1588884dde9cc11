//! Laws of texts: a text is that of at most one trace, and has at most one line at fault.
ghost use Rattle.std.specs.Prelude.{◌≡◌, ℕ, List};
ghost use Rattle.std.specs.List.{AllByRecursion};
ghost use Rattle.pv_claims.specs.declared.trace.Trace.{Trace};
ghost use Rattle.pv_trace.specs.TraceText.{Bounds, IsRange, IsTextOf, FailsAt};

/// A law: over ranges of 64 bits a text is that of at most one trace.
pub fn text_determines_trace()
    ensures { (params inputs : List Bounds) (bytes : List ℕ) (trace other : Trace)
        → AllByRecursion IsRange params → AllByRecursion IsRange inputs
        → IsTextOf params inputs bytes trace → IsTextOf params inputs bytes other → trace ≡ other }
{}

/// A law: at most one line is a text's fault.
pub fn text_has_one_fault()
    ensures { (params inputs : List Bounds) (bytes : List ℕ) (line other : ℕ)
        → FailsAt params inputs bytes line → FailsAt params inputs bytes other → line ≡ other }
{}
