//! Laws on kinds of tokens, each the contract of a function that does nothing.
ghost use Rattle.pv_parse.specs.KindLaws.{FrontsHaveFrontKinds, TokensHaveKinds, KindsHaveWitnesses};

/// The kinds of tokens don't depend on what follows them.
pub fn fronts_have_front_kinds()
    ensures { FrontsHaveFrontKinds }
{}

/// Each token of a text has the kind that `kinds` gives it.
pub fn tokens_have_kinds()
    ensures { TokensHaveKinds }
{}

/// Each kind below `outside` is that of some token.
pub fn kinds_have_witnesses()
    ensures { KindsHaveWitnesses }
{}
