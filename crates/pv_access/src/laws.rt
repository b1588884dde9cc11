//! Laws of reads and writes, each the contract of a function that does nothing. Their statements are those of `specs/Correct`.
ghost use Rattle.pv_access.specs.Correct.{ReadsHold, WritesHold, ChoicesHold};

use pv_terms::laws::conversions_hold;

/// Reading traps exactly where the cell's 'set' is 0, and else gives the value of the read's term.
pub fn reads_hold()
    ensures { ReadsHold }
{
    conversions_hold()
}

/// Setting what a write sets is writing what is moved by the indexes.
pub fn writes_hold()
    ensures { WritesHold }
{
    conversions_hold()
}

/// Setting what a write where a term is true sets is that write, or nothing.
pub fn choices_hold()
    ensures { ChoicesHold }
{
    conversions_hold()
}
