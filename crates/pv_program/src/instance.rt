//! The instance on which a called block works.
ghost use Rattle.std.specs.Prelude.{◌≡◌, ℕ, IfOk, IsOk};
ghost use Rattle.pv_tree.specs.View.{call_tree};
ghost use Rattle.pv_mean.specs.Sources.{Source};
ghost use Rattle.pv_mean.specs.Calls as calls;
ghost use Rattle.pv_eval.specs.Means.{activation};
ghost use Rattle.pv_run.specs.Code.{first_of};
ghost use Rattle.pv_resolve.specs.Contexts.{IsContext, block_in};
ghost use Rattle.pv_resolve.specs.Begins.{begin_at};
ghost use Rattle.pv_resolve.specs.Rooms.{HasRoom};

use crate::slot::first_of;
use pv_names::is_word;
use pv_resolve::{Begin, Context, ResolveFault};
use pv_run::First;
use pv_tree::CallTree;
use pv_types::Name;

/// Where a called name, or the second of two, begins.
fn called_begin<'p>(
    context: &Context<'p>,
    name: &Name,
    hash: bool,
) -> Result<Begin<'p>, ResolveFault>
    ensures begins { (source : Source) (first : ℕ) → IsContext context.now source
        → IfOk result (λ b. begin_at b first ≡ calls.called_begins source
        (activation (block_in context.now) first) name.now hash) }
    ensures room { (source : Source) → IsContext context.now source
        → HasRoom source (block_in context.now) → IsOk result }
{
    if is_word(name) {
        context.word(name, hash)
    } else {
        context.name(name)
    }
}

/// The first cell of a call's instance: that of the second name, else that of the called one.
pub(crate) fn instance_of(context: &Context, call: &CallTree) -> Result<First, ResolveFault>
    ensures first { (source : Source) (k : ℕ) → IsContext context.now source
        → IfOk result (λ f. first_of k f ≡ calls.instance_first source
        (activation (block_in context.now) k) (call_tree call.now)) }
    ensures room { (source : Source) → IsContext context.now source
        → HasRoom source (block_in context.now) → IsOk result }
{
    match &call.base {
        None => {
            let begin = called_begin(context, &call.name, call.hash)?;
            first_of(begin)
        }
        Some((name, _)) => {
            let begin = called_begin(context, name, false)?;
            first_of(begin)
        }
    }
}
