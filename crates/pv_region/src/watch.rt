//! Watches, and their codes as links in a region.
ghost use Rattle.std.specs.Prelude.{◌≡◌, ◌+◌, ◌*◌, ◌-◌, ◌^◌, ◌<◌, ◌≤◌};
ghost use Rattle.pv_region.specs.Links.{code_of, watch_at};

/// A slot of a clause or a lemma, at which it is watched.
#[derive(Clone, Copy, Debug, PartialEq, Eq)]
pub struct Watch {
    /// The number of the clause or lemma, from 1.
    pub id: u32,
    /// 0 or 1.
    pub slot: u8,
}

/// The code of a watch: no watch has 0.
pub(crate) fn code_of(watch: Watch) -> u32
    requires id { watch.id < 2 ^ 31 - 1 }
    requires slot { watch.slot < 2 }
    ensures { result ≡ code_of watch }
{
    2 * watch.id + watch.slot as u32
}

/// The watch of a code, or none of 0.
pub(crate) fn watch_at(code: u32) -> Option<Watch>
    ensures { result ≡ watch_at code }
{
    if code == 0 {
        return None;
    }
    Some(Watch {
        id: code / 2,
        slot: (code % 2) as u8,
    })
}
