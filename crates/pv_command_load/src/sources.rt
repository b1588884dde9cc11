//! The second stage of a command: the sources that its case names, each read whole before the next one's file is.
ghost use Rattle.std.specs.Prelude.{◌≡◌, ◌<◌, ◌≤◌, ◌++◌, ℕ, ◌∷◌, [], length, map, string_bytes, OnOk, IfOk, IfErr, MatchResult};
ghost use Rattle.pv_case.specs.declared.case.TheConstants.{MAX_SOURCES};
ghost use Rattle.pv_case.specs.Cases.{source_data, data_of};
ghost use Rattle.pv_tree.specs.View.{block_trees};
ghost use Rattle.pv_command_load.specs.Held.{Holds, Counts, IsUnread};
ghost use Rattle.pv_command_load.specs.Stops.{text_tree, source_status, source_unread, StopsSource};
ghost use Rattle.pv_command_load.specs.Gathered.{HasSources, HasOneMore, StopsAtOne};

use crate::position::SourceText;
use crate::reading::read;
use crate::source::{SourceStop, blocks_of};
use pv_case::{Case, Source};
use pv_edge::Files;
use pv_tree::Blocks;
use std::alloc::{AllocError, Global};

/// The sources of a case, and the blocks of all of them in their order. The number of a source is that of its places' file.
#[derive(Drop)]
pub struct Sources {
    pub texts: Vec<SourceText>,
    pub blocks: Blocks,
}

/// Puts blocks behind others.
fn append(blocks: &mut Blocks, more: Blocks) -> Result<(), AllocError>
    ensures { OnOk result (block_trees blocks.new.list.items ≡ block_trees blocks.old.list.items ++ block_trees more.list.items) }
{
    let mut list = more.list;
    blocks.list.append(&mut list)
}

/// Puts a text behind others.
fn keep(texts: &mut Vec<SourceText>, text: SourceText) -> Result<(), AllocError>
    ensures { OnOk result (map text_tree texts.new.items ≡ map text_tree texts.old.items ++ text_tree text ∷ []) }
{
    texts.push(text)?;
    Ok(())
}

/// The file of a source of the case, as it is told.
fn text_in<F: Files>(
    alloc: Global,
    files: &mut F,
    source: &Source,
) -> Result<SourceText, SourceStop>
    ensures files { F.told files.new ≡ F.told files.old }
    ensures file_named { IfOk result (λ text. string_bytes text.file ≡ string_bytes source.now.file) }
    ensures held { IfOk result (λ text. Holds (F.told files.old) (string_bytes source.now.file) text.bytes.items) }
    ensures stopped { (number : ℕ) → IfErr result (StopsAtOne (F.told files.old) number (source_data source.now)) }
    ensures counted { MatchResult result
        (λ text. F.read_faults files.new ≡ F.read_faults files.old)
        (λ stop. Counts (source_status stop) (F.read_faults files.old) (F.read_faults files.new)) }
    ensures named { IfErr result (λ stop. IsUnread (source_unread stop) (F.unread files.new)) }
    ensures writes { F.write_faults files.new ≡ F.write_faults files.old }
{
    let bytes = read(alloc, files, source.file.as_str())?;
    let file = String::from_str(alloc, source.file.as_str())?;
    Ok(SourceText { file, bytes })
}

/// The number of the source that is put behind these.
fn next_number(texts: &Vec<SourceText>) -> u32
    requires { length texts.now.items < MAX_SOURCES }
    ensures { result ≡ length texts.now.items }
{
    texts.as_slice().len() as u32
}

/// Reads one more source.
fn add_source<F: Files>(
    alloc: Global,
    files: &mut F,
    source: &Source,
    sources: &mut Sources,
) -> Result<(), SourceStop>
    requires few { length sources.old.texts.items < MAX_SOURCES }
    ensures files { F.told files.new ≡ F.told files.old }
    ensures added { OnOk result (HasOneMore (F.told files.old) (length sources.old.texts.items)
        (source_data source.now) sources.old sources.new) }
    ensures stopped { IfErr result (StopsAtOne (F.told files.old) (length sources.old.texts.items) (source_data source.now)) }
    ensures counted { MatchResult result
        (λ done. F.read_faults files.new ≡ F.read_faults files.old)
        (λ stop. Counts (source_status stop) (F.read_faults files.old) (F.read_faults files.new)) }
    ensures named { IfErr result (λ stop. IsUnread (source_unread stop) (F.unread files.new)) }
    ensures writes { F.write_faults files.new ≡ F.write_faults files.old }
{
    let text = text_in(alloc, files, source)?;
    let number = next_number(&sources.texts);
    let blocks = blocks_of(alloc, number, source.language, &text)?;
    append(&mut sources.blocks, blocks)?;
    keep(&mut sources.texts, text)?;
    Ok(())
}

/// The sources that the case names, each read to its blocks before the next one's file is.
pub fn sources_in<F: Files>(
    alloc: Global,
    files: &mut F,
    case: &Case,
) -> Result<Sources, SourceStop>
    requires few { length case.now.sources.items ≤ MAX_SOURCES }
    ensures files { F.told files.new ≡ F.told files.old }
    ensures found { IfOk result (HasSources (F.told files.old) (data_of case.now).sources) }
    ensures stopped { IfErr result (StopsSource (F.told files.old) (data_of case.now)) }
    ensures counted { MatchResult result
        (λ sources. F.read_faults files.new ≡ F.read_faults files.old)
        (λ stop. Counts (source_status stop) (F.read_faults files.old) (F.read_faults files.new)) }
    ensures named { IfErr result (λ stop. IsUnread (source_unread stop) (F.unread files.new)) }
    ensures writes { F.write_faults files.new ≡ F.write_faults files.old }
{
    let mut sources = Sources {
        texts: Vec::new(alloc),
        blocks: Blocks {
            list: Vec::new(alloc),
        },
    };
    let list = case.sources.as_slice();
    for source in list {
        add_source(alloc, files, source, &mut sources)?;
    }
    Ok(sources)
}
