//! What answers a row.
use crate::accesses::tell_accesses;
use crate::lowered::{Asked as Lowered, tell_lowered};
use crate::places::tell_places;
use crate::reading::{project_of, said};
use crate::terms::tell_terms;
use crate::variables::tell_variables;
use pv_cells::{CellFault, Table};
use pv_mean::{CaseView, Sizes};
use pv_names::{Entry, Scope, Tables, entries};
use pv_resolve::{Context, context_of};
use pv_rows_form::{Calls, Row, Told, last};
use pv_tree::Project;

/// What may stand at the beginning of a line that is no row.
pub const NAMES: [&str; 8] = [
    "#", "call ", "source", "entry", "block", "params", "bound", "want",
];

/// The calls on automata of blocks.
pub struct Automata;

/// What is asked of a block: its variables, where operands begin, or what an expression or an assignment becomes.
#[derive(Clone, Copy)]
pub enum What<'a> {
    Variables,
    Places(&'a str),
    Lowered(Lowered<'a>),
}

/// What is asked of a project: the numbers of the block that is entered and of the one that is asked about, and what a case says of cells.
#[derive(Clone, Copy)]
pub struct Question<'a> {
    pub entry: u32,
    pub block: u32,
    pub view: &'a CaseView,
    pub what: What<'a>,
}

/// Answers in the context of the block that is asked about.
fn tell_in(
    project: &Project,
    context: &Context<'_>,
    entered: &Entry<'_>,
    table: &Table,
    asked: &Question<'_>,
    told: &mut Told,
) {
    match asked.what {
        What::Variables => tell_variables(project, context, entered.block(), table.cells(), told),
        What::Places(text) => tell_places(context, table.cells(), text, told),
        What::Lowered(row) => tell_lowered(context, table.cells(), &row, told),
    }
}

/// Answers by tables and sizes that were made.
fn tell_made(
    project: &Project,
    tables: &Tables<'_>,
    sizes: &Sizes<'_>,
    table: &Table,
    asked: &Question<'_>,
    told: &mut Told,
) {
    let list = tables.entries();
    let (Some(entered), Some(entry)) = (
        list.get(asked.entry as usize),
        list.get(asked.block as usize),
    ) else {
        return told.text("no such block");
    };
    let scope = Scope { tables, entry };
    match context_of(scope, sizes, entered.block(), table.bytes()) {
        Ok(context) => tell_in(project, &context, entered, table, asked, told),
        Err(fault) => told.words(&fault),
    }
}

/// Answers by tables that were made.
fn tell_sized(
    project: &Project,
    tables: &Tables<'_>,
    table: &Table,
    asked: &Question<'_>,
    told: &mut Told,
) {
    match Sizes::of(told.alloc(), project) {
        Ok(sizes) => tell_made(project, tables, &sizes, table, asked, told),
        Err(_) => told.lose(),
    }
}

/// Answers by the table of cells.
fn tell_entries(
    project: &Project,
    list: &[Entry<'_>],
    table: &Table,
    asked: &Question<'_>,
    told: &mut Told,
) {
    match Tables::of(told.alloc(), list, project.symbols()) {
        Ok(tables) => tell_sized(project, &tables, table, asked, told),
        Err(_) => told.lose(),
    }
}

/// Answers by the table of cells.
fn tell_table(project: &Project, table: &Table, asked: &Question<'_>, told: &mut Told) {
    match entries(told.alloc(), project.blocks().list.as_slice()) {
        Ok(list) => tell_entries(project, list.as_slice(), table, asked, told),
        Err(_) => told.lose(),
    }
}

/// The table of cells as the case says.
fn viewed(made: Table, view: &CaseView) -> Option<Table> {
    let mut table = made;
    if !crate::reading::fits(view, table.cells().len()) {
        drop(table);
        return None;
    }
    table.set_params(view);
    Some(table)
}

/// The table of cells of a project, before a case says anything.
fn table_of(project: &Project, entry: u32, told: &mut Told) -> Option<Table> {
    if entry as usize >= project.blocks().list.len() {
        return None;
    }
    match Table::of(told.alloc(), project, entry, &[]) {
        Ok(table) => Some(table),
        Err(CellFault::TooLarge) => None,
        Err(CellFault::NoMemory) => {
            told.lose();
            None
        }
    }
}

/// Answers for a project.
fn tell_project(project: &Project, asked: &Question<'_>, told: &mut Told) {
    let Some(made) = table_of(project, asked.entry, told) else {
        return told.text("no table");
    };
    let Some(table) = viewed(made, asked.view) else {
        return told.text("no such cell");
    };
    tell_table(project, &table, asked, told);
}

/// Answers for the row's project.
fn tell_source(row: Row<'_>, what: What<'_>, told: &mut Told) {
    let view = crate::reading::view_of(row, told);
    let entry = crate::reading::number_of(said(row, "entry", told).as_str());
    let block = crate::reading::number_of(said(row, "block", told).as_str());
    let Some(project) = project_of(row, told) else {
        return;
    };
    let asked = Question {
        entry,
        block,
        view: &view,
        what,
    };
    tell_project(&project, &asked, told);
    drop(project);
}

/// The row's first field as a text.
fn first_field(row: Row<'_>, told: &mut Told) -> String {
    let alloc = told.alloc();
    String::from_utf8(row.bytes(0, told)).unwrap_or(String::new(alloc))
}

/// What a value becomes, or its assignment to a target.
fn tell_parts(
    row: Row<'_>,
    target: Option<&str>,
    value: &str,
    want: &str,
    count: bool,
    told: &mut Told,
) {
    let asked = Lowered {
        target,
        value,
        want,
        count,
    };
    tell_source(row, What::Lowered(asked), told);
}

/// What an expression becomes, or an assignment, in whose text the target stands before `:=`.
fn tell_text(row: Row<'_>, assigns: bool, count: bool, told: &mut Told) {
    let text = first_field(row, told);
    let want = said(row, "want", told);
    match text.as_str().split_once(":=") {
        Some((target, value)) if assigns => {
            tell_parts(row, Some(target), value, want.as_str(), count, told);
        }
        _ => tell_parts(row, None, text.as_str(), want.as_str(), count, told),
    }
}

impl Calls for Automata {
    fn answer(&self, row: Row<'_>, told: &mut Told) {
        match last(row.head, "call ").unwrap_or("") {
            "variables" => tell_source(row, What::Variables, told),
            "places" => {
                let operands = first_field(row, told);
                tell_source(row, What::Places(operands.as_str()), told);
            }
            "lowered" => tell_text(row, false, false, told),
            "assigned" => tell_text(row, true, false, told),
            "counted" => tell_text(row, true, true, told),
            "terms" => tell_terms(row, told),
            "reads" => tell_accesses("reads", row, told),
            "unset" => tell_accesses("unset", row, told),
            "writes" => tell_accesses("writes", row, told),
            _ => told.text("no such call"),
        }
    }
}
