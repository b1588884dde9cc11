//! A program as a case.
ghost use Rattle.std.specs.Prelude.{◌≡◌, ◌≤◌, [], length, replicate, IfOk};
ghost use Rattle.pv_bool.specs.Scans.{state_len, input_len};
ghost use Rattle.pv_kind.specs.declared.told.TheConstants.{LAST_QUERY};
ghost use Rattle.pv_bool_judged.specs.declared.formulas.TheConstants.{MAX_CASE_BITS, MAX_CASE_GATES};
ghost use Rattle.pv_bool_judged.specs.Bounds.{bit_bounds};
ghost use Rattle.pv_bool_judged.specs.Settings.{setting_of};

use crate::formulas::{MAX_CASE_BITS, MAX_CASE_GATES, query_formula};
use crate::scans::run_scans;
use crate::setting::Setting;
use pv_bool::{Bit, Program};
use pv_cert::Query;
use pv_claims::CellValues;
use pv_cnf::Formula;
use pv_gate::GateFault;
use pv_kind::LAST_QUERY;
use pv_stretch::{Stretch, StretchStart};
use pv_valid::{CellRanges, Facts, Judged};
use std::alloc::{AllocError, Global};

/// A program as a case. It has no parameters; an image has the values of the kept bits, and an input those of the input bits.
#[derive(Drop)]
pub struct ProgramCase<'a> {
    pub program: &'a Program,
    pub facts: Facts,
    /// How many gates a step circuit may have.
    pub gates: u32,
    alloc: Global,
    /// The values of the program's bits.
    frame: Vec<bool>,
    ghost few_bits: { length program.now.bits.items ≤ MAX_CASE_BITS },
    ghost few_gates: { gates ≤ MAX_CASE_GATES },
    ghost few_queries: { facts.depth ≤ LAST_QUERY },
    ghost no_params: { facts.params ≡ [] },
    ghost input_bits: { facts.input ≡ replicate (input_len program.now.bits.items) bit_bounds },
    ghost kept_bits: { facts.image ≡ replicate (state_len program.now.bits.items) bit_bounds },
    ghost room: { length frame.items ≡ length program.now.bits.items },
}

/// How many values a state has.
fn kept_count(bits: &[Bit]) -> usize
    ensures { result ≡ state_len bits.now }
{
    let mut count = 0;
    for bit in bits {
        if bit.role.is_kept() {
            count += 1;
        }
    }
    count
}

/// How many values an input has.
fn taken_count(bits: &[Bit]) -> usize
    ensures { result ≡ input_len bits.now }
{
    let mut count = 0;
    for bit in bits {
        if bit.role.is_input() {
            count += 1;
        }
    }
    count
}

/// So many times the range of a bit.
fn ranges(alloc: Global, count: usize) -> Result<CellRanges, AllocError>
    ensures { IfOk result (λ ranges. ranges ≡ replicate count bit_bounds) }
{
    let ranges = vec![in alloc; (0, 1); count]?;
    Ok(CellRanges::from_vec(ranges))
}

/// The ranges of a state's values.
fn kept_ranges(alloc: Global, bits: &[Bit]) -> Result<CellRanges, AllocError>
    ensures { IfOk result (λ ranges. ranges ≡ replicate (state_len bits.now) bit_bounds) }
{
    ranges(alloc, kept_count(bits))
}

/// The ranges of an input's values.
fn taken_ranges(alloc: Global, bits: &[Bit]) -> Result<CellRanges, AllocError>
    ensures { IfOk result (λ ranges. ranges ≡ replicate (input_len bits.now) bit_bounds) }
{
    ranges(alloc, taken_count(bits))
}

/// What is known of a case of a program with these bits.
fn facts_of(alloc: Global, bits: &[Bit], setting: Setting) -> Result<Facts, AllocError>
    ensures params { IfOk result (λ facts. facts.params ≡ []) }
    ensures input { IfOk result (λ facts. facts.input ≡ replicate (input_len bits.now) bit_bounds) }
    ensures image { IfOk result (λ facts. facts.image ≡ replicate (state_len bits.now) bit_bounds) }
    ensures depth { IfOk result (λ facts. facts.depth ≡ setting.depth) }
    ensures setting { IfOk result (λ facts. setting_of facts setting.gates ≡ setting) }
{
    let input = taken_ranges(alloc, bits)?;
    let image = kept_ranges(alloc, bits)?;
    Ok(Facts {
        goal: setting.goal,
        looks_back: setting.looks_back,
        depth: setting.depth,
        lemmas: setting.lemmas,
        words: setting.words,
        params: CellRanges::from_vec(Vec::new(alloc)),
        input,
        image,
    })
}

impl<'a> ProgramCase<'a> {
    /// A case of a program of at most `MAX_CASE_BITS` bits.
    pub fn new(
        alloc: Global,
        program: &'a Program,
        setting: Setting,
    ) -> Result<ProgramCase<'a>, AllocError>
        requires bits { length program.now.bits.items ≤ MAX_CASE_BITS }
        requires gates { setting.gates ≤ MAX_CASE_GATES }
        requires depth { setting.depth ≤ LAST_QUERY }
        ensures program { IfOk result (λ case. case.program.now ≡ program.now) }
        ensures setting { IfOk result (λ case. setting_of case.facts case.gates ≡ setting) }
    {
        let frame = vec![in alloc; false; program.bits.len()]?;
        let facts = facts_of(alloc, &program.bits, setting)?;
        Ok(ProgramCase {
            program,
            facts,
            gates: setting.gates,
            alloc,
            frame,
        })
    }
}

impl Judged for ProgramCase<'_> {
    ghost use Rattle.pv_bool.specs.Programs.{program_tree};
    ghost use Rattle.pv_bool_judged.specs.Cases.{case_of};
    ghost use Rattle.pv_bool_judged.specs.Sound.{case_is_sound};

    ghost case = { λ c. case_of (program_tree c.program.now) c.facts c.gates };

    fn facts(&self) -> &Facts {
        &self.facts
    }

    fn formula(&mut self, q: Query) -> Result<Formula, GateFault> {
        query_formula(self.alloc, self.program, self.gates, q)
    }

    fn stretch(&mut self, start: StretchStart<'_>, inputs: &[CellValues]) -> Stretch {
        run_scans(self.program, start, inputs, &mut self.frame)
    }

    ghost sound = { λ c. case_is_sound (program_tree c.program.now) c.facts c.gates c.program.now.own c.few_queries c.no_params c.input_bits c.kept_bits };
}
