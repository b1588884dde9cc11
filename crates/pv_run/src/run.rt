//! Statements, loops and calls.
ghost use Rattle.std.specs.Prelude.{◌≡◌, ℕ, ◌*◌, ◌≤◌, length, slice_index_or, replicate, None, ◌+◌, ◌<◌, ◌^◌};
ghost use Rattle.pv_mean.specs.Sources.{Source};
ghost use Rattle.pv_mean.specs.Cells.{most_calls};
ghost use Rattle.pv_mean.specs.Scans.{scan_from};
ghost use Rattle.pv_eval.specs.Operands.{IsSpot};
ghost use Rattle.pv_run.specs.declared.program.Stmt.TheVariants.{AssignCall, If, Case, For, Call};
ghost use Rattle.pv_run.specs.Code.{IsProgram, statements_end};
ghost use Rattle.pv_run.specs.Ends.{end_in};
ghost use Rattle.pv_run.specs.Runs.{frame_in, HasRoom, RunsList, RunsStmt, RunsCall, RunsWhile, RunsRepeat, RunsFor, RunsBegun, RunsCode, RunsInstrs};

use crate::callee::Started;
use crate::counting::{Begun, is_on_the_way};
use crate::program::{At, Body, Counting, List, Program, Span, Stmt};
use crate::stop::{Flow, Stop};
use pv_eval::Trap;
use pv_place::{Place, TrapKind};
use pv_stl_run::{Going, Turn};

/// How many calls may stand behind one another: a chain of calls has eight blocks at most.
pub const MOST_CALLS: u32 = 7;

fn value_at(inner: &[Option<i64>], n: u32) -> Option<i64>
    ensures { result ≡ slice_index_or inner.now n None }
{
    match inner.get(n as usize) {
        Some(v) => *v,
        None => None,
    }
}

/// Takes each cell's value away.
fn clear(cells: &mut [Option<i64>])
    ensures { cells.new ≡ replicate (length cells.old) None }
{
    for i in 0..cells.len() {
        cells[i] = None;
    }
}

impl Program {
    /// How many brief cells a block has at work: as many as its code says.
    fn width(&self, brief: u32) -> usize
        ensures same { brief ≤ self.now.widest → result ≡ brief }
        ensures within { result ≤ self.now.widest }
    {
        (brief as usize).min(self.widest)
    }

    /// How many turns a body takes for the ranges that it enters, where so many are at hand.
    fn own_turns(&self, most: usize) -> usize
        ensures same { self.now.ranges ≤ most → result ≡ self.now.ranges }
        ensures within { result ≤ most }
        ensures few { result ≤ self.now.ranges }
    {
        self.ranges.min(most)
    }

    /// Runs statements one behind the other.
    #[cycle(run)]
    fn run_list(
        &self,
        list: List,
        at: At,
        visible: &mut [i64],
        own: &mut [Option<i64>],
        below: &mut [Option<i64>],
        turns: &mut [Turn],
        scratch: &mut [i64],
    ) -> Result<Flow, Stop>
        requires { HasRoom self.now at (length below.old) (length turns.old) (length scratch.old) }
        ensures { RunsList self.now list at (frame_in visible.old own.old) result (frame_in visible.new own.new) }
    {
        for k in list.first..list.end {
            let Some(stmt) = self.stmts.get(k) else {
                return Ok(Flow::Normal);
            };
            match self.run_stmt(k, stmt, at, visible, own, below, turns, scratch) {
                Ok(flow) => {
                    if !flow.is_normal() {
                        return Ok(flow);
                    }
                }
                Err(stop) => return Err(stop),
            }
        }
        Ok(Flow::Normal)
    }

    /// Runs a statement, the one of this number. An assignment, of which there are most, takes no call of the great match.
    #[cycle(run)]
    fn run_stmt(
        &self,
        k: usize,
        stmt: &Stmt,
        at: At,
        visible: &mut [i64],
        own: &mut [Option<i64>],
        below: &mut [Option<i64>],
        turns: &mut [Turn],
        scratch: &mut [i64],
    ) -> Result<Flow, Stop>
        requires { HasRoom self.now at (length below.old) (length turns.old) (length scratch.old) }
        ensures { RunsStmt self.now k stmt.now at (frame_in visible.old own.old) result (frame_in visible.new own.new) }
    {
        match stmt {
            Stmt::Assign { value, to } => self.assign(*value, *to, at, visible, own, scratch),
            _ => self.run_other(k, stmt, at, visible, own, below, turns, scratch),
        }
    }

    /// Runs a statement, the one of this number, whatever it is.
    #[cycle(run)]
    fn run_other(
        &self,
        k: usize,
        stmt: &Stmt,
        at: At,
        visible: &mut [i64],
        own: &mut [Option<i64>],
        below: &mut [Option<i64>],
        turns: &mut [Turn],
        scratch: &mut [i64],
    ) -> Result<Flow, Stop>
        requires { HasRoom self.now at (length below.old) (length turns.old) (length scratch.old) }
        ensures { RunsStmt self.now k stmt.now at (frame_in visible.old own.old) result (frame_in visible.new own.new) }
    {
        match stmt {
            Stmt::Assign { value, to } => self.assign(*value, *to, at, visible, own, scratch),
            Stmt::AssignCall { call, to, place } => {
                self.run_assigned(*call, *to, *place, at, visible, own, below, turns, scratch)
            }
            Stmt::If { arms, other } => {
                self.run_if(k, *arms, *other, at, visible, own, below, turns, scratch)
            }
            Stmt::Case {
                selector,
                branches,
                other,
            } => self.run_case(
                k, *selector, *branches, *other, at, visible, own, below, turns, scratch,
            ),
            Stmt::For { count, body, place } => self.run_counted(
                k, count, *body, *place, at, visible, own, below, turns, scratch,
            ),
            Stmt::While { test, body, place } => {
                let body = body.before(k);
                self.run_while(body, *test, *place, at, visible, own, below, turns, scratch)
            }
            Stmt::Repeat { body, test, place } => {
                let body = body.before(k);
                self.run_repeat(body, *test, *place, at, visible, own, below, turns, scratch)
            }
            Stmt::Exit => Ok(Flow::Exit),
            Stmt::Continue => Ok(Flow::Continue),
            Stmt::Return => Ok(Flow::Return),
            Stmt::Call(call) => self.run_called(*call, at, visible, own, below, turns, scratch),
            Stmt::Empty => Ok(Flow::Normal),
        }
    }

    /// Runs a call as a statement: the value of the function is let go.
    #[cycle(run)]
    fn run_called(
        &self,
        call: usize,
        at: At,
        visible: &mut [i64],
        own: &mut [Option<i64>],
        below: &mut [Option<i64>],
        turns: &mut [Turn],
        scratch: &mut [i64],
    ) -> Result<Flow, Stop>
        requires { HasRoom self.now at (length below.old) (length turns.old) (length scratch.old) }
        ensures { (k : ℕ) → RunsStmt self.now k (Call call) at (frame_in visible.old own.old) result
            (frame_in visible.new own.new) }
    {
        match self.run_call(call, at, visible, own, below, turns, scratch) {
            Ok(_) => Ok(Flow::Normal),
            Err(stop) => Err(stop),
        }
    }

    /// Runs a call, and assigns the value of the function.
    #[cycle(run)]
    fn run_assigned(
        &self,
        call: usize,
        target: usize,
        place: Place,
        at: At,
        visible: &mut [i64],
        own: &mut [Option<i64>],
        below: &mut [Option<i64>],
        turns: &mut [Turn],
        scratch: &mut [i64],
    ) -> Result<Flow, Stop>
        requires { HasRoom self.now at (length below.old) (length turns.old) (length scratch.old) }
        ensures { (k : ℕ) → RunsStmt self.now k (AssignCall call target place) at (frame_in visible.old own.old) result
            (frame_in visible.new own.new) }
    {
        match self.run_call(call, at, visible, own, below, turns, scratch) {
            Ok(Some(v)) => self.store(target, v, at.first, visible, own, scratch),
            Ok(None) => Err(Stop::Trap(Trap {
                kind: TrapKind::Unset,
                place,
            })),
            Err(stop) => Err(stop),
        }
    }

    /// Runs an IF, the statement of this number.
    #[cycle(run)]
    fn run_if(
        &self,
        k: usize,
        arms: Span,
        other: List,
        at: At,
        visible: &mut [i64],
        own: &mut [Option<i64>],
        below: &mut [Option<i64>],
        turns: &mut [Turn],
        scratch: &mut [i64],
    ) -> Result<Flow, Stop>
        requires { HasRoom self.now at (length below.old) (length turns.old) (length scratch.old) }
        ensures { RunsStmt self.now k (If arms other) at (frame_in visible.old own.old) result
            (frame_in visible.new own.new) }
    {
        match self.arm_of(arms, at.first, visible, own, scratch) {
            Ok(Some(body)) => {
                let body = body.before(k);
                self.run_list(body, at, visible, own, below, turns, scratch)
            }
            Ok(None) => {
                let body = other.before(k);
                self.run_list(body, at, visible, own, below, turns, scratch)
            }
            Err(stop) => Err(stop),
        }
    }

    /// Runs a CASE, the statement of this number.
    #[cycle(run)]
    fn run_case(
        &self,
        k: usize,
        selector: usize,
        branches: Span,
        other: List,
        at: At,
        visible: &mut [i64],
        own: &mut [Option<i64>],
        below: &mut [Option<i64>],
        turns: &mut [Turn],
        scratch: &mut [i64],
    ) -> Result<Flow, Stop>
        requires { HasRoom self.now at (length below.old) (length turns.old) (length scratch.old) }
        ensures { RunsStmt self.now k (Case selector branches other) at (frame_in visible.old own.old) result
            (frame_in visible.new own.new) }
    {
        match self.value(selector, at.first, visible, own, scratch) {
            Ok(v) => match self.branch_of(branches, v) {
                Some(body) => {
                    let body = body.before(k);
                    self.run_list(body, at, visible, own, below, turns, scratch)
                }
                None => {
                    let body = other.before(k);
                    self.run_list(body, at, visible, own, below, turns, scratch)
                }
            },
            Err(stop) => Err(stop),
        }
    }

    /// Runs a FOR, the statement of this number.
    #[cycle(run)]
    fn run_counted(
        &self,
        k: usize,
        counting: &Counting,
        body: List,
        place: Place,
        at: At,
        visible: &mut [i64],
        own: &mut [Option<i64>],
        below: &mut [Option<i64>],
        turns: &mut [Turn],
        scratch: &mut [i64],
    ) -> Result<Flow, Stop>
        requires { HasRoom self.now at (length below.old) (length turns.old) (length scratch.old) }
        ensures { RunsStmt self.now k (For counting.now body place) at (frame_in visible.old own.old) result
            (frame_in visible.new own.new) }
    {
        match self.begin(counting, at.first, visible, own, scratch) {
            Ok(begun) => {
                let body = body.before(k);
                self.run_for(
                    body, &begun, counting, place, at, visible, own, below, turns, scratch,
                )
            }
            Err(stop) => Err(stop),
        }
    }

    /// Runs a WHILE.
    #[cycle(run)]
    fn run_while(
        &self,
        body: List,
        condition: usize,
        place: Place,
        at: At,
        visible: &mut [i64],
        own: &mut [Option<i64>],
        below: &mut [Option<i64>],
        turns: &mut [Turn],
        scratch: &mut [i64],
    ) -> Result<Flow, Stop>
        requires { HasRoom self.now at (length below.old) (length turns.old) (length scratch.old) }
        ensures { RunsWhile self.now body condition place at (frame_in visible.old own.old) result
            (frame_in visible.new own.new) }
    {
        for turn in 0..self.bound {
            match self.holds(condition, at.first, visible, own, scratch) {
                Ok(true) => {}
                Ok(false) => return Ok(Flow::Normal),
                Err(stop) => return Err(stop),
            }
            match self.run_list(body, at, visible, own, below, turns, scratch) {
                Ok(flow) => {
                    if let Some(end) = flow.behind_turn() {
                        return Ok(end);
                    }
                }
                Err(stop) => return Err(stop),
            }
        }
        match self.holds(condition, at.first, visible, own, scratch) {
            Ok(true) => Err(Stop::Over(place)),
            Ok(false) => Ok(Flow::Normal),
            Err(stop) => Err(stop),
        }
    }

    /// Runs a REPEAT.
    #[cycle(run)]
    fn run_repeat(
        &self,
        body: List,
        condition: usize,
        place: Place,
        at: At,
        visible: &mut [i64],
        own: &mut [Option<i64>],
        below: &mut [Option<i64>],
        turns: &mut [Turn],
        scratch: &mut [i64],
    ) -> Result<Flow, Stop>
        requires { HasRoom self.now at (length below.old) (length turns.old) (length scratch.old) }
        ensures { RunsRepeat self.now body condition place at (frame_in visible.old own.old) result
            (frame_in visible.new own.new) }
    {
        for turn in 0..self.bound {
            match self.run_list(body, at, visible, own, below, turns, scratch) {
                Ok(flow) => {
                    if let Some(end) = flow.behind_turn() {
                        return Ok(end);
                    }
                }
                Err(stop) => return Err(stop),
            }
            match self.holds(condition, at.first, visible, own, scratch) {
                Ok(true) => return Ok(Flow::Normal),
                Ok(false) => {}
                Err(stop) => return Err(stop),
            }
        }
        Err(Stop::Over(place))
    }

    /// Runs a FOR that has begun.
    #[cycle(run)]
    fn run_for(
        &self,
        body: List,
        begun: &Begun,
        counting: &Counting,
        place: Place,
        at: At,
        visible: &mut [i64],
        own: &mut [Option<i64>],
        below: &mut [Option<i64>],
        turns: &mut [Turn],
        scratch: &mut [i64],
    ) -> Result<Flow, Stop>
        requires room { HasRoom self.now at (length below.old) (length turns.old) (length scratch.old) }
        requires spot { IsSpot begun.now.spot }
        ensures { RunsFor self.now body begun.now counting.now.variable_place counting.now.by place at
            (frame_in visible.old own.old) result (frame_in visible.new own.new) }
    {
        let mut count = i128::from(begun.count);
        for turn in 0..self.bound {
            if !is_on_the_way(counting, count, begun) {
                return Ok(Flow::Normal);
            }
            match self.run_list(body, at, visible, own, below, turns, scratch) {
                Ok(flow) => {
                    if let Some(end) = flow.behind_turn() {
                        return Ok(end);
                    }
                }
                Err(stop) => return Err(stop),
            }
            match self.step(begun, counting, at.first, visible, own) {
                Ok(next) => count = next,
                Err(stop) => return Err(stop),
            }
        }
        if is_on_the_way(counting, count, begun) {
            Err(Stop::Over(place))
        } else {
            Ok(Flow::Normal)
        }
    }

    /// Runs a call, and answers the value of the function, if it has one.
    #[cycle(run)]
    fn run_call(
        &self,
        c: usize,
        at: At,
        visible: &mut [i64],
        own: &mut [Option<i64>],
        below: &mut [Option<i64>],
        turns: &mut [Turn],
        scratch: &mut [i64],
    ) -> Result<Option<i64>, Stop>
        requires { HasRoom self.now at (length below.old) (length turns.old) (length scratch.old) }
        ensures { RunsCall self.now c at (frame_in visible.old own.old) result (frame_in visible.new own.new) }
    {
        match self.started(c, at) {
            Some(started) => self.run_block(&started, at, visible, own, below, turns, scratch),
            None => Ok(None),
        }
    }

    /// Runs a called block: parameters in, its body, parameters out.
    #[cycle(run)]
    fn run_block(
        &self,
        started: &Started,
        at: At,
        visible: &mut [i64],
        own: &mut [Option<i64>],
        below: &mut [Option<i64>],
        turns: &mut [Turn],
        scratch: &mut [i64],
    ) -> Result<Option<i64>, Stop>
        requires room { HasRoom self.now at (length below.old) (length turns.old) (length scratch.old) }
        requires calls { at.calls ≡ started.now.at.calls + 1 }
        requires short { statements_end started.now.code.body < 2 ^ 63 }
        requires first { started.now.at.first + started.now.at.calls * 2 ^ 16 < 2 ^ 32 }
        ensures { RunsBegun self.now started.now at (frame_in visible.old own.old) result (frame_in visible.new own.new) }
    {
        let Started {
            call,
            code,
            at: inside,
        } = *started;
        let (inner, rest) = below.split_at_mut(self.width(code.brief));
        clear(inner);
        match self.hand_in(
            call.inward,
            at.first,
            inside.first,
            visible,
            own,
            inner,
            scratch,
        ) {
            Ok(()) => {}
            Err(stop) => return Err(stop),
        }
        match self.run_body(code.body, inside, visible, inner, rest, turns, scratch) {
            Ok(()) => {}
            Err(stop) => return Err(stop),
        }
        match self.hand_out(
            call.outward,
            call.place,
            at.first,
            inside.first,
            visible,
            own,
            inner,
            scratch,
        ) {
            Ok(()) => Ok(value_at(inner, code.value)),
            Err(stop) => Err(stop),
        }
    }

    /// Runs a body. One of instructions takes some of the turns for itself.
    #[cycle(run)]
    fn run_body(
        &self,
        body: Body,
        at: At,
        visible: &mut [i64],
        own: &mut [Option<i64>],
        below: &mut [Option<i64>],
        turns: &mut [Turn],
        scratch: &mut [i64],
    ) -> Result<(), Stop>
        requires room { HasRoom self.now at (length below.old) (length turns.old) (length scratch.old) }
        requires turns { (at.calls + 1) * self.now.ranges ≤ length turns.old }
        ensures { RunsCode self.now body at (frame_in visible.old own.old) result
            (frame_in visible.new own.new) }
    {
        match body {
            Body::Statements(list) => {
                match self.run_list(list, at, visible, own, below, turns, scratch) {
                    Ok(_) => Ok(()),
                    Err(stop) => Err(stop),
                }
            }
            Body::Instructions(span) => {
                self.run_instrs(span, at, visible, own, below, turns, scratch)
            }
        }
    }

    /// Runs the instructions of a body: up to each call, which is made, and on behind it.
    #[cycle(run)]
    fn run_instrs(
        &self,
        span: Span,
        at: At,
        visible: &mut [i64],
        own: &mut [Option<i64>],
        below: &mut [Option<i64>],
        turns: &mut [Turn],
        scratch: &mut [i64],
    ) -> Result<(), Stop>
        requires room { HasRoom self.now at (length below.old) (length turns.old) (length scratch.old) }
        requires turns { (at.calls + 1) * self.now.ranges ≤ length turns.old }
        ensures { RunsInstrs self.now span at (frame_in visible.old own.old) result
            (frame_in visible.new own.new) }
    {
        let code = self.instrs_in(span);
        let (its, rest) = turns.split_at_mut(self.own_turns(turns.len()));
        let mut going = match Going::begin(code, self.bound, its) {
            Ok(going) => going,
            Err(stop) => return Err(Stop::of(stop)),
        };
        let targets = self.targets.as_slice();
        let types = self.types.as_slice();
        loop {
            match going.go(
                code, self.bound, targets, types, at.first, its, visible, own, scratch,
            ) {
                Ok(Some(call)) => {
                    match self.run_call(call, at, visible, own, below, rest, scratch) {
                        Ok(_) => {}
                        Err(stop) => return Err(stop),
                    }
                    match going.behind_call(code, self.bound, its) {
                        Ok(true) => {}
                        Ok(false) => return Ok(()),
                        Err(stop) => return Err(Stop::of(stop)),
                    }
                }
                Ok(None) => return Ok(()),
                Err(stop) => return Err(Stop::of(stop)),
            }
        }
    }

    /// Runs the block that is entered, from visible cells with these values. Where it stops, no clause says what is left in them.
    ///
    /// `brief` has room for the brief cells of eight blocks, `turns` for the ranges of as many, and `scratch` for the values of an expression; what they hold doesn't matter.
    pub fn run(
        &self,
        visible: &mut [i64],
        brief: &mut [Option<i64>],
        turns: &mut [Turn],
        scratch: &mut [i64],
    ) -> Result<(), Stop>
        requires brief { (most_calls + 1) * self.now.widest ≤ length brief.old }
        requires turns { (most_calls + 1) * self.now.ranges ≤ length turns.old }
        requires scratch { self.now.scratch ≤ length scratch.old }
        ensures { (source : Source) → IsProgram source self.now
            → end_in (λ done. visible.new) result ≡ (scan_from source most_calls visible.old).end }
    {
        let Some(code) = self.code(self.entry) else {
            return Ok(());
        };
        let (own, below) = brief.split_at_mut(self.width(code.brief));
        clear(own);
        let at = At {
            first: 0,
            calls: MOST_CALLS,
        };
        self.run_body(code.body, at, visible, own, below, turns, scratch)
    }
}
