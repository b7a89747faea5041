// A cell gets its value, and the cells that this opens are listed.
ghost use Rattle.std.specs.Prelude.{◌≡◌, ◌≢◌, ◌+◌, ◌<◌, ◌≤◌, ◌^◌, ◌++◌, ◌∷◌, [], map, length, IfOk, IfErr, Some, None};
ghost use Rattle.std.specs.Prelude.{slice_get, true, false};
ghost use Rattle.reading.specs.World.{Each};
ghost use Rattle.arm_value.specs.Json.{Json};
ghost use Rattle.arm_value.specs.View.{json};
ghost use Rattle.plan_filling.specs.Cells.{copies};
ghost use Rattle.plan_filling.specs.Resources as cells;
ghost use Rattle.plan_filling.specs.Children.{children};
ghost use Rattle.plan_filling.specs.Rows.{row_at, with_status, with_value, fresh, IsUnfinished, AreDistinct};
ghost use Rattle.plan_filling.specs.Limits.{IsHalt};
ghost use Rattle.plan_filling.specs.declared.sheet.Halt.TheVariants as halt;
ghost use Rattle.plan_table.specs.declared.line.State.TheVariants as how;
ghost use Rattle.plan_table.specs.declared.line.Spot.TheVariants as spot;
ghost use Rattle.plan_table.specs.Opened.{opened_of, opened_at, inside_of, nested_view};
ghost use Rattle.plan_table.specs.Lines.{IsPlaced, line_at, new_line, with_state};
ghost use Rattle.plan_table.specs.Keys.{Indexes};
ghost use Rattle.plan_table.specs.Spots.{scope_spots};
ghost use Rattle.plan_table.specs.Laid.{IsAlone};
ghost use Rattle.plan_table.specs.Whole.{whole_of, scopes_of, rows_in, IsLaid};
ghost use Rattle.plan_table.specs.Counted.{IsCounted, AreNumbers, numbers_of};
ghost use Rattle.arm_value.specs.Kinds.{is_true};

use crate::counting::{add_instances, counted};
use crate::frame::{Frame, Instance, frame_inside};
use crate::line::{Line, Spot, State};
use crate::listing::{Index, list_spots};
use crate::marks::set_state;
use crate::spots::{spots_of_instances, spots_of_scope};
use crate::table::Table;
use arm_value::{OutOfMemory, Value};
use plan_filling::sheet::Halt;
use std::alloc::Global;
use template_parts::{Which, run_out};
use template_tree::{Body, Deployment};

// The most lines.
const MAX_LINES: usize = 4294967296;

// Halts; the part is dropped.
fn halted<T: Drop>(halt: Halt, _part: T) -> Result<(), Halt>
    ensures never { IfOk result (λ _. ⊥) }
    ensures halt { IfErr result (λ h. h ≡ halt) }
{
    Err(halt)
}

// Whether the value is true.
fn is_true(value: &Value) -> bool
    ensures { result ≡ is_true (Some (json value.now)) }
{
    match value {
        Value::Bool(truth) => *truth,
        _ => false,
    }
}

// Gives a line its value, and lists the cells of these spots last.
fn list_after(
    alloc: Global,
    frames: &[Frame],
    lines: &mut Vec<Line>,
    index: &mut Index,
    at: usize,
    filled: (Value, usize),
    spots: &[Spot],
) -> Result<(), Halt>
    requires listed { at < length lines.old.items }
    requires placed { Each (IsPlaced (map opened_of frames.now)) spots.now }
    requires indexed { Indexes (map opened_of frames.now) index.old lines.old.items }
    ensures listed { IfOk result (λ _. lines.new.items
        ≡ with_state lines.old.items at (how.Value filled.0) filled.1 ++ map new_line spots.now) }
    ensures indexed { IfOk result (λ _. Indexes (map opened_of frames.now) index.new lines.new.items) }
    ensures few { IfOk result (λ _. length lines.new.items ≤ 2 ^ 32) }
    ensures memory { IfErr result (λ h. h ≡ halt.OutOfMemory) }
{
    let count = lines.len();
    if count > MAX_LINES || spots.len() > MAX_LINES - count {
        return halted(Halt::OutOfMemory, filled);
    }
    set_state(lines, at, State::Value(filled.0), filled.1);
    match list_spots(alloc, frames, lines, index, spots) {
        Ok(()) => Ok(()),
        Err(_) => Err(Halt::OutOfMemory),
    }
}

impl<'a> Table<'a> {
    // Gives a cell a value that opens nothing.
    fn fill_alone(&mut self, at: usize, value: Value)
        requires listed { at < length self.old.lines.items }
        requires laid { IsLaid self.old }
        requires counted { IsCounted self.old }
        requires unfinished { IsUnfinished (row_at (rows_in self.old) at).status }
        requires alone { IsAlone (scopes_of self.old) (line_at self.old.lines.items at).spot (json value) }
        ensures same { whole_of self.new ≡ whole_of self.old }
        ensures laid { IsLaid self.new }
        ensures counted { IsCounted self.new }
        ensures filled { rows_in self.new ≡ with_status (rows_in self.old) at (with_value (json value))
            ++ map fresh (children (whole_of self.old) (row_at (rows_in self.old) at).cell (json value)) }
        ensures few { length (rows_in self.new) ≡ length (rows_in self.old) }
    {
        set_state(&mut self.lines, at, State::Value(value), 0);
    }

    // Gives a count its value, and lists this many instances.
    fn list_instances(
        &mut self,
        alloc: Global,
        at: usize,
        frame: usize,
        resource: usize,
        count: usize,
        value: Value,
    ) -> Result<(), Halt>
        requires listed { at < length self.old.lines.items }
        requires laid { IsLaid self.old }
        requires counted { AreNumbers (scopes_of self.old)
            (with_state self.old.lines.items at (how.Value value) 0) (numbers_of self.old) }
        requires spot { (line_at self.old.lines.items at).spot ≡ spot.Count frame resource }
        requires number { count ≡ copies (Some (json value)) }
        requires few { count ≤ 800 }
        ensures same { whole_of self.new ≡ whole_of self.old }
        ensures laid { IfOk result (λ _. IsLaid self.new) }
        ensures filled { IfOk result (λ _. rows_in self.new
            ≡ with_status (rows_in self.old) at (with_value (json value))
            ++ map fresh (children (whole_of self.old) (row_at (rows_in self.old) at).cell (json value))) }
        ensures few { IfOk result (λ _. length (rows_in self.new) ≤ 2 ^ 32) }
        ensures counted { IfOk result (λ _. IsCounted self.new) }
        ensures memory { IfErr result (λ h. h ≡ halt.OutOfMemory) }
    {
        match spots_of_instances(alloc, frame, resource, count) {
            Err(_) => halted(Halt::OutOfMemory, value),
            Ok(spots) => {
                let frames = self.frames.as_slice();
                let listed = spots.as_slice();
                list_after(
                    alloc,
                    frames,
                    &mut self.lines,
                    &mut self.index,
                    at,
                    (value, 0),
                    listed,
                )
            }
        }
    }

    // Gives a count its value, and lists this many instances, unless they are too many.
    fn fill_counted(
        &mut self,
        alloc: Global,
        at: usize,
        frame: usize,
        resource: usize,
        count: usize,
        value: Value,
    ) -> Result<(), Halt>
        requires listed { at < length self.old.lines.items }
        requires laid { IsLaid self.old }
        requires counted { IsCounted self.old }
        requires distinct { AreDistinct (rows_in self.old) }
        requires unfinished { IsUnfinished (row_at (rows_in self.old) at).status }
        requires spot { (line_at self.old.lines.items at).spot ≡ spot.Count frame resource }
        requires number { count ≡ copies (Some (json value)) }
        requires few { count ≤ 800 }
        ensures same { whole_of self.new ≡ whole_of self.old }
        ensures laid { IfOk result (λ _. IsLaid self.new) }
        ensures filled { IfOk result (λ _. rows_in self.new
            ≡ with_status (rows_in self.old) at (with_value (json value))
            ++ map fresh (children (whole_of self.old) (row_at (rows_in self.old) at).cell (json value))) }
        ensures few { IfOk result (λ _. length (rows_in self.new) ≤ 2 ^ 32) }
        ensures counted { IfOk result (λ _. IsCounted self.new) }
        ensures halted { IfErr result (IsHalt (rows_in self.old) (row_at (rows_in self.old) at).cell (json value)) }
    {
        match add_instances(&mut self.counts, &mut self.instances, frame, count) {
            Err(halt) => halted(halt, value),
            Ok(()) => self.list_instances(alloc, at, frame, resource, count, value),
        }
    }

    // Gives a count its value, and lists the instances.
    fn fill_count(
        &mut self,
        alloc: Global,
        at: usize,
        frame: usize,
        resource: usize,
        value: Value,
    ) -> Result<(), Halt>
        requires listed { at < length self.old.lines.items }
        requires laid { IsLaid self.old }
        requires counted { IsCounted self.old }
        requires distinct { AreDistinct (rows_in self.old) }
        requires unfinished { IsUnfinished (row_at (rows_in self.old) at).status }
        requires spot { (line_at self.old.lines.items at).spot ≡ spot.Count frame resource }
        ensures same { whole_of self.new ≡ whole_of self.old }
        ensures laid { IfOk result (λ _. IsLaid self.new) }
        ensures filled { IfOk result (λ _. rows_in self.new
            ≡ with_status (rows_in self.old) at (with_value (json value))
            ++ map fresh (children (whole_of self.old) (row_at (rows_in self.old) at).cell (json value))) }
        ensures few { IfOk result (λ _. length (rows_in self.new) ≤ 2 ^ 32) }
        ensures counted { IfOk result (λ _. IsCounted self.new) }
        ensures halted { IfErr result (IsHalt (rows_in self.old) (row_at (rows_in self.old) at).cell (json value)) }
    {
        match counted(&value) {
            Err(count) => halted(Halt::Limit(Which::Count, count), value),
            Ok(count) => self.fill_counted(alloc, at, frame, resource, count, value),
        }
    }

    // Gives the condition of an output its value, and lists the output where this is true.
    fn fill_offered(
        &mut self,
        alloc: Global,
        at: usize,
        frame: usize,
        number: usize,
        value: Value,
    ) -> Result<(), Halt>
        requires listed { at < length self.old.lines.items }
        requires laid { IsLaid self.old }
        requires counted { IsCounted self.old }
        requires unfinished { IsUnfinished (row_at (rows_in self.old) at).status }
        requires few { length (rows_in self.old) ≤ 2 ^ 32 }
        requires spot { (line_at self.old.lines.items at).spot ≡ spot.Offered frame number }
        ensures same { whole_of self.new ≡ whole_of self.old }
        ensures laid { IfOk result (λ _. IsLaid self.new) }
        ensures filled { IfOk result (λ _. rows_in self.new
            ≡ with_status (rows_in self.old) at (with_value (json value))
            ++ map fresh (children (whole_of self.old) (row_at (rows_in self.old) at).cell (json value))) }
        ensures few { IfOk result (λ _. length (rows_in self.new) ≤ 2 ^ 32) }
        ensures counted { IfOk result (λ _. IsCounted self.new) }
        ensures memory { IfErr result (λ h. h ≡ halt.OutOfMemory) }
    {
        if is_true(&value) {
            let spots = [Spot::Output(frame, number)];
            let frames = self.frames.as_slice();
            list_after(
                alloc,
                frames,
                &mut self.lines,
                &mut self.index,
                at,
                (value, 0),
                &spots,
            )
        } else {
            self.fill_alone(at, value);
            Ok(())
        }
    }

    // Adds the frame of the scope that an instance opens, and returns the spots of its cells.
    fn add_frame(
        &mut self,
        alloc: Global,
        around: usize,
        instance: Instance,
        deployment: &'a Deployment,
    ) -> Result<Vec<Spot>, OutOfMemory>
        requires around { around < length self.old.frames.items }
        requires resource { (x : cells.Listed)
            × (slice_get (opened_at (scopes_of self.old) around).resources instance.resource ≡ Some x) }
        requires copy { instance.copy < 800 }
        ensures template { self.new.template ≡ self.old.template }
        ensures bound { self.new.bound ≡ self.old.bound }
        ensures place { self.new.place ≡ self.old.place }
        ensures lines { self.new.lines ≡ self.old.lines }
        ensures index { self.new.index ≡ self.old.index }
        ensures counts { IfOk result (λ _. self.new.counts.items ≡ self.old.counts.items ++ 0 ∷ []) }
        ensures instances { self.new.instances ≡ self.old.instances }
        ensures added { IfOk result (λ _. (x : cells.Listed)
            → slice_get (opened_at (scopes_of self.old) around).resources instance.resource ≡ Some x
            → scopes_of self.new ≡ scopes_of self.old ++ inside_of around (length self.old.frames.items)
            (opened_at (scopes_of self.old) around) x instance.resource instance.copy (nested_view deployment.now)
            ∷ []) }
        ensures spots { IfOk result (λ s. s.items ≡ scope_spots (length self.old.frames.items)
            (opened_at (scopes_of self.new) (length self.old.frames.items))) }
    {
        let number = self.frames.len();
        let opened = frame_inside(
            alloc,
            &self.frames[around],
            around,
            number,
            instance,
            deployment,
        )?;
        match spots_of_scope(alloc, number, &opened) {
            Err(_) => run_out(opened),
            Ok(spots) => match self.frames.push(opened) {
                Err(refused) => run_out((refused, spots)),
                Ok(()) => match self.counts.push(0) {
                    Ok(()) => Ok(spots),
                    Err(_) => run_out(spots),
                },
            },
        }
    }

    // Opens the scope of an instance of a nested deployment that is included.
    fn open_scope(
        &mut self,
        alloc: Global,
        at: usize,
        around: usize,
        instance: Instance,
        deployment: &'a Deployment,
        value: Value,
    ) -> Result<(), Halt>
        requires listed { at < length self.old.lines.items }
        requires laid { IsLaid self.old }
        requires counted { IsCounted self.old }
        requires unfinished { IsUnfinished (row_at (rows_in self.old) at).status }
        requires spot { (line_at self.old.lines.items at).spot
            ≡ spot.Included around instance.resource instance.copy }
        requires opens { (x : cells.Listed)
            × ((slice_get (opened_at (scopes_of self.old) around).resources instance.resource ≡ Some x)
            × (cells.nested_in x.content ≡ Some (nested_view deployment.now))) }
        requires included { is_true (Some (json value)) ≡ true }
        ensures same { whole_of self.new ≡ whole_of self.old }
        ensures laid { IfOk result (λ _. IsLaid self.new) }
        ensures filled { IfOk result (λ _. rows_in self.new
            ≡ with_status (rows_in self.old) at (with_value (json value))
            ++ map fresh (children (whole_of self.old) (row_at (rows_in self.old) at).cell (json value))) }
        ensures few { IfOk result (λ _. length (rows_in self.new) ≤ 2 ^ 32) }
        ensures counted { IfOk result (λ _. IsCounted self.new) }
        ensures memory { IfErr result (λ h. h ≡ halt.OutOfMemory) }
    {
        let number = self.frames.len();
        match self.add_frame(alloc, around, instance, deployment) {
            Err(_) => halted(Halt::OutOfMemory, value),
            Ok(spots) => {
                let frames = self.frames.as_slice();
                let listed = spots.as_slice();
                list_after(
                    alloc,
                    frames,
                    &mut self.lines,
                    &mut self.index,
                    at,
                    (value, number),
                    listed,
                )
            }
        }
    }

    // Gives the condition of an instance its value, and opens its scope where it is a nested deployment that is
    // included.
    fn fill_included(
        &mut self,
        alloc: Global,
        at: usize,
        frame: usize,
        instance: Instance,
        value: Value,
    ) -> Result<(), Halt>
        requires listed { at < length self.old.lines.items }
        requires laid { IsLaid self.old }
        requires counted { IsCounted self.old }
        requires unfinished { IsUnfinished (row_at (rows_in self.old) at).status }
        requires few { length (rows_in self.old) ≤ 2 ^ 32 }
        requires spot { (line_at self.old.lines.items at).spot
            ≡ spot.Included frame instance.resource instance.copy }
        ensures same { whole_of self.new ≡ whole_of self.old }
        ensures laid { IfOk result (λ _. IsLaid self.new) }
        ensures filled { IfOk result (λ _. rows_in self.new
            ≡ with_status (rows_in self.old) at (with_value (json value))
            ++ map fresh (children (whole_of self.old) (row_at (rows_in self.old) at).cell (json value))) }
        ensures few { IfOk result (λ _. length (rows_in self.new) ≤ 2 ^ 32) }
        ensures counted { IfOk result (λ _. IsCounted self.new) }
        ensures memory { IfErr result (λ h. h ≡ halt.OutOfMemory) }
    {
        if !is_true(&value) {
            self.fill_alone(at, value);
            return Ok(());
        }
        let body: &'a Body = self.frames[frame].resources[instance.resource].body;
        match body {
            Body::Deployment(deployment) => {
                self.open_scope(alloc, at, frame, instance, deployment, value)
            }
            Body::Members(_) => {
                self.fill_alone(at, value);
                Ok(())
            }
        }
    }

    /// Gives the cell its value, and lists the cells that this opens.
    pub fn fill(&mut self, alloc: Global, at: usize, value: Value) -> Result<(), Halt>
        requires listed { at < length (rows_in self.old) }
        requires laid { IsLaid self.old }
        requires counted { IsCounted self.old }
        requires distinct { AreDistinct (rows_in self.old) }
        requires unfinished { IsUnfinished (row_at (rows_in self.old) at).status }
        requires few { length (rows_in self.old) ≤ 2 ^ 32 }
        ensures same { whole_of self.new ≡ whole_of self.old }
        ensures laid { IfOk result (λ _. IsLaid self.new) }
        ensures filled { IfOk result (λ _. rows_in self.new
            ≡ with_status (rows_in self.old) at (with_value (json value))
            ++ map fresh (children (whole_of self.old) (row_at (rows_in self.old) at).cell (json value))) }
        ensures few { IfOk result (λ _. length (rows_in self.new) ≤ 2 ^ 32) }
        ensures counted { IfOk result (λ _. IsCounted self.new) }
        ensures halted { IfErr result (IsHalt (rows_in self.old) (row_at (rows_in self.old) at).cell (json value)) }
    {
        match self.lines[at].spot {
            Spot::Count(frame, resource) => self.fill_count(alloc, at, frame, resource, value),
            Spot::Offered(frame, number) => self.fill_offered(alloc, at, frame, number, value),
            Spot::Included(frame, resource, copy) => {
                let instance = Instance { resource, copy };
                self.fill_included(alloc, at, frame, instance, value)
            }
            Spot::Parameter(_, _) | Spot::Variable(_, _) | Spot::Output(_, _) => {
                self.fill_alone(at, value);
                Ok(())
            }
            Spot::Name(_, _, _) | Spot::Deployments(_) => {
                self.fill_alone(at, value);
                Ok(())
            }
        }
    }
}
