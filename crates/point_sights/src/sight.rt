// What an expression sees of a plan at a point.
use arm_env::entries::{Declared, Entries};
use arm_env::env::Looping;
use arm_env::stop::Stop;
use arm_ids::{Key, Place};
use arm_value::{Text, Value};
use plan_listing::words::TypeTexts;
use plan_names::look::look_named;
use plan_nested::look::look_deployment;
use plan_table::table::Table;
use plan_telling::lacking::{
    Lacking, await_deployment, await_named, await_output, await_outputs, await_parameter,
    await_state, await_variable, lacking_of,
};
use point_rows::later::Later;
use point_rows::look::{look_parameter, look_variable};
use point_rows::outputs::{look_output, look_outputs};
use point_rows::states::look_state;
use std::alloc::Global;
use std::marker::Model;

/// What an expression sees of a plan at a point, by where it is.
#[derive(Drop)]
pub struct Sight<'t, 'a> {
    /// The table of the start.
    pub table: &'t Table<'a>,
    /// What became known later.
    pub later: &'t Later,
    /// The texts of types.
    pub types: &'t TypeTexts,
    /// The number of the frame of its scope.
    pub frame: usize,
    /// The place of its scope.
    pub place: &'t Place,
    /// The loops around, the nearest first.
    pub loops: &'t [Looping],
    /// Whether a text of `reference` that is no id names a resource; else it means nothing.
    pub by_names: bool,
}

impl<'t, 'a> Model for Sight<'t, 'a> {
    ghost use Rattle.std.specs.Coded.{codes};
    ghost use Rattle.arm_value.specs.JsonCode.{json_code};
    ghost use Rattle.template_tree.specs.TreeCode.{resource_code};
    ghost use Rattle.plan_telling.specs.Seats.{Seat};
    ghost use Rattle.point_sights.specs.PointSeats.{IsSeatedNow, seat_now};

    ghost Value = { Seat };

    ghost coded = { Prim.hlevel (codes, json_code, resource_code) };

    ghost view = { λ s. seat_now s.table.now s.later.now s.frame s.place.now s.loops.now s.by_names };

    ghost invariant = { λ s. IsSeatedNow s.table.now s.later.now s.frame };
}

impl<'t, 'a> Entries for Sight<'t, 'a> {
    ghost use Rattle.plan_telling.specs.Seats.{known_in};

    ghost known = { known_in };

    fn parameter<'b>(&'b self, alloc: Global, name: &Text) -> Result<&'b Value, Stop> {
        match look_parameter(alloc, self.table, self.later, self.frame, name) {
            Ok(value) => Ok(value),
            Err(lack) => match lacking_of(lack) {
                Lacking::Nothing => Err(Stop::NoValue),
                Lacking::Missing => Err(await_parameter(alloc, name)),
                Lacking::OutOfMemory => Err(Stop::OutOfMemory),
            },
        }
    }

    fn variable<'b>(&'b self, alloc: Global, name: &Text) -> Result<&'b Value, Stop> {
        match look_variable(alloc, self.table, self.later, self.frame, name) {
            Ok(value) => Ok(value),
            Err(lack) => match lacking_of(lack) {
                Lacking::Nothing => Err(Stop::NoValue),
                Lacking::Missing => Err(await_variable(alloc, name)),
                Lacking::OutOfMemory => Err(Stop::OutOfMemory),
            },
        }
    }

    fn output<'b>(&'b self, alloc: Global, key: &Key, name: &Text) -> Result<&'b Value, Stop> {
        match look_output(
            alloc, self.table, self.later, self.frame, self.place, key, name,
        ) {
            Ok(value) => Ok(value),
            Err(lack) => match lacking_of(lack) {
                Lacking::Nothing => Err(Stop::NoValue),
                Lacking::Missing => Err(await_output(alloc, key, name)),
                Lacking::OutOfMemory => Err(Stop::OutOfMemory),
            },
        }
    }

    fn state<'b>(&'b self, alloc: Global, key: &Key) -> Result<&'b Value, Stop> {
        match look_state(alloc, self.later, key) {
            Ok(value) => Ok(value),
            Err(lack) => match lacking_of(lack) {
                Lacking::Nothing => Err(Stop::NoValue),
                Lacking::Missing => Err(await_state(alloc, key)),
                Lacking::OutOfMemory => Err(Stop::OutOfMemory),
            },
        }
    }

    fn named(&self, alloc: Global, text: &Text) -> Result<Key, Stop> {
        if !self.by_names {
            return Err(Stop::NoValue);
        }
        match look_named(alloc, self.table, self.frame, self.place, text) {
            Ok(key) => Ok(key),
            Err(lack) => match lacking_of(lack) {
                Lacking::Nothing => Err(Stop::NoValue),
                Lacking::Missing => Err(await_named(alloc, text)),
                Lacking::OutOfMemory => Err(Stop::OutOfMemory),
            },
        }
    }

    fn is_deployment(&self, alloc: Global, key: &Key) -> Result<bool, Stop> {
        match look_deployment(alloc, self.table, self.frame, self.place, key) {
            Ok(truth) => Ok(truth),
            Err(lack) => match lacking_of(lack) {
                Lacking::Nothing => Err(Stop::NoValue),
                Lacking::Missing => Err(await_deployment(alloc, key)),
                Lacking::OutOfMemory => Err(Stop::OutOfMemory),
            },
        }
    }

    fn outputs<'b>(&'b self, alloc: Global, key: &Key) -> Result<Vec<Declared<'b>>, Stop> {
        match look_outputs(
            alloc, self.table, self.later, self.types, self.frame, self.place, key,
        ) {
            Ok(outputs) => Ok(outputs),
            Err(lack) => match lacking_of(lack) {
                Lacking::Nothing => Err(Stop::NoValue),
                Lacking::Missing => Err(await_outputs(alloc, key)),
                Lacking::OutOfMemory => Err(Stop::OutOfMemory),
            },
        }
    }
}
