//! A cloud of points in a shared array, with columns.
ghost use Rattle.std.specs.Prelude.{◌≡◌, ◌<◌, ◌^◌, [], None, length, is_some, IfSome, IfNone, IfOk, IfErr, OnOk, OnErr};
ghost use Rattle.gn_value.specs.declared.value.Place.TheVariants as place;
ghost use Rattle.gn_plain.specs.Columns.{count_of_values, entry_named, with_entry, without_entry};
ghost use Rattle.gn_attr.specs.Names.{plain_name};
ghost use Rattle.gn_attr.specs.Handles as handles;
ghost use Rattle.gn_attr.specs.Handles.{Owns};
ghost use Rattle.gn_attr.specs.Columns.{values_of};
ghost use Rattle.gn_attr.specs.Writing.{CanTake, IsWritten};
ghost use Rattle.gn_geometry.specs.Fits.{cloud_count, AreFitting};
ghost use Rattle.gn_geometry.specs.Notes.{noted_each, NotesFirst};
ghost use Rattle.gn_geometry.specs.Clouds.{cloud_copies, moved, with_columns, IsSole, IsTwinCloud, KeepsCloud};

use gn_attr::array::{array_of, own, second};
use gn_attr::{Column, Columns, Name, NoSpace};
use gn_memory::Memory;
use gn_shared::{Meter, SharedArray, USERS};
use gn_value::{Place, V3};
use std::alloc::Global;
use std::marker::Model;

/// Points, and columns of values for them.
#[derive(Drop)]
pub struct Cloud {
    pub(crate) points: SharedArray<V3, USERS>,
    columns: Columns,
}

impl Model for Cloud {
    ghost use Rattle.gn_geometry.specs.Clouds.{CloudView, IsCloud};

    ghost Value = { CloudView };

    ghost view = { λ c. record { points = c.points; columns = c.columns } };

    ghost invariant = { λ c. IsCloud (record { points = c.points; columns = c.columns }) };
}

impl Cloud {
    /// The cloud of these points, without columns. There are fewer than 2^32 points.
    pub fn from_points(alloc: Global, points: Vec<V3>) -> Result<Cloud, Memory>
        requires { length points.items < 2 ^ 32 }
        ensures points { IfOk result (λ c. c.points.items ≡ points.items) }
        ensures columns { IfOk result (λ c. c.columns ≡ []) }
        ensures sole { IfOk result IsSole }
    {
        Ok(Cloud {
            points: array_of(points)?,
            columns: Columns::new(alloc),
        })
    }

    /// Where the points are.
    pub fn points(&self) -> &[V3]
        ensures points { result.now ≡ self.now.points.items }
        ensures few { length result.now < 2 ^ 32 }
    {
        self.points.items()
    }

    /// Makes the handle on the positions the only one of its block, so that `sole_points` lends
    /// them: where the block has other handles, by a copy, which is noted.
    pub fn own_points<L>(&mut self, alloc: Global, meter: &mut Meter<L>) -> Result<(), Memory>
        ensures others { self.new ≡ moved self.old self.new.points }
        ensures items { self.new.points.items ≡ self.old.points.items }
        ensures sole { OnOk result (handles.IsSole self.new.points) }
        ensures noted { OnOk result (Owns self.old.points self.new.points meter.old meter.new) }
        ensures refused { OnErr result ((self.new ≡ self.old) × (meter.new ≡ meter.old)) }
    {
        own(alloc, &mut self.points, meter)
    }

    /// The columns. Each has a value for each point.
    pub fn columns(&self) -> &Columns
        ensures columns { result.now ≡ self.now.columns }
        ensures fit { AreFitting (cloud_count (length self.now.points.items)) result.now }
    {
        &self.columns
    }

    /// Puts columns in place of those that are there. Condition: they fit.
    pub fn set_columns(&mut self, columns: Columns)
        requires { AreFitting (cloud_count (length self.old.points.items)) columns }
        ensures { self.new ≡ with_columns self.old columns }
    {
        self.columns = columns;
    }

    /// Puts a column under a name. A new name goes last, and a known one keeps its number. A column
    /// of a known name takes no memory.
    ///
    /// Condition: the column has a value for each point.
    pub fn set_column(&mut self, name: Name, column: Column) -> Result<(), NoSpace>
        requires { length self.old.points.items ≡ count_of_values (values_of column) }
        ensures ok { OnOk result (self.new ≡ with_columns self.old (with_entry (record { name = plain_name name; place = place.Cloud; column = column }) self.old.columns)) }
        ensures is_new { OnErr result (entry_named (plain_name name) self.old.columns ≡ None) }
        ensures refused { OnErr result (self.new ≡ self.old) }
        ensures handed_back { IfErr result (λ e. (e.name ≡ name) × (e.column ≡ column)) }
    {
        self.columns.set(name, Place::Cloud, column)
    }

    /// Takes the column under a name away, and returns whether there was one. The columns behind it
    /// close up.
    pub fn remove_column(&mut self, name: &Name) -> bool
        ensures found { result ≡ is_some (entry_named (plain_name name.now) self.old.columns) }
        ensures removed { self.new ≡ with_columns self.old (without_entry (plain_name name.now) self.old.columns) }
    {
        self.columns.remove(name)
    }

    /// Puts values over those of the column under a name, where they are selected. The array is
    /// copied first where its block has other handles, and one copy is then noted.
    ///
    /// `None` comes exactly where there is no such name. Condition: the column of that name has the
    /// kind and the number of these values, and there is one truth of `selected` for each value.
    pub fn write_column<L>(
        &mut self,
        name: &Name,
        values: &Column,
        selected: &[bool],
        meter: &mut Meter<L>,
    ) -> Option<Result<(), Memory>>
        requires alike { CanTake (plain_name name.now) (values_of values.now) self.old.columns }
        requires selected { length selected.now ≡ count_of_values (values_of values.now) }
        ensures found { is_some result ≡ is_some (entry_named (plain_name name.now) self.old.columns) }
        ensures others { self.new ≡ with_columns self.old self.new.columns }
        ensures absent { IfNone result ((self.new ≡ self.old) × (meter.new ≡ meter.old)) }
        ensures written { IfSome result (λ r. OnOk r (IsWritten (plain_name name.now) selected.now (values_of values.now) self.old.columns self.new.columns meter.old meter.new)) }
        ensures refused { IfSome result (λ r. OnErr r ((self.new ≡ self.old) × (meter.new ≡ meter.old))) }
    {
        self.columns.write_column(name, values, selected, meter)
    }

    /// The same cloud once more: each array whose handle has more than one part is shared, and any
    /// other is copied, which is noted.
    pub fn second<L>(&mut self, alloc: Global, meter: &mut Meter<L>) -> Result<Cloud, Memory>
        ensures kept { KeepsCloud self.old self.new }
        ensures twin { IfOk result (IsTwinCloud self.old) }
        ensures noted { OnOk result (meter.new ≡ noted_each (cloud_copies self.old) meter.old) }
        ensures refused { OnErr result (NotesFirst (cloud_copies self.old) meter.old meter.new) }
    {
        let points = second(alloc, &mut self.points, meter)?;
        let columns = self.columns.second(meter)?;
        Ok(Cloud { points, columns })
    }
}
