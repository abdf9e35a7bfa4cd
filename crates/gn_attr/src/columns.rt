//! An ordered list of columns.
ghost use Rattle.std.specs.Prelude.{◌≡◌, [], length, slice_get, is_some, option_map, IfSome, IfNone, IfOk, IfErr, OnOk, OnErr};
ghost use Rattle.std.specs.List.{AllZip};
ghost use Rattle.gn_plain.specs.Columns.{count_of_values, entry_named, with_entry, without_entry};
ghost use Rattle.gn_attr.specs.Names.{plain_name};
ghost use Rattle.gn_attr.specs.Handles.{noted_if};
ghost use Rattle.gn_attr.specs.Columns.{values_of, found_of, one_part, KeepsEntry, IsTwinEntry, noted, NotesSome};
ghost use Rattle.gn_attr.specs.Writing.{CanTake, IsWritten};
ghost use Rattle.gn_attr.specs.Members.{entry_of};

use crate::column::Column;
use crate::name::Name;
use gn_memory::Memory;
use gn_shared::Meter;
use gn_value::Place;
use indexmap::IndexMap;
use std::alloc::Global;
use std::marker::Model;

/// There was no memory for one more name. The name and the column are handed back.
#[derive(Drop)]
pub struct NoSpace {
    pub name: Name,
    pub column: Column,
}

/// What there is under a name: the place of the elements, and their values.
#[derive(Drop)]
struct Member {
    place: Place,
    column: Column,
}

/// Columns under different names, in the order in which the names came.
#[derive(Drop)]
pub struct Columns {
    members: IndexMap<Name, Member>,
}

impl Model for Columns {
    ghost use Rattle.std.specs.Prelude.{List, map};
    ghost use Rattle.gn_plain.specs.Columns.{Entry};
    ghost use Rattle.gn_attr.specs.declared.column.Column.{Column};
    ghost use Rattle.gn_attr.specs.Members.{entry_of};

    ghost Value = { List (Entry Column) };

    ghost view = { λ c. map entry_of c.members.entries };
}

impl Columns {
    /// No columns.
    pub fn new(alloc: Global) -> Columns
        ensures { result ≡ [] }
    {
        Columns {
            members: IndexMap::new(alloc),
        }
    }

    /// How many columns there are.
    pub fn len(&self) -> usize
        ensures { result ≡ length self.now }
    {
        self.members.len()
    }

    /// The name, the place and the values of the column with a number, counted from 0. `None` comes
    /// exactly past the last one.
    pub fn entry(&self, at: usize) -> Option<(&Name, Place, &Column)>
        ensures { option_map (λ r. record { name = plain_name r.0.now; place = r.1; column = r.2.now }) result ≡ slice_get self.now at }
    {
        let (name, member) = self.members.get_index(at)?;
        Some((name, member.place, &member.column))
    }

    /// The place and the values of the column under a name. `None` comes exactly where there is no
    /// such name.
    pub fn get(&self, name: &Name) -> Option<(Place, &Column)>
        ensures { option_map (λ r. (r.0, r.1.now)) result ≡ option_map found_of (entry_named (plain_name name.now) self.now) }
    {
        let member = self.members.get(name)?;
        Some((member.place, &member.column))
    }

    /// Puts a column under a name. A new name goes last, and a known one keeps its number. A column
    /// of a known name takes no memory.
    pub fn set(&mut self, name: Name, place: Place, column: Column) -> Result<(), NoSpace>
        ensures ok { OnOk result (self.new ≡ with_entry (record { name = plain_name name; place = place; column = column }) self.old) }
        ensures is_new { OnErr result (entry_named (plain_name name) self.old ≡ None) }
        ensures refused { OnErr result (self.new ≡ self.old) }
        ensures handed_back { IfErr result (λ e. (e.name ≡ name) × (e.column ≡ column)) }
    {
        match self.members.insert(name, Member { place, column }) {
            Ok(_) => Ok(()),
            Err(failed) => {
                let (name, member) = failed.value;
                Err(NoSpace {
                    name,
                    column: member.column,
                })
            }
        }
    }

    /// Takes the column under a name away, and returns whether there was one. The columns behind it
    /// close up.
    pub fn remove(&mut self, name: &Name) -> bool
        ensures found { result ≡ is_some (entry_named (plain_name name.now) self.old) }
        ensures removed { self.new ≡ without_entry (plain_name name.now) self.old }
    {
        self.members.shift_remove(name).is_some()
    }

    /// The same columns once more: each array whose handle has more than one part is shared, and any
    /// other is copied, which is noted.
    pub fn second<L>(&mut self, meter: &mut Meter<L>) -> Result<Columns, Memory>
        ensures kept { AllZip KeepsEntry self.old self.new }
        ensures twins { IfOk result (AllZip IsTwinEntry self.old) }
        ensures noted { OnOk result (meter.new ≡ noted self.old meter.old) }
        ensures refused { OnErr result (NotesSome self.old meter.old meter.new) }
    {
        let alloc = *self.members.allocator();
        let mut members = IndexMap::with_capacity(alloc, self.members.len())?;
        for at in 0..self.members.len() {
            let (name, member) = self.members.pair_mut(at);
            let (name, twin) = second_member(alloc, name, member, meter)?;
            members.insert(name, twin)?;
        }
        Ok(Columns { members })
    }

    /// Puts values over those of the column under a name, where they are selected. The array is
    /// copied first where its block has other handles, and one copy is then noted.
    ///
    /// `None` comes exactly where there is no such name. Condition: the column of that name has the
    /// kind and the number of these values, and there is one truth of `selected` for each value.
    pub fn write_column<L>(
        &mut self,
        name: &Name,
        values: &Column,
        selected: &[bool],
        meter: &mut Meter<L>,
    ) -> Option<Result<(), Memory>>
        requires alike { CanTake (plain_name name.now) (values_of values.now) self.old }
        requires selected { length selected.now ≡ count_of_values (values_of values.now) }
        ensures found { is_some result ≡ is_some (entry_named (plain_name name.now) self.old) }
        ensures absent { IfNone result ((self.new ≡ self.old) × (meter.new ≡ meter.old)) }
        ensures written { IfSome result (λ r. OnOk r (IsWritten (plain_name name.now) selected.now (values_of values.now) self.old self.new meter.old meter.new)) }
        ensures refused { IfSome result (λ r. OnErr r ((self.new ≡ self.old) × (meter.new ≡ meter.old))) }
    {
        let alloc = *self.members.allocator();
        let member = self.members.get_mut(name)?;
        Some(member.column.write(alloc, values, selected, meter))
    }
}

/// A name and what there is under it once more.
fn second_member<L>(
    alloc: Global,
    name: &Name,
    member: &mut Member,
    meter: &mut Meter<L>,
) -> Result<(Name, Member), Memory>
    ensures kept { KeepsEntry (entry_of (name.now, member.old)) (entry_of (name.now, member.new)) }
    ensures twin { IfOk result (λ twin. IsTwinEntry (entry_of (name.now, member.old)) (entry_of twin)) }
    ensures noted { OnOk result (meter.new ≡ noted_if (one_part member.old.column) meter.old) }
    ensures refused { OnErr result (meter.new ≡ meter.old) }
{
    let twin = name.second(alloc)?;
    let column = member.column.second(alloc, meter)?;
    let place = member.place;
    Ok((twin, Member { place, column }))
}
