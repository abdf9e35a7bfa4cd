ghost use Rattle.std.specs.Prelude.{◌≡◌, ◌≤◌, length};
ghost use Rattle.gn_app.specs.Command.{eval};
ghost use Rattle.gn_app.specs.Load.{Goes, Loads, ReadsTree, ReadsPlan, ReadsInput, Prepares, OwnInput, OwnPrepared};
ghost use Rattle.gn_app.specs.Run.{Between, shelf_by};

use crate::ending::Ending;
use crate::load::{LoadedTree, PlannedTree, Prepared};
use gn_geom::Mesh;
use gn_io::{Fetched, Shelf};
use gn_memory::Memory;
use gn_obj::{ObjFault, read_obj};
use gn_origin::find_plan;
use gn_read::{TreeFault, read_tree};
use std::alloc::Global;

const TREE_LIMIT: u64 = 4_194_304;

const INPUT_LIMIT: u64 = 134_217_728;

/// The bytes of a file that is at most so long.
fn load<'a, H: Shelf>(
    alloc: Global,
    shelf: &mut H,
    name: &'a str,
    limit: u64,
) -> Result<Vec<u8>, Ending<'a>>
    ensures loads { Between (shelf_by H.holds H.asked H.missed H.faults H.misses)
        shelf.old shelf.new (λ before now. Loads (λ v. v.items) name.now limit before now result) }
    ensures goes { Between (shelf_by H.holds H.asked H.missed H.faults H.misses) shelf.old shelf.new Goes }
{
    let mut bytes = Vec::new(alloc);
    match shelf.fetch(name, limit, &mut bytes) {
        Fetched::Whole => Ok(bytes),
        Fetched::Absent => Err(Ending::NoFile { name }),
        Fetched::TooLong { length } => Err(Ending::Overlong { name, length }),
        Fetched::Failed => Err(Ending::Unreadable { name }),
        Fetched::Memory => Err(Ending::NoMemory),
    }
}

/// A well-formed tree.
pub(crate) fn load_tree<'a, H: Shelf>(
    alloc: Global,
    shelf: &mut H,
    name: &'a str,
) -> Result<LoadedTree, Ending<'a>>
    ensures reads { Between (shelf_by H.holds H.asked H.missed H.faults H.misses)
        shelf.old shelf.new (λ before now. ReadsTree name.now before now result) }
    ensures goes { Between (shelf_by H.holds H.asked H.missed H.faults H.misses) shelf.old shelf.new Goes }
{
    let bytes = load(alloc, shelf, name, TREE_LIMIT)?;
    match read_tree(alloc, &bytes) {
        Ok(tree) => Ok(LoadedTree { bytes, tree }),
        Err(TreeFault::Text) => Err(Ending::NoJson),
        Err(TreeFault::Form { place, rule }) => Err(Ending::Misformed { place, rule }),
        Err(TreeFault::Memory) => Err(Ending::NoMemory),
    }
}

/// What a well-formed tree asks for, where the program evaluates it.
fn load_plan<'a, H: Shelf>(
    alloc: Global,
    shelf: &mut H,
    name: &'a str,
) -> Result<PlannedTree, Ending<'a>>
    ensures reads { Between (shelf_by H.holds H.asked H.missed H.faults H.misses)
        shelf.old shelf.new (λ before now. ReadsPlan name.now before now result) }
    ensures goes { Between (shelf_by H.holds H.asked H.missed H.faults H.misses) shelf.old shelf.new Goes }
{
    let loaded = match load_tree(alloc, shelf, name) {
        Ok(loaded) => loaded,
        Err(ending) => return Err(ending),
    };
    match find_plan(alloc, &loaded.tree) {
        Ok(Some(plan)) => Ok(PlannedTree {
            bytes: loaded.bytes,
            plan,
        }),
        Ok(None) => Err(Ending::NotBuilt),
        Err(Memory) => Err(Ending::NoMemory),
    }
}

/// The mesh of an input.
fn load_input<'a, H: Shelf>(alloc: Global, shelf: &mut H, name: &'a str) -> Result<Mesh, Ending<'a>>
    ensures reads { Between (shelf_by H.holds H.asked H.missed H.faults H.misses)
        shelf.old shelf.new (λ before now. ReadsInput name.now before now result) }
    ensures goes { Between (shelf_by H.holds H.asked H.missed H.faults H.misses) shelf.old shelf.new Goes }
{
    let bytes = load(alloc, shelf, name, INPUT_LIMIT)?;
    mesh_in(alloc, &bytes)
}

/// The mesh that bytes spell.
fn mesh_in<'a>(alloc: Global, bytes: &[u8]) -> Result<Mesh, Ending<'a>>
    ensures { OwnInput bytes.now result }
{
    match read_obj(alloc, bytes) {
        Ok(mesh) => Ok(mesh),
        Err(ObjFault::Bad { line, rule }) => Err(Ending::BadLine { line, rule }),
        Err(ObjFault::Memory) => Err(Ending::NoMemory),
    }
}

/// The bytes of the tree, where they are the input too.
fn own_input<'a>(alloc: Global, planned: PlannedTree) -> Result<Prepared, Ending<'a>>
    ensures { OwnPrepared planned result }
{
    match mesh_in(alloc, &planned.bytes) {
        Ok(mesh) => Ok(Prepared {
            mesh,
            plan: planned.plan,
        }),
        Err(ending) => Err(ending),
    }
}

/// Reads the files of `eval`: the tree, and then the input unless it is the same file.
pub(crate) fn prepare<'a, H: Shelf>(
    alloc: Global,
    tree: &'a str,
    input: &'a str,
    shelf: &mut H,
) -> Result<Prepared, Ending<'a>>
    ensures prepares { Between (shelf_by H.holds H.asked H.missed H.faults H.misses)
        shelf.old shelf.new (λ before now. Prepares (eval tree.now input.now) before now result) }
    ensures goes { Between (shelf_by H.holds H.asked H.missed H.faults H.misses) shelf.old shelf.new Goes }
{
    let planned = match load_plan(alloc, shelf, tree) {
        Ok(planned) => planned,
        Err(refusal) => return Err(refusal),
    };
    if tree == input {
        return own_input(alloc, planned);
    }
    match load_input(alloc, shelf, input) {
        Ok(mesh) => Ok(Prepared {
            mesh,
            plan: planned.plan,
        }),
        Err(ending) => Err(ending),
    }
}
