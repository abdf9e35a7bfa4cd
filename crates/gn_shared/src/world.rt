ghost use Rattle.std.specs.Prelude.{◌≡◌, ◌==◌, ℕ, ◌+◌, ◌-◌, ◌^◌, ◌<◌, true, List, [], ◌∷◌, ◌++◌, length, unwrap_or, vec_len, vec_capacity, slice_set, position};
ghost use Rattle.gn_shared.specs.Machine.{Event, Make, Add, Go, Look, Change, start, one_more, one_fewer, with_items, world, IsRun};
ghost use Rattle.gn_shared.specs.Events.{event_of, Steps, IsFoundAs};
ghost use Rattle.gn_shared.specs.Sharing.{IsCounted, ChangesItsOwn, EndsAtItsLastGo, NeverComesBack};

use std::alloc::{AllocError, Global};
use std::marker::Model;
use thiserror::Error;

/// An event of the sharing machine: an atomic step on a block's users word, or a write.
///
/// A holder's number names one handle, and is used once.
#[derive(Drop)]
pub enum ShareEvent {
    /// A new block with these items, and its first handle.
    Make { holder: u64, items: Vec<u64> },
    /// One more handle, on the block of the handle of `from`.
    Add { holder: u64, from: u64 },
    /// A handle ends, and with the last one its block.
    Go { holder: u64 },
    /// A handle looks whether its block has another handle, and is marked where it has none.
    Look { holder: u64 },
    /// A marked handle writes an item.
    Change { holder: u64, at: u64, value: u64 },
}

/// Why a step was refused. A refused step changes nothing.
#[derive(Clone, Copy, Debug, PartialEq, Eq, Error)]
pub enum StepFault {
    /// The machine does not allow the event.
    #[error("the event is not allowed")]
    NotAllowed,
    /// There was no memory for it.
    #[error("out of memory")]
    Memory,
}

impl From<AllocError> for StepFault {
    ghost use Rattle.gn_shared.specs.declared.world.StepFault.TheVariants.{Memory};

    ghost from_gives = { λ _ fault. fault ≡ Memory };

    fn from(_: AllocError) -> Self {
        StepFault::Memory
    }
}

/// A live handle. A mark says that it has found itself to be its block's only one.
#[derive(Clone, Copy)]
pub struct Handle {
    holder: u64,
    block: usize,
    marked: bool,
}

#[derive(Drop)]
struct Block {
    items: Vec<u64>,
    users: u64,
    alive: bool,
}

impl Model for Block {
    ghost use Rattle.gn_shared.specs.Machine as machine;

    ghost Value = { machine.Block };

    ghost view = { λ b. record { items = b.items.items; users = b.users; alive = b.alive } };
}

/// What events have left: the blocks that were made, the live handles, and the holders.
#[derive(Drop)]
struct Tables {
    blocks: Vec<Block>,
    handles: Vec<Handle>,
    used: Vec<u64>,
}

impl Model for Tables {
    ghost use Rattle.gn_shared.specs.Machine.{World};
    ghost use Rattle.gn_shared.specs.Sharing.{IsCounted};

    ghost Value = { World };

    ghost view = { λ t. record { blocks = t.blocks.items; handles = t.handles.items; used = t.used.items } };

    ghost invariant = { λ t. IsCounted (record { blocks = t.blocks.items; handles = t.handles.items; used = t.used.items }) };
}

// Where the first handle of the holder is.
fn place_in(handles: &[Handle], holder: u64) -> Option<usize>
    ensures { result ≡ position (λ h. h.holder == holder) handles.now }
{
    handles.iter().position(|h| h.holder == holder)
}

// Puts an item where there is room for it.
fn push_within<T: Drop>(items: &mut Vec<T>, item: T)
    requires { vec_len items.old < vec_capacity items.old }
    ensures { items.new.items ≡ items.old.items ++ item ∷ [] }
{
    if items.push(item).is_err() {
        unreachable!();
    }
}

impl Block {
    fn new(items: Vec<u64>) -> Block
        ensures { result ≡ record { items = items.items; users = 1; alive = true } }
    {
        Block {
            items,
            users: 1,
            alive: true,
        }
    }

    fn is_alone(&self) -> bool
        ensures { result ≡ (self.now.users == 1) }
    {
        self.users == 1
    }

    fn len(&self) -> usize
        ensures { result ≡ length self.now.items }
    {
        self.items.len()
    }

    fn add_user(&mut self)
        requires { self.old.users < 2 ^ 64 - 1 }
        ensures { self.new ≡ one_more self.old }
    {
        self.users += 1;
    }

    fn drop_user(&mut self)
        requires { 0 < self.old.users }
        ensures { self.new ≡ one_fewer self.old }
    {
        self.users -= 1;
        self.alive = self.users != 0;
    }

    fn write(&mut self, at: usize, value: u64)
        requires { at < length self.old.items }
        ensures { self.new ≡ with_items self.old (slice_set self.old.items at value) }
    {
        self.items[at] = value;
    }
}

impl Tables {
    fn new(alloc: Global) -> Tables
        ensures { result ≡ start }
    {
        Tables {
            blocks: Vec::new(alloc),
            handles: Vec::new(alloc),
            used: Vec::new(alloc),
        }
    }

    // The live handle of the holder, and its place.
    fn find(&self, holder: u64) -> Option<(usize, Handle)>
        ensures { IsFoundAs self.now holder result }
    {
        let place = place_in(&self.handles, holder)?;
        Some((place, self.handles[place]))
    }

    fn make(&mut self, holder: u64, items: Vec<u64>) -> Result<(), StepFault>
        ensures { Steps self.old (Make holder items.items) result self.new }
    {
        if self.used.contains(&holder) {
            return Err(StepFault::NotAllowed);
        }
        self.blocks.reserve(1)?;
        self.handles.reserve(1)?;
        self.used.reserve(1)?;
        let block = self.blocks.len();
        push_within(&mut self.blocks, Block::new(items));
        push_within(
            &mut self.handles,
            Handle {
                holder,
                block,
                marked: false,
            },
        );
        push_within(&mut self.used, holder);
        Ok(())
    }

    fn add(&mut self, holder: u64, from: u64) -> Result<(), StepFault>
        ensures { Steps self.old (Add holder from) result self.new }
    {
        if self.used.contains(&holder) {
            return Err(StepFault::NotAllowed);
        }
        let Some((place, handle)) = self.find(from) else {
            return Err(StepFault::NotAllowed);
        };
        self.handles.reserve(1)?;
        self.used.reserve(1)?;
        self.blocks[handle.block].add_user();
        self.handles[place] = Handle {
            marked: false,
            ..handle
        };
        push_within(
            &mut self.handles,
            Handle {
                holder,
                block: handle.block,
                marked: false,
            },
        );
        push_within(&mut self.used, holder);
        Ok(())
    }

    fn look(&mut self, holder: u64) -> Result<(), StepFault>
        ensures { Steps self.old (Look holder) result self.new }
    {
        let Some((place, handle)) = self.find(holder) else {
            return Err(StepFault::NotAllowed);
        };
        let marked = self.blocks[handle.block].is_alone();
        self.handles[place] = Handle { marked, ..handle };
        Ok(())
    }

    fn go(&mut self, holder: u64) -> Result<(), StepFault>
        ensures { Steps self.old (Go holder) result self.new }
    {
        let Some((place, handle)) = self.find(holder) else {
            return Err(StepFault::NotAllowed);
        };
        self.blocks[handle.block].drop_user();
        self.handles.remove(place);
        Ok(())
    }

    fn change(&mut self, holder: u64, at: u64, value: u64) -> Result<(), StepFault>
        ensures { Steps self.old (Change holder at value) result self.new }
    {
        let Some((_, handle)) = self.find(holder) else {
            return Err(StepFault::NotAllowed);
        };
        let block = &mut self.blocks[handle.block];
        if !handle.marked || at >= block.len() as u64 {
            return Err(StepFault::NotAllowed);
        }
        block.write(at as usize, value);
        Ok(())
    }

    fn step(&mut self, event: ShareEvent) -> Result<(), StepFault>
        ensures { Steps self.old (event_of event) result self.new }
    {
        match event {
            ShareEvent::Make { holder, items } => self.make(holder, items),
            ShareEvent::Add { holder, from } => self.add(holder, from),
            ShareEvent::Go { holder } => self.go(holder),
            ShareEvent::Look { holder } => self.look(holder),
            ShareEvent::Change { holder, at, value } => self.change(holder, at, value),
        }
    }
}

/// The sharing machine: what the atomic steps of handles on shared blocks do, one after another.
/// Contracts see a `World`.
#[derive(Drop)]
pub struct ShareWorld {
    tables: Option<Tables>,
}

impl Model for ShareWorld {
    ghost use Rattle.std.specs.Prelude.{unwrap_or};
    ghost use Rattle.gn_shared.specs.Machine.{World, start};

    ghost Value = { World };

    ghost view = { λ s. unwrap_or s.tables start };
}

impl ShareWorld {
    /// A world with no block and no handle.
    pub fn new() -> ShareWorld
        ensures { result ≡ start }
    {
        ShareWorld { tables: None }
    }

    /// Takes the step of one event, where the machine allows it.
    ///
    /// Returns `NotAllowed` exactly where the machine does not allow it, and `Memory` where memory is
    /// refused. A refused step changes nothing.
    pub fn step(&mut self, event: ShareEvent) -> Result<(), StepFault>
        ensures { Steps self.old (event_of event) result self.new }
    {
        match &mut self.tables {
            Some(tables) => tables.step(event),
            None => {
                let (tables, result) = first_step(event);
                self.tables = tables;
                result
            }
        }
    }
}

// The first event of a world, whose items bring the allocator.
fn first_step(event: ShareEvent) -> (Option<Tables>, Result<(), StepFault>)
    ensures { Steps start (event_of event) result.1 (unwrap_or result.0 start) }
{
    let ShareEvent::Make { holder, items } = event else {
        return (None, Err(StepFault::NotAllowed));
    };
    let mut tables = Tables::new(*items.allocator());
    let result = tables.make(holder, items);
    (Some(tables), result)
}

/// Over every list of events, a block's users word is the number of its live handles, a block is
/// alive exactly while it has users, and a marked handle is its block's only one.
pub fn every_world_is_counted()
    ensures { (es : List Event) → IsRun es → IsCounted (world es) }
{}

/// A write by one handle alters the items of no other live handle.
pub fn a_change_alters_its_own_items()
    ensures { ChangesItsOwn }
{}

/// A block ends at the last `Go` of its handles, and at no other event.
pub fn a_block_ends_at_its_last_go()
    ensures { EndsAtItsLastGo }
{}

/// A block that has ended never comes back.
pub fn an_ended_block_never_comes_back()
    ensures { NeverComesBack }
{}
