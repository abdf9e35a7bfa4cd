ghost use Rattle.std.specs.Prelude.{◌≡◌, ℕ, IfOk, map};
ghost use Rattle.gn_meaning.specs.Reads.{kind_number};
ghost use Rattle.gn_origin.specs.Constants.{kinds_of};
ghost use Rattle.gn_origin.specs.Walking.{tree_by, read_by, IsFoundBelow, Stands, Ends};

use crate::groups::{GroupList, Lists};
use crate::read::{Read, Site};
use gn_kinds::SocketKind;
use gn_memory::Memory;
use gn_tree::{Node, Socket};
use std::alloc::Global;
use std::collections::VecDeque;

/// A group node, with its number in its list.
#[derive(Clone, Copy)]
pub(crate) struct Frame<'s, 't> {
    pub(crate) number: usize,
    pub(crate) node: &'t Node,
    pub(crate) group: &'s GroupList<'t>,
}

/// Where a walk along links is.
#[derive(Drop)]
pub(crate) struct Walk<'s, 't> {
    pub(crate) lists: &'s Lists<'t>,
    /// The group nodes that were entered, the innermost first.
    pub(crate) frames: VecDeque<Frame<'s, 't>>,
    pub(crate) site: Site<'s, 't>,
    /// The conversions on the way, that next to the site first.
    pub(crate) conversions: VecDeque<SocketKind>,
}

/// What a step of a walk finds.
#[derive(Clone, Copy)]
pub(crate) enum Progress {
    /// The value comes from another site.
    Moved,
    /// The value comes from here.
    Arrived,
    /// The value comes from a node of another kind.
    Lost,
}

fn copied<'s, 't>(
    alloc: Global,
    frames: &VecDeque<Frame<'s, 't>>,
) -> Result<VecDeque<Frame<'s, 't>>, Memory>
    ensures { IfOk result (λ copy. copy.items ≡ frames.now.items) }
{
    let copy: Vec<Frame<'s, 't>> = frames.iter().copied().collect(alloc)?;
    Ok(VecDeque::from_vec(copy))
}

fn first_conversion(alloc: Global, kind: Option<SocketKind>) -> Result<VecDeque<SocketKind>, Memory>
    ensures { IfOk result (λ conversions. map kind_number conversions.items ≡ kinds_of kind) }
{
    let mut conversions = VecDeque::new(alloc);
    if let Some(kind) = kind {
        conversions.push_front(kind)?;
    }
    Ok(conversions)
}

impl<'s, 't> Walk<'s, 't> {
    ghost use Rattle.std.specs.Prelude.{◌≡◌, ℕ, IfOk};
    ghost use Rattle.gn_tree.specs.Seen.{tree_of};
    ghost use Rattle.gn_origin.specs.declared.read.Site.TheVariants as site;
    ghost use Rattle.gn_origin.specs.Frames.{way_of, AreOpen, IsThere};
    ghost use Rattle.gn_origin.specs.Nodes.{HasGroups};
    ghost use Rattle.gn_origin.specs.Reading.{read_of};
    ghost use Rattle.gn_rules.specs.Rules.{KeepsRules};
    ghost use Rattle.gn_meaning.specs.Forms.{HasForm};
    ghost use Rattle.gn_origin.specs.Walking.{read_by, GoesOn, Stands, Steps};

    /// A walk from what is read in the list at the end of a way.
    pub(crate) fn start(
        alloc: Global,
        lists: &'s Lists<'t>,
        frames: &VecDeque<Frame<'s, 't>>,
        read: Read<'s, 't>,
    ) -> Result<Walk<'s, 't>, Memory>
        requires rules { KeepsRules (tree_of lists.now.tree.now) × HasForm (tree_of lists.now.tree.now) × HasGroups lists.now }
        requires ways { AreOpen (tree_of lists.now.tree.now) frames.now.items × IsThere (tree_of lists.now.tree.now) frames.now.items read.site }
        ensures { IfOk result (λ walk. (walk.lists.now ≡ lists.now) × (read_by walk ≡ read_of (way_of frames.now.items) read.entry) × Stands walk) }
    {
        Ok(Walk {
            lists,
            frames: copied(alloc, frames)?,
            site: read.site,
            conversions: first_conversion(alloc, read.conversion)?,
        })
    }

    fn go_on(&mut self, read: Option<Read<'s, 't>>) -> Result<Progress, Memory>
        ensures { IfOk result (λ progress. GoesOn self.old self.new read.entry progress) }
    {
        let Some(read) = read else {
            return Ok(Progress::Lost);
        };
        if let Some(kind) = read.conversion {
            self.conversions.push_front(kind)?;
        }
        self.site = read.site;
        Ok(Progress::Moved)
    }

    fn enter(&mut self, frame: Frame<'s, 't>, socket: &'t Socket) -> Result<Progress, Memory>
        requires stands { Stands self.old }
        requires at { (output : ℕ) × (self.old.site ≡ site.Group frame output socket) }
        ensures { IfOk result (λ progress. Steps self.old self.new progress) }
    {
        self.frames.push_front(frame)?;
        let list = self.lists.at_end(&self.frames);
        self.go_on(list.socket_read(&frame.group.group.output, socket))
    }

    fn leave(&mut self, socket: &'t Socket) -> Result<Progress, Memory>
        requires stands { Stands self.old }
        requires at { (number : ℕ) × (self.old.site ≡ site.Entry number socket) }
        ensures { IfOk result (λ progress. Steps self.old self.new progress) }
    {
        let Some(frame) = self.frames.pop_front() else {
            return Ok(Progress::Arrived);
        };
        let list = self.lists.at_end(&self.frames);
        self.go_on(list.socket_read(frame.node.inputs(), socket))
    }

    fn step(&mut self) -> Result<Progress, Memory>
        requires { Stands self.old }
        ensures { IfOk result (λ progress. Steps self.old self.new progress) }
    {
        match self.site {
            Site::Group { frame, socket, .. } => self.enter(frame, socket),
            Site::Entry { socket, .. } => self.leave(socket),
            _ => Ok(Progress::Arrived),
        }
    }
}

/// Where the value comes from.
pub(crate) fn follow<'s, 't>(mut walk: Walk<'s, 't>) -> Result<Option<Walk<'s, 't>>, Memory>
    ghost steps: { ℕ }
    requires stands { Stands walk }
    requires found { IsFoundBelow (tree_by walk) steps (read_by walk).from }
    ensures { IfOk result (λ end. Ends walk.entry end) }
{
    'back: loop {
        match walk.step()? {
            Progress::Moved => {}
            Progress::Arrived => return Ok(Some(walk)),
            Progress::Lost => return Ok(None),
        }
    }
}
