ghost use Rattle.std.specs.Prelude.{◌≡◌, IfOk, map};
ghost use Rattle.gn_tree.specs.Seen.{socket_of};
ghost use Rattle.gn_rules.specs.Things.{socket_names};
ghost use Rattle.gn_origin.specs.Looking.{IsFound};

use gn_memory::Memory;
use gn_names::Names;
use gn_tree::Socket;
use std::alloc::Global;

/// Sockets, which may be many, by their names.
#[derive(Drop)]
pub(crate) struct Sockets<'t> {
    pub(crate) list: &'t [Socket],
    pub(crate) names: Names<'t>,
    ghost named: { names ≡ socket_names (map socket_of list.now) },
}

fn texts_of<'t>(alloc: Global, list: &'t [Socket]) -> Result<Vec<&'t str>, Memory>
    ensures { IfOk result (λ texts. map (λ text. text.now) texts.items ≡ socket_names (map socket_of list.now)) }
{
    let mut texts = Vec::with_capacity(alloc, list.len())?;
    for socket in list {
        texts.push(socket.name.as_str())?;
    }
    Ok(texts)
}

impl<'t> Sockets<'t> {
    pub(crate) fn new(alloc: Global, list: &'t [Socket]) -> Result<Sockets<'t>, Memory>
        ensures { IfOk result (λ sockets. sockets.list.now ≡ list.now) }
    {
        let names = Names::new(alloc, texts_of(alloc, list)?)?;
        Ok(Sockets { list, names })
    }

    /// The first socket with that name, and its number.
    pub(crate) fn find(&self, name: &str) -> Option<(usize, &'t Socket)>
        ensures { IsFound (map socket_of self.now.list.now) name.now result }
    {
        let number = self.names.first(name)?;
        let socket = self.list.get(number)?;
        Some((number, socket))
    }
}
