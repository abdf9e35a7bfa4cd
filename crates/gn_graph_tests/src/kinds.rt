use gn_memory::Memory;
use gn_node_kind::{copy_groups, kind_of};
use gn_tree::{Group, Kind, Node, Setting, Socket, SocketKind, Zone};
use gn_value::op::{CompareKind, CompareOp, MathOp};
use gn_value::{Place, ValueKind};
use std::alloc::Global;
use std::sync::Arc;
use std::test::Fail;

fn text(alloc: Global, text: &str) -> Result<String, Memory> {
    let mut copy = String::new(alloc);
    copy.push_str(text)?;
    Ok(copy)
}

fn node(alloc: Global, kind: &str, settings: Vec<Setting>) -> Result<Node, Memory> {
    let id = text(alloc, "n")?;
    let kind = text(alloc, kind)?;
    Ok(Node {
        id,
        kind,
        settings,
        inputs: Vec::new(alloc),
    })
}

/// A group of that name without nodes.
fn groups(alloc: Global, name: &str) -> Result<Vec<Group>, Memory> {
    let mut groups = Vec::new(alloc);
    groups.push(Group {
        name: text(alloc, name)?,
        inputs: Vec::new(alloc),
        outputs: Vec::new(alloc),
        nodes: Vec::new(alloc),
        output: Vec::new(alloc),
    })?;
    Ok(groups)
}

fn made(alloc: Global, kind: &str, settings: Vec<Setting>) -> Result<Option<Kind>, Memory> {
    let groups = Arc::new(alloc, copy_groups(alloc, &groups(alloc, "g")?)?)?;
    kind_of(alloc, &node(alloc, kind, settings)?, &groups)
}

#[test]
fn a_kind_has_the_values_of_its_settings(rt: HostRuntime) -> Result<(), Fail> {
    let alloc = rt.alloc();
    let found = made(alloc, "domain_size", Vec::new(alloc))?;
    assert!(rt; matches!(found, Some(Kind::DomainSize)));
    let mut settings = Vec::new(alloc);
    settings.push(Setting::Op {
        name: text(alloc, "divide")?,
    })?;
    let found = made(alloc, "math", settings)?;
    assert!(rt; matches!(found, Some(Kind::Math { op: MathOp::Divide })));
    let mut settings = Vec::new(alloc);
    settings.push(Setting::Of {
        kind: SocketKind::Int,
    })?;
    settings.push(Setting::Op {
        name: text(alloc, "not_equal")?,
    })?;
    let found = made(alloc, "compare", settings)?;
    assert!(rt;
        matches!(
            found,
            Some(Kind::Compare {
                of: CompareKind::Int,
                op: CompareOp::NotEqual
            })
        )
    );
    let mut settings = Vec::new(alloc);
    settings.push(Setting::Name {
        text: text(alloc, "w")?,
    })?;
    settings.push(Setting::Of {
        kind: SocketKind::Vector,
    })?;
    settings.push(Setting::Place {
        place: Place::Corner,
    })?;
    let found = made(alloc, "store_named_attribute", settings)?;
    let Some(Kind::StoreNamedAttribute { name, of, place }) = found else {
        return Err(Fail::new("no column is stored"));
    };
    assert!(rt; name.as_str() == "w");
    assert!(rt; of == ValueKind::Vector);
    assert!(rt; place == Place::Corner);
    Ok(())
}

#[test]
fn a_zone_keeps_its_body_and_the_groups(rt: HostRuntime) -> Result<(), Fail> {
    let alloc = rt.alloc();
    let mut items = Vec::new(alloc);
    items.push(Socket {
        name: text(alloc, "shape")?,
        kind: SocketKind::Geometry,
    })?;
    let mut nodes = Vec::new(alloc);
    nodes.push(node(alloc, "cube", Vec::new(alloc))?)?;
    let mut settings = Vec::new(alloc);
    settings.push(Setting::Zone {
        zone: Zone {
            items,
            nodes,
            output: Vec::new(alloc),
        },
    })?;
    let Some(
        Kind::Repeat {
            items,
            nodes,
            groups,
            ..
        },
    ) = made(alloc, "repeat", settings)?
    else {
        return Err(Fail::new("no repeat"));
    };
    assert!(rt; items.len() == 1 && nodes.len() == 1 && groups.len() == 1);
    let found = made(alloc, "group", Vec::new(alloc))?;
    assert!(rt; found.is_none());
    Ok(())
}
