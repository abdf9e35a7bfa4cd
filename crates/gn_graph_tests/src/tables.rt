use gn_check::GoodTree;
use gn_memory::Memory;
use gn_read::read_tree;
use gn_table::{Constant, Part, Read, Site, Table, Tables, kind_number, tables_of};
use std::alloc::{AllocError, Global};
use std::process::Abort;
use std::test::Fail;

/// A tree, and the tables of its lists: its own, and then those of its groups.
struct Case {
    tree: &'static str,
    tables: &'static str,
}

fn made(alloc: Global, tree: &GoodTree) -> Result<Tables<'_>, Memory> {
    tables_of(alloc, tree.tree())
}

fn put_constant(text: &mut String, constant: Constant) -> Result<(), AllocError> {
    match constant {
        Constant::Value(_) => text.push_str(" value"),
        Constant::Position => text.push_str(" position"),
        Constant::Index => text.push_str(" index"),
        Constant::Id => text.push_str(" id"),
        Constant::NoGeometry => text.push_str(" none"),
    }
}

fn put_read(text: &mut String, read: Read) -> Result<(), AllocError> {
    match read.site {
        Site::Output { node, socket } => write!(text, " {node}.{socket}")?,
        Site::Entry { number } => write!(text, " in{number}")?,
        Site::Constant { constant } => put_constant(text, constant)?,
        Site::Nowhere => text.push_str(" nowhere")?,
    }
    if let Some(kind) = read.conversion {
        write!(text, ">{}", kind_number(kind))?;
    }
    Ok(())
}

fn put_reads(text: &mut String, reads: &[Read]) -> Result<(), AllocError> {
    for read in reads {
        put_read(text, *read)?;
    }
    text.push_str("; ")
}

fn put_part(text: &mut String, part: Part) -> Result<(), AllocError> {
    match part {
        Part::Run { outputs } => write!(text, "run {outputs}:"),
        Part::Group { number } => write!(text, "group {number}:"),
    }
}

fn put_table(text: &mut String, table: &Table<'_>) -> Result<(), AllocError> {
    for row in &table.rows {
        put_part(text, row.part)?;
        put_reads(text, &row.reads)?;
    }
    text.push_str("order")?;
    for node in &table.order {
        write!(text, " {node}")?;
    }
    text.push_str("; out")?;
    put_reads(text, &table.given)
}

fn written(alloc: Global, tables: &Tables<'_>) -> Result<String, AllocError> {
    let mut text = String::new(alloc);
    put_table(&mut text, &tables.tree)?;
    for table in &tables.groups {
        text.push_str("| ")?;
        put_table(&mut text, table)?;
    }
    Ok(text)
}

fn expect(rt: &impl Abort, alloc: Global, case: &Case) -> Result<(), Fail> {
    match read_tree(alloc, case.tree.as_bytes()) {
        Ok(tree) => {
            let tables = made(alloc, &tree)?;
            let text = written(alloc, &tables)?;
            assert_eq!(rt; text.as_str(), case.tables, "{}", case.tree);
        }
        Err(_) => assert!(rt; false, "{}", case.tree),
    }
    Ok(())
}

/// Each is worked out by hand: kinds have the numbers of truth, int, fixed, vector in turn.
static CASES: [Case; 4] = [
    Case {
        tree: r#"{"format":1,"nodes":[]}"#,
        tables: "order; out none; ",
    },
    Case {
        tree: r#"{"format":1,"nodes":[{"id":"b","kind":"math","set":{"op":"add"},"in":{"a":{"from":"a","socket":"value"}}},{"id":"a","kind":"integer","set":{"value":1}}]}"#,
        tables: "run 1: 1.0>2 value; run 1:; order 1 0; out none; ",
    },
    Case {
        tree: r#"{"format":1,"groups":[{"name":"in","inputs":[{"name":"shape","kind":"geometry"},{"name":"amount","kind":"fixed"}],"outputs":[{"name":"made","kind":"geometry"}],"nodes":[{"id":"s","kind":"set_position","in":{"geometry":{"from":"input","socket":"shape"},"offset":{"from":"input","socket":"amount"}}}],"output":{"made":{"from":"s","socket":"geometry"}}},{"name":"out","inputs":[{"name":"shape","kind":"geometry"},{"name":"amount","kind":"int"}],"outputs":[{"name":"spare","kind":"geometry"},{"name":"made","kind":"geometry"}],"nodes":[{"id":"n","kind":"group","set":{"group":"in"},"in":{"shape":{"from":"input","socket":"shape"},"amount":{"from":"input","socket":"amount"}}}],"output":{"made":{"from":"n","socket":"made"}}}],"nodes":[{"id":"h","kind":"group","set":{"group":"out"},"in":{"shape":{"from":"g","socket":"made"}}},{"id":"g","kind":"group","set":{"group":"out"},"in":{"shape":{"from":"input","socket":"geometry"},"amount":3}}],"output":{"from":"h","socket":"made"}}"#,
        tables: "group 1: 1.1 value; group 1: in0 value; order 1 0; out 0.1; | run 1: in0 value position in1>3; order 0; out 0.0; | group 0: in0 in1>2; order 0; out none 0.0; ",
    },
    Case {
        tree: r#"{"format":1,"nodes":[{"id":"r","kind":"repeat","set":{"items":[{"name":"x","kind":"fixed"},{"name":"g","kind":"geometry"}],"nodes":[],"output":{"x":{"from":"input","socket":"x"}}},"in":{"iterations":4,"g":{"from":"input","socket":"geometry"}}},{"id":"j","kind":"join_geometry","in":{"geometry":[{"from":"r","socket":"g"},{"from":"input","socket":"geometry"},{"from":"r","socket":"g"}]}}],"output":{"from":"j","socket":"geometry"}}"#,
        tables: "run 2: value value in0; run 1: 0.1 in0 0.1; order 0 1; out 1.0; ",
    },
];

#[test]
fn lists_become_the_tables_that_are_worked_out(rt: HostRuntime) -> Result<(), Fail> {
    for case in &CASES {
        expect(&rt, rt.alloc(), case)?;
    }
    Ok(())
}
