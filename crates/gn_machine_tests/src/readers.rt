use crate::graphs::choosing;
use gn_readers::{Place, Reader, readers_of};
use std::alloc::Global;
use std::test::Fail;

// The nodes of the graph have just these readers.
fn are(alloc: Global, expected: &[Reader]) -> bool {
    let Some(graph) = choosing(alloc) else {
        return false;
    };
    let Ok(readers) = readers_of(alloc, &graph) else {
        return false;
    };
    for (row, reader) in readers.iter().zip(expected) {
        if row.as_slice() != [*reader].as_slice() {
            return false;
        }
    }
    readers.len() == expected.len()
}

fn reader(place: Place) -> Reader {
    Reader { output: 0, place }
}

#[test]
fn each_output_goes_where_a_link_leads_to_it(rt: HostRuntime) -> Result<(), Fail> {
    let expected = [
        reader(Place::Input { node: 2, input: 2 }),
        reader(Place::Input { node: 2, input: 1 }),
        reader(Place::Input { node: 3, input: 0 }),
        reader(Place::Root { root: 0 }),
    ];
    assert!(rt; are(rt.alloc(), &expected));
    Ok(())
}
