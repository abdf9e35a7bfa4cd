use super::*;

#[test]
fn edges_of_a_vertex_with_many_are_there_once(rt: HostRuntime) {
    let mut edges = Edges::new(rt.alloc());
    for _ in 0..2 {
        for vertex in 0..40 {
            let number = edges.add(5, vertex).expect(&rt, "memory");
            assert_eq!(rt; number, vertex as usize);
        }
    }
    assert_eq!(rt; edges.len(), 40);
    assert_eq!(rt; edges.add(39, 5).expect(&rt, "memory"), 39);
    assert!(rt; edges.insert((5, 40)).expect(&rt, "memory"));
    assert!(rt; !edges.insert((5, 40)).expect(&rt, "memory"));
    let list = edges.into_vec();
    assert_eq!(rt; list.first(), Some(&(0, 5)));
    assert_eq!(rt; list.last(), Some(&(5, 40)));
}
