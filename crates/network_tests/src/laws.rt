// Every law, over every node, port and class of a handful of networks of each kind, by asking the code.
use line::Line;
use network::{Hop, Routing};
use product::Product;
use relabelling::{Labelling, Relabelling};
use ring::Ring;
use shape::{Shape, Topology};
use std::process::Abort;
use std::test::Fail;
use tree::Tree;

// Each check takes the handle, the name and the routing: a struct of the three would need a `drop` by hand, and its methods
// would say no more.

// Law 1.
fn check_sizes<R: Routing>(rt: &impl Abort, name: &str, routing: &R) {
    let nodes = routing.nodes();
    assert!(rt; (2..=64).contains(&nodes), "{name}");
    assert!(rt; (1..=6).contains(&routing.ports()), "{name}");
    assert!(rt; (1..=2).contains(&routing.classes()), "{name}");
    assert!(rt; (1..=2 * nodes).contains(&routing.ceiling()), "{name}");
}

// Law 2, from node `n` to node `d`.
fn check_distance<R: Routing>(rt: &impl Abort, name: &str, routing: &R, n: usize, d: usize) {
    let distance = routing.distance(n, d);
    assert!(rt; distance < routing.nodes(), "{name}");
    assert!(rt; (distance == 0) == (n == d), "{name}");
}

// Law 3, over the links of node `n`, and that they lead to nodes.
fn check_links<R: Routing>(rt: &impl Abort, name: &str, routing: &R, n: usize, d: usize) {
    for p in 0..routing.ports() {
        if let Some(m) = routing.link(n, p) {
            assert!(rt; m < routing.nodes(), "{name}");
            assert!(rt;
                routing.distance(n, d) <= routing.distance(m, d).saturating_add(1),
                "{name}"
            );
        }
    }
}

// Law 4, of the hop that escape names from `n` to `d`, and the second part of law 5, of the hop after it.
fn check_hop<R: Routing>(rt: &impl Abort, name: &str, routing: &R, n: usize, d: usize, hop: Hop) {
    assert!(rt;
        hop.port < routing.ports() && hop.class < routing.classes(),
        "{name}"
    );
    assert_eq!(rt; routing.link(n, hop.port), Some(hop.next), "{name}");
    assert!(rt;
        routing.distance(hop.next, d).saturating_add(1) == routing.distance(n, d),
        "{name}"
    );
    match routing.escape(hop.next, d) {
        Some(after) => {
            assert!(rt;
                routing.rank(n, hop.port, hop.class)
                    < routing.rank(hop.next, after.port, after.class),
                "{name}"
            );
        }
        None => {
            assert!(rt; hop.next == d, "{name}");
        }
    }
}

fn check_escape<R: Routing>(rt: &impl Abort, name: &str, routing: &R, n: usize, d: usize) {
    match routing.escape(n, d) {
        Some(hop) => {
            assert!(rt; n != d, "{name}");
            check_hop(rt, name, routing, n, d, hop)
        }
        None => {
            assert!(rt; n == d, "{name}");
        }
    }
}

// The first part of law 5, at node `n`, and that the rank is 0 where there is no link.
fn check_ranks<R: Routing>(rt: &impl Abort, name: &str, routing: &R, n: usize) {
    for p in 0..routing.ports() {
        for e in 0..routing.classes() {
            let rank = routing.rank(n, p, e);
            assert!(rt; rank < routing.ceiling(), "{name}");
            assert!(rt; routing.link(n, p).is_some() || rank == 0, "{name}");
        }
    }
}

// Out of range every answer is none or 0.
fn check_outside<R: Routing>(rt: &impl Abort, name: &str, routing: &R, n: usize) {
    let nodes = routing.nodes();
    let ports = routing.ports();
    let classes = routing.classes();
    for past in [nodes, nodes + 1, usize::MAX] {
        assert!(rt; routing.link(past, 0).is_none(), "{name}");
        assert!(rt;
            routing.distance(past, n) == 0 && routing.distance(n, past) == 0,
            "{name}"
        );
        assert!(rt;
            routing.escape(past, n).is_none() && routing.escape(n, past).is_none(),
            "{name}"
        );
        assert!(rt; routing.rank(past, 0, 0) == 0, "{name}");
    }
    for past in [ports, ports + 1, usize::MAX] {
        assert!(rt;
            routing.link(n, past).is_none() && routing.rank(n, past, 0) == 0,
            "{name}"
        );
    }
    for past in [classes, classes + 1, usize::MAX] {
        assert!(rt; routing.rank(n, 0, past) == 0, "{name}");
    }
}

fn check_laws<R: Routing>(rt: &impl Abort, name: &str, routing: &R) {
    check_sizes(rt, name, routing);
    for n in 0..routing.nodes() {
        check_ranks(rt, name, routing, n);
        check_outside(rt, name, routing, n);
        for d in 0..routing.nodes() {
            check_distance(rt, name, routing, n, d);
            check_links(rt, name, routing, n, d);
            check_escape(rt, name, routing, n, d);
        }
    }
}

#[test]
fn lines(rt: HostRuntime) {
    for size in [2, 3, 7, 64] {
        check_laws(&rt, "a line", &Line { size });
    }
}

#[test]
fn rings(rt: HostRuntime) {
    for size in [3, 4, 5, 8, 63, 64] {
        check_laws(&rt, "a ring", &Ring { size });
    }
}

#[test]
fn trees(rt: HostRuntime) {
    for height in 1..=5 {
        for fat in 0..=height {
            check_laws(&rt, "a tree", &Tree { height, fat });
        }
    }
}

#[test]
fn products(rt: HostRuntime) {
    check_laws(
        &rt,
        "a mesh",
        &Product {
            first: Line { size: 8 },
            second: Line { size: 8 },
        },
    );
    check_laws(
        &rt,
        "a torus",
        &Product {
            first: Ring { size: 4 },
            second: Ring { size: 5 },
        },
    );
    check_laws(
        &rt,
        "a cylinder",
        &Product {
            first: Ring { size: 5 },
            second: Line { size: 3 },
        },
    );
    check_laws(
        &rt,
        "a line times a ring",
        &Product {
            first: Line { size: 3 },
            second: Ring { size: 4 },
        },
    );
    let plane = Product {
        first: Line { size: 2 },
        second: Ring { size: 3 },
    };
    check_laws(
        &rt,
        "a product of a product",
        &Product {
            first: plane,
            second: Line { size: 4 },
        },
    );
}

#[test]
fn relabellings(rt: HostRuntime) -> Result<(), Fail> {
    let labelling = Labelling::new(&[5, 3, 0, 6, 1, 4, 2])?;
    let ring = Ring { size: 7 };
    check_laws(
        &rt,
        "a ring with labels",
        &Relabelling {
            routing: ring,
            labelling,
        },
    );
    let tree = Tree { height: 2, fat: 1 };
    check_laws(
        &rt,
        "a tree with labels",
        &Relabelling {
            routing: tree,
            labelling,
        },
    );
    Ok(())
}

#[test]
fn topologies(rt: HostRuntime) -> Result<(), Fail> {
    let routing = Shape::Cylinder(Product {
        first: Ring { size: 3 },
        second: Line { size: 2 },
    });
    check_laws(&rt, "a cylinder", &Topology::Plain(routing));
    let labelling = Labelling::new(&[4, 0, 5, 3, 1, 2])?;
    let relabelled = Topology::Relabelled(Relabelling { routing, labelling });
    check_laws(&rt, "a cylinder with labels", &relabelled);
    assert_eq!(rt;
        relabelled.link(1, 0),
        Some(4),
        "label 1 stands at position 0, and label 4 at position 1"
    );
    Ok(())
}
