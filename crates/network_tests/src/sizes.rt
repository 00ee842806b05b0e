// Sizes out of range make networks that are unusable.
use line::Line;
use network::Routing;
use product::Product;
use relabelling::{Labelling, Relabelling};
use ring::Ring;
use std::process::Abort;
use std::test::Fail;
use tree::Tree;

// No nodes, ports, classes or ceiling, and none or 0 for an answer. The name is told where that fails.
fn check_unusable<R: Routing>(rt: &impl Abort, name: &str, routing: &R) {
    assert!(rt;
        routing.nodes() == 0
            && routing.ports() == 0
            && routing.classes() == 0
            && routing.ceiling() == 0,
        "{name}"
    );
    for n in 0..4 {
        for d in 0..4 {
            assert!(rt;
                routing.link(n, d).is_none() && routing.distance(n, d) == 0,
                "{name}"
            );
            assert!(rt;
                routing.escape(n, d).is_none() && routing.rank(n, d, 0) == 0,
                "{name}"
            );
        }
    }
}

#[test]
fn bad_lines(rt: HostRuntime) {
    for size in [0, 1, 65, usize::MAX] {
        check_unusable(&rt, "a line", &Line { size });
    }
}

#[test]
fn bad_rings(rt: HostRuntime) {
    for size in [0, 1, 2, 65, usize::MAX] {
        check_unusable(&rt, "a ring", &Ring { size });
    }
}

#[test]
fn bad_trees(rt: HostRuntime) {
    for (height, fat) in [(0, 0), (6, 0), (2, 3), (5, 6), (usize::MAX, 1)] {
        check_unusable(&rt, "a tree", &Tree { height, fat });
    }
}

#[test]
fn bad_products(rt: HostRuntime) {
    check_unusable(
        &rt,
        "72 nodes",
        &Product {
            first: Line { size: 8 },
            second: Line { size: 9 },
        },
    );
    check_unusable(
        &rt,
        "an unusable first part",
        &Product {
            first: Ring { size: 2 },
            second: Ring { size: 4 },
        },
    );
    check_unusable(
        &rt,
        "an unusable second part",
        &Product {
            first: Ring { size: 4 },
            second: Line { size: 1 },
        },
    );
    check_unusable(
        &rt,
        "8 ports",
        &Product {
            first: Tree { height: 1, fat: 0 },
            second: Line { size: 2 },
        },
    );
}

#[test]
fn bad_relabellings(rt: HostRuntime) -> Result<(), Fail> {
    let labelling = Labelling::new(&[2, 0, 1])?;
    for size in [0, 2, 4] {
        check_unusable(
            &rt,
            "three labels for another number of nodes",
            &Relabelling {
                routing: Line { size },
                labelling,
            },
        );
    }
    Ok(())
}
