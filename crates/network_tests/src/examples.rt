// The worked examples, by running the code, and routes from end to end.
use line::Line;
use network::{Hop, RouteError, RouteStep, Routing, route};
use product::Product;
use ring::Ring;
use std::alloc::Global;
use std::process::Abort;
use std::test::Fail;
use tree::Tree;

#[test]
fn ring_of_eight(rt: HostRuntime) {
    let ring = Ring { size: 8 };
    assert_eq!(rt;
        ring.escape(6, 1),
        Some(Hop {
            port: 0,
            class: 0,
            next: 7,
        })
    );
    assert_eq!(rt; ring.rank(6, 0, 0), 6);
    assert_eq!(rt;
        ring.escape(0, 1),
        Some(Hop {
            port: 0,
            class: 1,
            next: 1,
        })
    );
    assert_eq!(rt; ring.rank(0, 0, 1), 8);
    assert_eq!(rt;
        ring.escape(2, 6),
        Some(Hop {
            port: 0,
            class: 1,
            next: 3,
        })
    );
    assert_eq!(rt; ring.rank(2, 0, 1), 10);
}

#[test]
fn tree_of_height_two(rt: HostRuntime) {
    let tree = Tree { height: 2, fat: 1 };
    assert_eq!(rt; tree.distance(3, 6), 4);
    assert_eq!(rt; tree.link(1, 1), Some(0));
    assert_eq!(rt; tree.link(3, 1), None);
    assert_eq!(rt; tree.link(0, 3), Some(1));
    assert_eq!(rt; tree.link(1, 3), None);
}

#[test]
fn products(rt: HostRuntime) {
    let product = Product {
        first: Line { size: 3 },
        second: Ring { size: 4 },
    };
    assert_eq!(rt;
        product.escape(9, 0),
        Some(Hop {
            port: 2,
            class: 0,
            next: 0,
        })
    );
    assert_eq!(rt; product.rank(9, 2, 0), 6);
    assert_eq!(rt;
        Product {
            first: Line { size: 8 },
            second: Line { size: 9 },
        }
        .nodes(),
        0
    );
}

// The steps of a route, as written out.
fn check_route<R: Routing>(
    rt: &impl Abort,
    heap: Global,
    routing: &R,
    start: usize,
    end: usize,
    steps: &[RouteStep],
) -> Result<(), Fail> {
    let traced = route(heap, routing, start, end)?;
    assert_eq!(rt; traced.as_slice(), steps);
    Ok(())
}

#[test]
fn routes(rt: HostRuntime) -> Result<(), Fail> {
    let tree = Tree { height: 2, fat: 1 };
    let steps = [
        RouteStep {
            node: 3,
            port: 0,
            class: 0,
            rank: 0,
            next: 1,
        },
        RouteStep {
            node: 1,
            port: 0,
            class: 0,
            rank: 1,
            next: 0,
        },
        RouteStep {
            node: 0,
            port: 4,
            class: 0,
            rank: 2,
            next: 2,
        },
        RouteStep {
            node: 2,
            port: 4,
            class: 0,
            rank: 3,
            next: 6,
        },
    ];
    check_route(&rt, rt.alloc(), &tree, 3, 6, &steps)?;
    check_route(&rt, rt.alloc(), &tree, 3, 3, &[])
}

fn check_no_route<R: Routing>(
    rt: &impl Abort,
    heap: Global,
    routing: &R,
    start: usize,
    end: usize,
    error: RouteError,
) -> Result<(), Fail> {
    let Err(answer) = route(heap, routing, start, end) else {
        return Err(Fail::new("there is no route"));
    };
    assert_eq!(rt; answer, error);
    Ok(())
}

#[test]
fn no_routes(rt: HostRuntime) -> Result<(), Fail> {
    let ring = Ring { size: 8 };
    check_no_route(&rt, rt.alloc(), &ring, 8, 1, RouteError::NoStart)?;
    check_no_route(&rt, rt.alloc(), &ring, 8, 8, RouteError::NoStart)?;
    check_no_route(&rt, rt.alloc(), &ring, 7, 8, RouteError::NoEnd)?;
    check_no_route(
        &rt,
        rt.alloc(),
        &Ring { size: 2 },
        0,
        1,
        RouteError::NoStart,
    )
}
