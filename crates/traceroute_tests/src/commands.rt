// Commands from their words to their routes, and the sentences for those that are none.
use std::alloc::{AllocError, Global};
use std::error::Error;
use std::fmt::Debug;
use std::process::Abort;
use std::test::Fail;
use traceroute::{Command, ShapeName, TraceError, WordError, parse, traced};

// The words of a line.
fn words_of(heap: Global, line: &str) -> Result<Vec<String>, AllocError> {
    line.split_whitespace()
        .map(|word| String::from_str(heap, word))
        .try_collect(heap)
}

// The command that a line is.
fn command_of(heap: Global, line: &str) -> Result<Command, Fail> {
    let words = words_of(heap, line)?;
    Ok(parse(heap, &words)?)
}

// The answer is this error, which this sentence tells.
fn check_refused<T: Drop, E: Error + PartialEq + Debug + Drop>(
    rt: &impl Abort,
    heap: Global,
    answer: Result<T, E>,
    error: E,
    sentence: &str,
) -> Result<(), Fail> {
    let Err(refusal) = answer else {
        return Err(Fail::new("there is an error"));
    };
    assert_eq!(rt; refusal, error);
    assert_eq!(rt; refusal.to_string(heap)?.as_str(), sentence);
    Ok(())
}

#[test]
fn routes(rt: HostRuntime) -> Result<(), Fail> {
    for (line, hops) in [
        ("ring 8 6 1", 3),
        ("mesh 4 3 0 11", 5),
        ("torus 4 4 0 10", 4),
        ("tree 2 1 3 6", 4),
        ("cylinder 4 3 9 2", 3),
        ("line 64 63 +0", 63),
        ("ring 3 1 1", 0),
    ] {
        let command = command_of(rt.alloc(), line)?;
        assert_eq!(rt; traced(rt.alloc(), &command)?.len(), hops);
    }
    Ok(())
}

#[test]
fn bad_words(rt: HostRuntime) -> Result<(), Fail> {
    let names = "the first word must be line, ring, tree, mesh, torus or cylinder";
    let one = "after the shape there must be its sizes, 1 of them, and two nodes";
    let two = "after the shape there must be its sizes, 2 of them, and two nodes";
    for (line, error, sentence) in [
        ("", WordError::NoShape, names),
        ("Ring x", WordError::NoShape, names),
        (
            "ring -8 1 2",
            WordError::NoNumber { place: 1 },
            "word 1 after the shape is not a number",
        ),
        (
            "ring 8 x",
            WordError::NoNumber { place: 2 },
            "word 2 after the shape is not a number",
        ),
        (
            "ring 8 1 18446744073709551616",
            WordError::NoNumber { place: 3 },
            "word 3 after the shape is not a number",
        ),
        ("ring 8 1", WordError::WrongCount { sizes: 1 }, one),
        ("line 8 1 2 3", WordError::WrongCount { sizes: 1 }, one),
        ("tree 2 1 0", WordError::WrongCount { sizes: 2 }, two),
    ] {
        let words = words_of(rt.alloc(), line)?;
        let answer = parse(rt.alloc(), &words);
        check_refused(&rt, rt.alloc(), answer, error, sentence)?;
    }
    Ok(())
}

#[test]
fn bad_sizes(rt: HostRuntime) -> Result<(), Fail> {
    for (line, name, sentence) in [
        ("line 1 0 0", ShapeName::Line, "a line has 2 to 64 nodes"),
        ("ring 2 0 1", ShapeName::Ring, "a ring has 3 to 64 nodes"),
        ("ring 2 0 0", ShapeName::Ring, "a ring has 3 to 64 nodes"),
        (
            "tree 2 3 0 1",
            ShapeName::Tree,
            "a tree has a height of 1 to 5 and a fat depth from 0 to its height",
        ),
        (
            "mesh 8 9 0 1",
            ShapeName::Mesh,
            "a mesh has two sizes of 2 or more and at most 64 nodes",
        ),
        (
            "torus 2 3 0 1",
            ShapeName::Torus,
            "a torus has two sizes of 3 or more and at most 64 nodes",
        ),
        (
            "cylinder 3 1 0 1",
            ShapeName::Cylinder,
            "a cylinder has a ring of 3 or more, a line of 2 or more and at most 64 nodes",
        ),
    ] {
        let command = command_of(rt.alloc(), line)?;
        let error = TraceError::Unusable { name };
        let answer = traced(rt.alloc(), &command);
        check_refused(&rt, rt.alloc(), answer, error, sentence)?;
    }
    Ok(())
}

#[test]
fn bad_nodes(rt: HostRuntime) -> Result<(), Fail> {
    let nodes = 8;
    let eight = "8 is no node: the network has 8 nodes, counted from 0";
    let nine = "9 is no node: the network has 8 nodes, counted from 0";
    for (line, node, sentence) in [
        ("ring 8 8 9", 8, eight),
        ("ring 8 7 9", 9, nine),
        ("ring 8 9 9", 9, nine),
    ] {
        let command = command_of(rt.alloc(), line)?;
        let error = TraceError::NoNode { node, nodes };
        let answer = traced(rt.alloc(), &command);
        check_refused(&rt, rt.alloc(), answer, error, sentence)?;
    }
    Ok(())
}
