// The labellings that are made, and the refusals in their order.
use line::Line;
use network::Routing;
use relabelling::{Labelling, LabellingRefusal, Relabelling};
use std::process::Abort;
use std::test::Fail;

// The bytes are refused, for this reason and by this number; the case is told where they are not.
fn check_refused(
    rt: &impl Abort,
    case: &str,
    bytes: &[u8],
    refusal: LabellingRefusal,
    number: u8,
) -> Result<(), Fail> {
    let Err(answer) = Labelling::new(bytes) else {
        return Err(Fail::new(format_args!("the bytes are refused: {case}")));
    };
    assert_eq!(rt; answer, refusal, "{case}");
    assert_eq!(rt; answer.number(), number, "{case}");
    Ok(())
}

#[test]
fn refusals(rt: HostRuntime) -> Result<(), Fail> {
    check_refused(
        &rt,
        "no bytes",
        &[],
        LabellingRefusal::Count { count: 0 },
        13,
    )?;
    check_refused(
        &rt,
        "one byte",
        &[0],
        LabellingRefusal::Count { count: 1 },
        13,
    )?;
    check_refused(
        &rt,
        "65 bytes",
        &[0; 65],
        LabellingRefusal::Count { count: 65 },
        13,
    )?;
    check_refused(
        &rt,
        "the count comes first",
        &[9],
        LabellingRefusal::Count { count: 1 },
        13,
    )?;
    check_refused(
        &rt,
        "a byte that is too large",
        &[0, 2],
        LabellingRefusal::Outside {
            label: 1,
            position: 2,
        },
        14,
    )?;
    check_refused(
        &rt,
        "the range comes before the repeat",
        &[1, 1, 3],
        LabellingRefusal::Outside {
            label: 2,
            position: 3,
        },
        14,
    )?;
    check_refused(
        &rt,
        "one byte for all",
        &[0; 64],
        LabellingRefusal::Repeated {
            first: 0,
            second: 1,
        },
        15,
    )?;
    check_refused(
        &rt,
        "the first that repeats",
        &[3, 1, 0, 1, 3],
        LabellingRefusal::Repeated {
            first: 1,
            second: 3,
        },
        15,
    )
}

#[test]
fn made(rt: HostRuntime) -> Result<(), Fail> {
    let bytes = [2, 0, 3, 1];
    let labelling = Labelling::new(&bytes)?;
    assert_eq!(rt; labelling.len(), 4);
    for (label, &position) in bytes.iter().enumerate() {
        assert_eq!(rt; labelling.position(label), Some(usize::from(position)));
    }
    assert_eq!(rt; labelling.position(4), None);
    Ok(())
}

#[test]
fn in_a_row(rt: HostRuntime) -> Result<(), Fail> {
    let labelling = Labelling::new(&[2, 0, 3, 1])?;
    let line = Relabelling {
        routing: Line { size: 4 },
        labelling,
    };
    for (label, next) in [(1, Some(3)), (3, Some(0)), (0, Some(2)), (2, None)] {
        assert_eq!(rt; line.link(label, 0), next);
    }
    assert_eq!(rt; line.distance(1, 2), 3);
    Ok(())
}

#[test]
fn longest(rt: HostRuntime) -> Result<(), Fail> {
    let bytes = (0..64u8).rev().collect::<Vec<u8>>(rt.alloc())?;
    let labelling = Labelling::new(&bytes)?;
    assert_eq!(rt; labelling.position(0), Some(63));
    Ok(())
}
