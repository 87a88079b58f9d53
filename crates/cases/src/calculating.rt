// Both arithmetics, compiled: rounding, limits, and records that hold no two ends.
use arithmetic::{Arithmetic, ONE, Refusal};
use centre::Centre;
use ends::Ends;
use std::test::Fail;

// The ends of what a call answered.
fn told<R: Arithmetic>(answer: Result<R, Refusal>) -> Result<(i64, i64), Refusal> {
    let value = answer?;
    Ok((value.low(), value.high()))
}

// The product of l to h and m to k.
fn product<R: Arithmetic>(l: i64, h: i64, m: i64, k: i64) -> Result<(i64, i64), Refusal> {
    told(R::make(l, h)?.product(R::make(m, k)?))
}

#[test]
fn rounds_products_outward(rt: HostRuntime) {
    assert_eq!(rt; product::<Ends>(1, 1, 1, 1), Ok((0, 1)));
    assert_eq!(rt; product::<Centre>(1, 1, 1, 1), Ok((-1, 1)));
    assert_eq!(rt; product::<Ends>(-1, -1, 1, 1), Ok((-1, 0)));
    assert_eq!(rt; product::<Centre>(-1, -1, 1, 1), Ok((-1, 1)));
    assert_eq!(rt; product::<Ends>(-2 * ONE, 3 * ONE, 4, 5), Ok((-10, 15)));
    assert_eq!(rt; product::<Centre>(-2 * ONE, 3 * ONE, 4, 5), Ok((-12, 16)));
}

#[test]
fn refuses_at_the_limits(rt: HostRuntime) -> Result<(), Fail> {
    let far = 1 << 31;
    assert_eq!(rt; product::<Ends>(far, far, far, far), Ok((1 << 38, 1 << 38)));
    assert_eq!(rt;
        product::<Ends>(far, far, far, far + 1),
        Err(Refusal::Product)
    );
    assert_eq!(rt;
        product::<Centre>(far, far, -far - 1, far),
        Err(Refusal::Product)
    );
    let most = 1 << 44;
    assert_eq!(rt; told(Ends::make(most + 1, most + 1)), Err(Refusal::Making));
    assert_eq!(rt; told(Centre::make(1, 0)), Err(Refusal::Making));
    assert_eq!(rt;
        told(Centre::make(i64::MIN, i64::MAX)),
        Err(Refusal::Making)
    );
    let double = Ends::make(most, most)?.sum(Ends::make(most, most)?)?;
    assert_eq!(rt; double.size(), 1 << 45);
    assert_eq!(rt; told(double.sum(Ends::make(1, 1)?)), Err(Refusal::Sum));
    assert_eq!(rt;
        told(double.difference(Ends::make(-1, 1)?)),
        Err(Refusal::Sum)
    );
    assert_eq!(rt;
        told(double.difference(Ends::make(1, 1)?)),
        Ok(((1 << 45) - 1, (1 << 45) - 1))
    );
    Ok(())
}

#[test]
fn takes_malformed_records_for_zero(rt: HostRuntime) {
    let ends = [
        Ends { low: 1, high: 0 },
        Ends {
            low: i64::MIN,
            high: i64::MAX,
        },
        Ends {
            low: 0,
            high: (1 << 45) + 1,
        },
    ];
    for value in ends {
        assert_eq!(rt; (value.low(), value.high()), (0, 0));
        assert_eq!(rt; told(value.sum(Ends { low: 1, high: 2 })), Ok((1, 2)));
        assert_eq!(rt; told(value.product(value)), Ok((0, 0)));
    }
    let centres = [
        Centre {
            centre: 1,
            radius: 1 << 45,
        },
        Centre {
            centre: i64::MIN,
            radius: u64::MAX,
        },
    ];
    for value in centres {
        assert_eq!(rt; (value.low(), value.high()), (0, 0));
        assert_eq!(rt;
            told(value.difference(Centre {
                centre: 5,
                radius: 2,
            })),
            Ok((-7, -3))
        );
        assert_eq!(rt; value.size(), 0);
    }
}
