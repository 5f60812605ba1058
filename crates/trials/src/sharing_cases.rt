// Cases of the two sharing rules, a line each: claims, amount, mark, guarantee and the shares expected.
use market::refusal::Refusal;
use market::units::Contracts;
use sharing::pro_rata::ProRata;
use sharing::rule::SharingRule;
use sharing::sums::sum_of;
use sharing::time::TimeWithGuarantee;
use std::alloc::{AllocError, Global};
use std::process::Abort;
use std::test::*;

fn contracts(heap: Global, counts: &[u32]) -> Result<Vec<Contracts>, AllocError> {
    counts
        .iter()
        .map(|count| Contracts { count: *count })
        .collect(heap)
}

// The parts of a case are parameters, so that a case is one line; as a struct it would take seven.
fn expect<R: SharingRule>(
    rt: &(impl Abort + AllocGlobal),
    rule: &R,
    claims: &[u32],
    amount: u32,
    mark: Option<usize>,
    guarantee: u32,
    expected: &[u32],
) -> Result<(), Fail> {
    let claims = contracts(rt.alloc(), claims)?;
    let mut shares = vec![in rt.alloc(); Contracts::NONE; claims.len()]?;
    rule.share(
        &claims,
        Contracts { count: amount },
        mark,
        Contracts { count: guarantee },
        &mut shares,
    )?;
    assert_eq!(rt; shares, contracts(rt.alloc(), expected)?);
    Ok(())
}

// The rule refuses the input by 7, and leaves the shares as they were.
fn expect_refusal<R: SharingRule>(
    rt: &(impl Abort + AllocGlobal),
    rule: &R,
    claims: &[u32],
    amount: u32,
    guarantee: u32,
    places: usize,
) -> Result<(), Fail> {
    let claims = contracts(rt.alloc(), claims)?;
    let before = Contracts { count: 3 };
    let mut shares = vec![in rt.alloc(); before; places]?;
    let answer = rule.share(
        &claims,
        Contracts { count: amount },
        None,
        Contracts { count: guarantee },
        &mut shares,
    );
    assert_eq!(rt; answer, Err(Refusal::OutOfBounds));
    assert_eq!(rt; shares, vec![in rt.alloc(); before; places]?);
    Ok(())
}

#[test]
fn time_without_a_mark(rt: HostRuntime) -> Result<(), Fail> {
    let rule = TimeWithGuarantee;
    expect(&rt, &rule, &[], 0, None, 0, &[])?;
    expect(&rt, &rule, &[], 15, None, 0, &[])?;
    expect(&rt, &rule, &[1], 0, None, 0, &[0])?;
    expect(&rt, &rule, &[9_999], 9_999, None, 0, &[9_999])?;
    expect(&rt, &rule, &[20, 20], 15, None, 0, &[15, 0])?;
    expect(&rt, &rule, &[20, 20], 25, None, 0, &[20, 5])?;
    expect(&rt, &rule, &[7, 0, 5], 10, None, 9_999, &[7, 0, 3])?;
    expect(&rt, &rule, &[7, 0, 5], 1_599_840, None, 0, &[7, 0, 5])
}

#[test]
fn time_with_a_mark(rt: HostRuntime) -> Result<(), Fail> {
    let rule = TimeWithGuarantee;
    expect(&rt, &rule, &[20, 10], 15, Some(0), 8, &[8, 7])?;
    expect(&rt, &rule, &[10, 20], 15, Some(1), 8, &[7, 8])?;
    expect(&rt, &rule, &[20, 10], 15, Some(0), 0, &[5, 10])?;
    expect(&rt, &rule, &[5, 20], 15, Some(0), 9_999, &[5, 10])?;
    expect(&rt, &rule, &[20, 20], 15, Some(1), 9_999, &[0, 15])?;
    expect(&rt, &rule, &[3, 4, 20], 12, Some(2), 2, &[3, 4, 5])?;
    expect(&rt, &rule, &[20, 10], 15, Some(2), 8, &[15, 0])?;
    expect(&rt, &rule, &[20, 10], 15, Some(usize::MAX), 8, &[15, 0])
}

#[test]
fn pro_rata_on_few_claims(rt: HostRuntime) -> Result<(), Fail> {
    let rule = ProRata;
    expect(&rt, &rule, &[], 15, None, 0, &[])?;
    expect(&rt, &rule, &[1], 0, None, 0, &[0])?;
    expect(&rt, &rule, &[9_999], 9_999, None, 0, &[9_999])?;
    expect(&rt, &rule, &[20, 20], 15, None, 0, &[8, 7])?;
    expect(&rt, &rule, &[7, 5, 1], 10, None, 0, &[6, 4, 0])?;
    expect(&rt, &rule, &[1, 1, 1], 2, None, 0, &[1, 1, 0])?;
    expect(&rt, &rule, &[3, 0, 3], 3, None, 0, &[2, 0, 1])?;
    expect(&rt, &rule, &[7, 0, 5], 1_599_840, None, 0, &[7, 0, 5])?;
    expect(&rt, &rule, &[20, 10], 15, Some(0), 8, &[10, 5])?;
    expect(&rt, &rule, &[20, 10], 15, Some(1), 9_999, &[10, 5])?;
    expect(&rt, &rule, &[20, 10], 15, Some(2), 9_999, &[10, 5])
}

#[test]
fn most_and_largest_claims(rt: HostRuntime) -> Result<(), Fail> {
    let claims = [9_999; 160];
    let mut short = claims;
    short[159] = 9_998;
    expect(
        &rt,
        &TimeWithGuarantee,
        &claims,
        1_599_840,
        None,
        0,
        &claims,
    )?;
    expect(&rt, &TimeWithGuarantee, &claims, 1_599_839, None, 0, &short)?;
    expect(&rt, &ProRata, &claims, 1_599_840, None, 0, &claims)?;
    expect(&rt, &ProRata, &claims, 1_599_839, None, 0, &short)
}

fn expect_refusals<R: SharingRule>(rt: &(impl Abort + AllocGlobal), rule: &R) -> Result<(), Fail> {
    expect_refusal(rt, rule, &[1; 161], 1, 0, 161)?;
    expect_refusal(rt, rule, &[5, 10_000], 1, 0, 2)?;
    expect_refusal(rt, rule, &[5, 5], 1_599_841, 0, 2)?;
    expect_refusal(rt, rule, &[5, 5], 1, 10_000, 2)?;
    expect_refusal(rt, rule, &[5, 5], 1, 0, 1)?;
    expect_refusal(rt, rule, &[5, 5], 1, 0, 3)?;
    expect_refusal(rt, rule, &[], 1, 0, 1)
}

#[test]
fn refusals(rt: HostRuntime) -> Result<(), Fail> {
    expect_refusals(&rt, &TimeWithGuarantee)?;
    expect_refusals(&rt, &ProRata)
}

#[test]
fn sums(rt: HostRuntime) -> Result<(), Fail> {
    let most = [Contracts { count: 9_999 }; 161];
    assert_eq!(rt; sum_of(&[]), Contracts::NONE);
    assert_eq!(rt;
        sum_of(&[Contracts { count: 7 }, Contracts { count: 5 }]).count,
        12
    );
    assert_eq!(rt; sum_of(&most).count, 1_609_839);
    let over = [Contracts { count: u32::MAX }, Contracts { count: 7 }];
    assert_eq!(rt; sum_of(&over).count, u32::MAX);
    Ok(())
}
