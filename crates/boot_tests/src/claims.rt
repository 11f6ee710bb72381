use boot_chain::laws::{claims_of_all_or_nothing, claims_part_what_was_asked};
use boot_chain::{Claimant, Claims, Origin, Range, RangeList, claim_by_origin, run_chain};
use m3_model::Memory;
use std::alloc::Global;
use std::test::Fail;

// Four bootstrappers that claim every range or none, or an assignment, with the namespaces of the ranges asked for; then
// the namespaces of those that each claims and of those that are left.
const CHAINS: &str = "E--- 0112 => 0112////
---- 0112 => ////0112
-E-E 0112 => /0112///
--EE 31 => //31//
---E 7 => ///7/
EEEE  => ////";

const ORIGINS: &str = "H 0112 => 0112////
M 0112 => //0112//
F 0112 => ///0112/";

// One range for each digit, of the namespace that it says.
fn ranges(alloc: Global, digits: &str) -> Result<RangeList, Memory> {
    let mut list = Vec::new(alloc);
    for digit in digits.as_bytes() {
        let ns = *digit & 15;
        list.push(Range {
            ns,
            from: 10,
            to: 20,
        })?;
    }
    Ok(RangeList::from_vec(list))
}

fn tell(list: &RangeList, end: &str, out: &mut String) -> Result<(), Fail> {
    for range in list.as_slice() {
        write!(out, "{}", range.ns)?;
    }
    write!(out, "{end}")?;
    Ok(())
}

fn tell_claims(claims: &Claims, out: &mut String) -> Result<(), Fail> {
    tell(&claims.files, "/", out)?;
    tell(&claims.log, "/", out)?;
    tell(&claims.peers, "/", out)?;
    tell(&claims.fresh, "/", out)?;
    tell(&claims.left, "", out)
}

fn claimant(letters: &[u8], position: usize) -> Claimant {
    match letters.get(position) {
        Some(b'E') => Claimant::Every,
        _ => Claimant::Nothing,
    }
}

// What a chain of such bootstrappers claims.
fn chained(alloc: Global, letters: &str, digits: &str, out: &mut String) -> Result<(), Fail> {
    let by = letters.as_bytes();
    let (mut a, mut b) = (claimant(by, 0), claimant(by, 1));
    let (mut c, mut u) = (claimant(by, 2), claimant(by, 3));
    let asked = ranges(alloc, digits)?;
    let claims = run_chain(alloc, &mut a, &mut b, &mut c, &mut u, asked)?;
    tell_claims(&claims, out)
}

// What is claimed for an assignment.
fn claimed(alloc: Global, letter: &str, digits: &str, out: &mut String) -> Result<(), Fail> {
    let origin = match letter {
        "H" => Origin::Held,
        "M" => Origin::Moved,
        _ => Origin::First,
    };
    let asked = ranges(alloc, digits)?;
    let claims = claim_by_origin(alloc, origin, asked)?;
    tell_claims(&claims, out)
}

#[test]
fn chains_claim_in_order(rt: HostRuntime) -> Result<(), Fail> {
    let mut out = String::new(rt.alloc());
    for row in CHAINS.lines() {
        let (asked, _) = row.split_once(" => ").unwrap_or(("", ""));
        let (letters, digits) = asked.split_once(' ').unwrap_or(("", ""));
        write!(out, "{asked} => ")?;
        chained(rt.alloc(), letters, digits, &mut out)?;
        writeln!(out)?;
    }
    assert_eq!(rt; out.trim_end(), CHAINS);
    claims_part_what_was_asked();
    claims_of_all_or_nothing();
    Ok(())
}

#[test]
fn assignments_claim_by_origin(rt: HostRuntime) -> Result<(), Fail> {
    let mut out = String::new(rt.alloc());
    for row in ORIGINS.lines() {
        let (asked, _) = row.split_once(" => ").unwrap_or(("", ""));
        let (letter, digits) = asked.split_once(' ').unwrap_or(("", ""));
        write!(out, "{asked} => ")?;
        claimed(rt.alloc(), letter, digits, &mut out)?;
        writeln!(out)?;
    }
    assert_eq!(rt; out.trim_end(), ORIGINS);
    Ok(())
}
