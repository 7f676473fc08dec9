//! The last checks: two tasks that wrote a path, a path below another, a path found absent and then written.

ghost use Rattle.std.specs.Prelude.{◌≡◌, ℕ, [], ◌∷◌, ◌++◌, IfOk, OnOk, is_some};
ghost use Rattle.std.specs.List.{flat_map};
ghost use Rattle.std.specs.Ordering.{nat_cmp, is_lt};
ghost use Rattle.std.specs.Cmp.Lexicographic.{slice_cmp};
ghost use Rattle.pie_model.specs.Paths.{after_prefix};
ghost use Rattle.pie_model.specs.Verdict.{is_found, finding_of, found_by, findings, least, comes_before};

use pie_model::bytes::Bytes;
use pie_model::words::{Check, Finding};
use std::alloc::{AllocError, Global};
use std::cmp::Ordering;

/// Whether a path is a directory above the other one.
pub fn is_above(path: &[u8], other: &[u8]) -> bool
    ensures { result ≡ is_some (after_prefix (path.now ++ 47 ∷ []) other.now) }
{
    match path {
        [] => match other {
            [] => false,
            [first, ..] => *first == 47,
        },
        [first, rest @ ..] => match other {
            [] => false,
            [second, more @ ..] => {
                if *first != *second {
                    return false;
                }
                is_above(rest, more)
            }
        },
    }
}

/// Whether one comes before the other in the order of bytes.
fn less(a: &Bytes, b: &Bytes) -> bool
    ensures { result ≡ is_lt (slice_cmp nat_cmp a.now b.now) }
{
    a.as_slice().cmp(b.as_slice()) == Ordering::Less
}

/// Whether a check finds something in these two.
fn finds(check: Check, x: &(Bytes, Bytes), y: &(Bytes, Bytes)) -> bool
    ensures { result ≡ is_found check x.now y.now }
{
    match check {
        Check::Overlapping => x.0.same(&y.0) && less(&x.1, &y.1),
        Check::Nesting => is_above(x.0.as_slice(), y.0.as_slice()),
        Check::Hiding => x.0.same(&y.0) && !x.1.same(&y.1),
    }
}

/// What a check finds in these two.
fn finding(
    alloc: Global,
    check: Check,
    x: &(Bytes, Bytes),
    y: &(Bytes, Bytes),
) -> Result<Finding, AllocError>
    ensures { IfOk result (λ f. f ≡ finding_of check x.now y.now) }
{
    match check {
        Check::Overlapping => Ok(Finding {
            path: x.0.copy(alloc)?,
            first: x.1.copy(alloc)?,
            second: y.1.copy(alloc)?,
        }),
        Check::Nesting => Ok(Finding {
            path: x.0.copy(alloc)?,
            first: y.0.copy(alloc)?,
            second: Bytes::new(Vec::new(alloc)),
        }),
        Check::Hiding => Ok(Finding {
            path: x.0.copy(alloc)?,
            first: x.1.copy(alloc)?,
            second: y.1.copy(alloc)?,
        }),
    }
}

/// Puts at the end what a check finds in one of these and all of those.
fn find_in(
    alloc: Global,
    into: &mut Vec<Finding>,
    check: Check,
    x: &(Bytes, Bytes),
    ys: &[(Bytes, Bytes)],
) -> Result<(), AllocError>
    ensures { OnOk result (into.new.items ≡ into.old.items ++ flat_map (found_by check x.now) ys.now) }
{
    match ys {
        [] => Ok(()),
        [first, rest @ ..] => {
            if finds(check, x, first) {
                into.push(finding(alloc, check, x, first)?)?;
            }
            find_in(alloc, into, check, x, rest)
        }
    }
}

/// Puts at the end what a check finds in all of these and all of those.
pub fn find_all(
    alloc: Global,
    into: &mut Vec<Finding>,
    check: Check,
    xs: &[(Bytes, Bytes)],
    ys: &[(Bytes, Bytes)],
) -> Result<(), AllocError>
    ensures { OnOk result (into.new.items ≡ into.old.items ++ findings check xs.now ys.now) }
{
    match xs {
        [] => Ok(()),
        [first, rest @ ..] => {
            find_in(alloc, into, check, first, ys)?;
            find_all(alloc, into, check, rest, ys)
        }
    }
}

/// Whether one finding comes before another.
fn before(a: &Finding, b: &Finding) -> bool
    ensures { result ≡ comes_before a.now b.now }
{
    match a.path.as_slice().cmp(b.path.as_slice()) {
        Ordering::Less => true,
        Ordering::Greater => false,
        Ordering::Equal => match a.first.as_slice().cmp(b.first.as_slice()) {
            Ordering::Less => true,
            Ordering::Greater => false,
            Ordering::Equal => less(&a.second, &b.second),
        },
    }
}

/// An equal finding.
fn copy(alloc: Global, finding: &Finding) -> Result<Finding, AllocError>
    ensures { IfOk result (λ f. f ≡ finding.now) }
{
    Ok(Finding {
        path: finding.path.copy(alloc)?,
        first: finding.first.copy(alloc)?,
        second: finding.second.copy(alloc)?,
    })
}

/// The least finding.
pub fn least_of(alloc: Global, found: &[Finding]) -> Result<Option<Finding>, AllocError>
    ensures { IfOk result (λ f. f ≡ least found.now) }
{
    match found {
        [] => Ok(None),
        [first, rest @ ..] => match least_of(alloc, rest)? {
            None => Ok(Some(copy(alloc, first)?)),
            Some(other) => {
                if before(&other, first) {
                    return Ok(Some(other));
                }
                Ok(Some(copy(alloc, first)?))
            }
        },
    }
}
